// Members that are there, and numbers in them.
ghost use Rattle.std.specs.Prelude.{◌≡◌, option_map};
ghost use Rattle.serde_json.specs.View.{view};
ghost use Rattle.cj_manifest.specs.Members.{present as member_at};
ghost use Rattle.cj_script.specs.operations.Operations as said;

use cj_types::Max;
use serde_json::Value;

/// A member, where null counts as absent.
pub fn present<'v>(value: &'v Value, name: &str) -> Option<&'v Value>
    ensures { option_map (λ v. view v.now) result ≡ member_at name.now (view value.now) }
{
    match value.get(name) {
        None => None,
        Some(Value::Null) => None,
        Some(found) => Some(found),
    }
}

/// A number that must be there.
pub(crate) fn number_at(value: &Value, name: &str) -> Option<u64>
    ensures { result ≡ said.number_in (member_at name.now (view value.now)) }
{
    present(value, name)?.as_u64()
}

fn max_of(count: u64) -> Option<Max>
    ensures { result ≡ said.max_of count }
{
    if count >= 1 && count <= 500 {
        Max::new(count as u16)
    } else {
        None
    }
}

/// How many events at most.
pub(crate) fn max_at(value: &Value) -> Option<Max>
    ensures { result ≡ said.max_in (view value.now) }
{
    max_of(number_at(value, "max")?)
}
