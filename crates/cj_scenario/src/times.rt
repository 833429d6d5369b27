// Members that are there, and times in them.
ghost use Rattle.std.specs.Prelude.{◌≡◌, ℕ, Option, Some, IfSome, option_map};
ghost use Rattle.serde_json.specs.View.{view};
ghost use Rattle.cj_manifest.specs.Members.{present as member_at};
ghost use Rattle.cj_scenario.specs.Scenes.{IsTime, IsTimeIn, IsMaybeTime};

use cj_types::Seconds;
use cj_zone::read_time;
use serde_json::Value;

/// A member, where null counts as absent.
pub(crate) fn present<'v>(value: &'v Value, name: &str) -> Option<&'v Value>
    ensures { option_map (λ v. view v.now) result ≡ member_at name.now (view value.now) }
{
    match value.get(name) {
        None => None,
        Some(Value::Null) => None,
        Some(found) => Some(found),
    }
}

fn time(value: &Value) -> Option<Seconds>
    ensures found { IfSome result (IsTime (view value.now)) }
    ensures only { (t : ℕ) → IsTime (view value.now) t → result ≡ Some t }
{
    read_time(value.as_str()?)
}

/// A time that must be there.
pub(crate) fn time_at(value: &Value, name: &str) -> Option<Seconds>
    ensures found { IfSome result (IsTimeIn (member_at name.now (view value.now))) }
    ensures only { (t : ℕ) → IsTimeIn (member_at name.now (view value.now)) t → result ≡ Some t }
{
    time(present(value, name)?)
}

/// A time, where there is one.
pub(crate) fn maybe_time_at(value: &Value, name: &str) -> Option<Option<Seconds>>
    ensures found { IfSome result (IsMaybeTime (member_at name.now (view value.now))) }
    ensures only { (last : Option ℕ) → IsMaybeTime (member_at name.now (view value.now)) last →
        result ≡ Some last }
{
    match present(value, name) {
        None => Some(None),
        Some(found) => Some(Some(time(found)?)),
    }
}
