// The limits of a script's world.
ghost use Rattle.std.specs.Prelude.{◌≡◌, option_map};
ghost use Rattle.serde_json.specs.View.{view};
ghost use Rattle.cj_script.specs.Limits as said;

use crate::operations::present;
use cj_types::Limits;
use serde_json::Value;

/// The number that was found, or the usual one where there is none.
pub(crate) fn number_or(usual: u64, found: Option<&Value>) -> Option<u64>
    ensures { result ≡ said.number_or usual (option_map (λ v. view v.now) found.entry) }
{
    match found {
        None => Some(usual),
        Some(value) => value.as_u64(),
    }
}

fn limits_of(history: u64, window: u64) -> Option<Limits>
    ensures { result ≡ said.limits_of history window }
{
    if history >= 1 && history <= 16_777_216 && window >= 1 && window <= 100_000 {
        Limits::new(history as u32, window as u32)
    } else {
        None
    }
}

/// The limits of a script's world: 1,048,576 entries and 1,000 events where nothing else is said.
pub(crate) fn limits_at(value: &Value) -> Option<Limits>
    ensures { result ≡ said.limits_in (view value.now) }
{
    let history = number_or(1_048_576, present(value, "history"))?;
    let window = number_or(1_000, present(value, "window"))?;
    limits_of(history, window)
}
