// JSON values of times and texts, for what commands print.
ghost use Rattle.std.specs.Prelude.{◌≡◌, ◌++◌, ◌∷◌, [], IfOk, IfErr, OnOk, option_map};
ghost use Rattle.cj_base.specs.declared.refusal.Refusal.TheVariants.{OutOfMemory};
ghost use Rattle.serde_json.specs.View.{view};
ghost use Rattle.cj_json.specs.Values.{text_or_null, time_data, time_or_null};

use cj_types::{Refusal, Seconds};
use cj_zone::time_text;
use serde_json::Value;
use std::alloc::{AllocError, Global};

/// Appends a value to a list.
pub fn push_value(values: &mut Vec<Value>, value: Value) -> Result<(), Refusal>
    ensures ok { OnOk result (values.new.items ≡ values.old.items ++ (value ∷ [])) }
    ensures err { IfErr result (λ e. e ≡ OutOfMemory) }
{
    values.push(value).map_err(AllocError::from)?;
    Ok(())
}

/// The printed time (RFC 3339, UTC).
pub fn time_value(alloc: Global, time: Seconds) -> Result<Value, Refusal>
    ensures ok { IfOk result (λ v. view v ≡ time_data time) }
    ensures err { IfErr result (λ e. e ≡ OutOfMemory) }
{
    let text = time_text(alloc, time)?;
    Ok(Value::String(text))
}

/// The printed time, or null where there is none.
pub fn time_or_null(alloc: Global, time: Option<Seconds>) -> Result<Value, Refusal>
    ensures ok { IfOk result (λ v. view v ≡ time_or_null time) }
    ensures err { IfErr result (λ e. e ≡ OutOfMemory) }
{
    match time {
        Some(time) => time_value(alloc, time),
        None => Ok(Value::Null),
    }
}

/// The text, or null where there is none.
pub fn text_or_null(alloc: Global, text: Option<&str>) -> Result<Value, Refusal>
    ensures ok { IfOk result (λ v. view v ≡ text_or_null (option_map (λ s. s.now) text.entry)) }
    ensures err { IfErr result (λ e. e ≡ OutOfMemory) }
{
    match text {
        Some(text) => Ok(Value::try_from_str(alloc, text)?),
        None => Ok(Value::Null),
    }
}
