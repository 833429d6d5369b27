// The text of a value.
ghost use Rattle.std.specs.Prelude.{◌≡◌, ◌≤◌, false, IfOk, IfErr, string_bytes};
ghost use Rattle.cj_base.specs.declared.refusal.Refusal.TheVariants.{OutOfMemory};
ghost use Rattle.cj_audit.specs.Faults.{one_fault};
ghost use Rattle.serde_json.specs.Data.{depth};
ghost use Rattle.serde_json.specs.Read.{max_depth};
ghost use Rattle.serde_json.specs.View.{view};
ghost use Rattle.serde_json.specs.Written.{has_float};
ghost use Rattle.cj_c.specs.answers.Texts.{IsJsonText};

use cj_audit::one_fault;
use cj_base::Refusal;
use serde_json::Value;
use std::alloc::Global;

/// The text of a value that has no float and nests at most as deep as JSON is read, on one line.
pub(crate) fn json_text(alloc: Global, value: &Value) -> Result<String, Refusal>
    requires exact { has_float (view value.now) ≡ false }
    requires flat { depth (view value.now) ≤ max_depth }
    ensures ok { IfOk result (λ s. IsJsonText (view value.now) (string_bytes s)) }
    ensures err { IfErr result (λ e. e ≡ OutOfMemory) }
{
    Ok(value.to_string(alloc)?)
}

/// The text of one fault alone.
pub(crate) fn one_fault_text(alloc: Global, cause: &str, field: &str) -> Result<String, Refusal>
    ensures ok { IfOk result (λ s. IsJsonText (one_fault cause.now field.now) (string_bytes s)) }
    ensures err { IfErr result (λ e. e ≡ OutOfMemory) }
{
    let value = one_fault(alloc, cause, field)?;
    json_text(alloc, &value)
}
