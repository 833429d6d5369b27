// The members common to both kinds of objects, and the specs that are kept as texts.
ghost use Rattle.std.specs.Prelude.{◌≡◌, ◌≢◌, Some, None, IfOk, IfErr};
ghost use Rattle.cj_base.specs.declared.refusal.Refusal.TheVariants.{OutOfMemory, Syntax};
ghost use Rattle.serde_json.specs.View.{view, members_view};
ghost use Rattle.cj_json.specs.Objects.{object_data};
ghost use Rattle.cj_json.specs.Parts as part;

use crate::floats::has_float;
use crate::members::{put_some_object, put_text, put_value};
use cj_base::{all_four, both};
use cj_types::Refusal;
use serde_json::{Map, Value};
use std::alloc::Global;

/// The JSON value of a kept spec's text.
pub(crate) fn kept_value(alloc: Global, text: &str) -> Result<Value, Refusal>
    ensures ok { IfOk result (λ v. part.kept_value text.now ≡ Some (view v)) }
    ensures err { IfErr result (λ e. e ≢ OutOfMemory →
        (e ≡ Syntax) × (part.kept_value text.now ≡ None)) }
{
    let value = match Value::from_str(alloc, text) {
        Ok(value) => value,
        Err(error) if error.is_memory() => return Err(Refusal::OutOfMemory),
        Err(_) => return Err(Refusal::Syntax),
    };
    if has_float(&value) {
        return Err(Refusal::Syntax);
    }
    Ok(value)
}

/// The JSON object of a stored object of the given kind, with its status if it has one.
pub(crate) fn object_value(
    alloc: Global,
    kind: &str,
    metadata: Map<String, Value>,
    spec: Value,
    status: Map<String, Value>,
) -> Result<Value, Refusal>
    ensures ok { IfOk result (λ v. view v
        ≡ object_data kind.now (members_view metadata.entries) (view spec)
        (members_view status.entries)) }
    ensures err { IfErr result (λ e. e ≡ OutOfMemory) }
{
    let mut members = Map::new(alloc);
    let version = put_text(&mut members, alloc, "apiVersion", "batch/v1");
    let kind = put_text(&mut members, alloc, "kind", kind);
    let metadata = put_value(&mut members, alloc, "metadata", Value::Object(metadata));
    let spec = put_value(&mut members, alloc, "spec", spec);
    let status = put_some_object(&mut members, alloc, "status", status);
    both(version, all_four(kind, metadata, spec, status))?;
    Ok(Value::Object(members))
}
