// What the value of a faulty manifest says of the object.
ghost use Rattle.std.specs.Prelude.{◌≡◌, IfOk, codes, option_map};
ghost use Rattle.serde_json.specs.View.{view};
ghost use Rattle.cj_check.specs.SaidObject.{home_in, kind_in, meta_in, text_or_null};

use cj_manifest::present;
use serde_json::Value;
use std::alloc::{AllocError, Global};

/// The kind that a value says.
pub(crate) fn kind_in(value: &Value) -> Option<&str>
    ensures { option_map (λ s. s.now) result ≡ kind_in (view value.now) }
{
    present(value, "kind")?.as_str()
}

/// The text of the member of its metadata that has this name.
pub(crate) fn meta_in<'v>(value: &'v Value, name: &str) -> Option<&'v str>
    ensures { option_map (λ s. s.now) result ≡ meta_in name.now (view value.now) }
{
    present(present(value, "metadata")?, name)?.as_str()
}

/// The namespace that it says, else `default`.
pub(crate) fn home_in(value: &Value) -> &str
    ensures { result.now ≡ home_in (view value.now) }
{
    match meta_in(value, "namespace") {
        Some(namespace) => namespace,
        None => "default",
    }
}

/// A text as a value: null where there is none.
pub(crate) fn text_value(alloc: Global, text: Option<&str>) -> Result<Value, AllocError>
    ensures { IfOk result (λ v. view v
        ≡ text_or_null (option_map (λ s. s.now) text.entry)) }
{
    match text {
        Some(text) => Value::try_from_str(alloc, text),
        None => Ok(Value::Null),
    }
}
