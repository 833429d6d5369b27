// Members of an object, and texts in them.
ghost use Rattle.std.specs.Prelude.{◌≡◌, ◌≢◌, Ok, Err, IfOk, IfErr, [], ◌∷◌, option_and_then, option_map};
ghost use Rattle.serde_json.specs.Find.{as_array};
ghost use Rattle.serde_json.specs.View.{view, items_view};
ghost use Rattle.cj_base.specs.declared.refusal.Refusal.TheVariants.{Invalid, OutOfMemory};
ghost use Rattle.cj_cluster.specs.kubectl.Rows.{member_of};
ghost use Rattle.cj_manifest.specs.Owners as said;
ghost use Rattle.cj_manifest.specs.Values as row;
ghost use Rattle.cj_control.specs.Objects as seen;

use cj_base::{Cause, Field, FieldFault, FieldFaults, Refusal, Text};
use cj_manifest::present;
use serde_json::Value;
use std::alloc::Global;

/// A member of an object, where both are there.
pub(crate) fn member<'v>(value: Option<&'v Value>, name: &str) -> Option<&'v Value>
    ensures { option_map (λ v. view v.now) result
        ≡ member_of name.now (option_map (λ v. view v.now) value.entry) }
{
    present(value?, name)
}

/// A member of `metadata`.
pub fn meta<'v>(value: &'v Value, name: &str) -> Option<&'v Value>
    ensures { option_map (λ v. view v.now) result ≡ seen.meta name.now (view value.now) }
{
    member(present(value, "metadata"), name)
}

/// A member of `spec`.
pub fn spec<'v>(value: &'v Value, name: &str) -> Option<&'v Value>
    ensures { option_map (λ v. view v.now) result ≡ seen.spec name.now (view value.now) }
{
    member(present(value, "spec"), name)
}

/// A member of `status`.
pub(crate) fn status<'v>(value: &'v Value, name: &str) -> Option<&'v Value>
    ensures { option_map (λ v. view v.now) result ≡ seen.status name.now (view value.now) }
{
    member(present(value, "status"), name)
}

/// The text of an annotation.
pub fn annotation<'v>(value: &'v Value, name: &str) -> Option<&'v str>
    ensures { option_map (λ s. s.now) result ≡ seen.annotation name.now (view value.now) }
{
    member(meta(value, "annotations"), name)?.as_str()
}

/// A text that is a member.
pub fn text_at<'v>(value: &'v Value, name: &str) -> Option<&'v str>
    ensures { option_map (λ s. s.now) result ≡ said.text_at name.now (view value.now) }
{
    present(value, name)?.as_str()
}

/// Whether a text is there, and is this.
pub fn is_text(name: &str, text: Option<&str>) -> bool
    ensures { result ≡ seen.is_text name.now (option_map (λ s. s.now) text.entry) }
{
    match text {
        Some(text) => text == name,
        None => false,
    }
}

/// The values of an array; none where it isn't one.
pub fn list_of(value: Option<&Value>) -> &[Value]
    ensures { items_view result.now ≡ seen.list_or_none
        (option_and_then as_array (option_map (λ v. view v.now) value.entry)) }
{
    match value {
        Some(found) => match found.as_array() {
            Some(list) => list.as_slice(),
            None => &[],
        },
        None => &[],
    }
}

/// A refusal of one field.
pub(crate) fn refused(alloc: Global, field: Field, cause: Cause) -> Refusal
    ensures { result ≢ OutOfMemory →
        result ≡ Invalid (record { field = field; cause = cause } ∷ []) }
{
    match FieldFaults::one(alloc, FieldFault { field, cause }) {
        Ok(faults) => Refusal::Invalid(faults),
        Err(_) => Refusal::OutOfMemory,
    }
}

// A text, if the value is one.
fn text_of(alloc: Global, field: Field, value: &Value) -> Result<Text, Refusal>
    ensures ok { IfOk result (λ t.
        seen.in_field field (row.text (view value.now)) ≡ Ok t) }
    ensures err { IfErr result (λ e. e ≢ OutOfMemory →
        seen.in_field field (row.text (view value.now)) ≡ Err e) }
{
    match value.as_str() {
        Some(text) => Text::new(alloc, text),
        None => Err(refused(alloc, field, Cause::WrongType)),
    }
}

/// A text that is required.
pub(crate) fn required_text(
    alloc: Global,
    field: Field,
    value: Option<&Value>,
) -> Result<Text, Refusal>
    ensures ok { IfOk result (λ t. seen.in_field field
        (row.required row.text (option_map (λ v. view v.now) value.entry)) ≡ Ok t) }
    ensures err { IfErr result (λ e. e ≢ OutOfMemory → seen.in_field field
        (row.required row.text (option_map (λ v. view v.now) value.entry)) ≡ Err e) }
{
    match value {
        Some(found) => text_of(alloc, field, found),
        None => Err(refused(alloc, field, Cause::Required)),
    }
}

/// A text, empty where it isn't there.
pub(crate) fn optional_text(
    alloc: Global,
    field: Field,
    value: Option<&Value>,
) -> Result<Text, Refusal>
    ensures ok { IfOk result (λ t. seen.in_field field
        (row.or_default [] row.text (option_map (λ v. view v.now) value.entry)) ≡ Ok t) }
    ensures err { IfErr result (λ e. e ≢ OutOfMemory → seen.in_field field
        (row.or_default [] row.text (option_map (λ v. view v.now) value.entry)) ≡ Err e) }
{
    match value {
        Some(found) => text_of(alloc, field, found),
        None => Text::new(alloc, ""),
    }
}

/// NAMESPACE/NAME.
pub fn full_name(alloc: Global, namespace: &str, name: &str) -> Result<Text, Refusal>
    ensures ok { IfOk result (λ t. t ≡ seen.full_name namespace.now name.now) }
    ensures err { IfErr result (λ e. e ≡ OutOfMemory) }
{
    let key = format!(in alloc; "{namespace}/{name}")?;
    Text::new(alloc, key.as_str())
}
