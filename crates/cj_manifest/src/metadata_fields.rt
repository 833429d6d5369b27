// The fields of the top and of `metadata`.
ghost use Rattle.std.specs.Prelude.{◌≡◌, option_map};
ghost use Rattle.std.specs.Result.{result_ok, result_err};
ghost use Rattle.serde_json.specs.View.{view, items_view, members_view};
ghost use Rattle.cj_manifest.specs.Members.{present as member_at};
ghost use Rattle.cj_manifest.specs.Table as fields;
ghost use Rattle.cj_manifest.specs.Values as read;
ghost use Rattle.cj_manifest.specs.Values.{optional};

use crate::kind::ObjectKind;
use crate::values::{choice, either, object, present, required_object, text, texts};
use crate::{owner, values};
use cj_json::has_float;
use cj_types::Cause;
use serde_json::{Map, Value};

/// The row of the whole manifest.
pub(crate) fn whole(value: &Value) -> Result<&Value, Cause>
    ensures fault { result_err result ≡ result_err (fields.whole (view value.now)) }
    ensures value { option_map (λ v. view v.now) (result_ok result)
        ≡ result_ok (fields.whole (view value.now)) }
{
    let found = object(value)?;
    if has_float(found) {
        Err(Cause::Fraction)
    } else {
        Ok(found)
    }
}

// The row of `apiVersion`: `batch/v1`, and for a CronJob also the version before it.
fn supported(kind: ObjectKind, value: &Value) -> Result<&str, Cause>
    ensures fault { result_err result ≡ result_err (fields.supported kind (view value.now)) }
    ensures value { option_map (λ s. s.now) (result_ok result)
        ≡ result_ok (fields.supported kind (view value.now)) }
{
    match kind {
        ObjectKind::Cron => either(value, "batch/v1", "batch/v1beta1"),
        ObjectKind::Job => choice(value, "batch/v1"),
    }
}

pub(crate) fn api_version(kind: ObjectKind, value: &Value) -> Result<&str, Cause>
    ensures fault { result_err result ≡ result_err (fields.api_version kind (view value.now)) }
    ensures value { option_map (λ s. s.now) (result_ok result)
        ≡ result_ok (fields.api_version kind (view value.now)) }
{
    match present(value, "apiVersion") {
        Some(found) => supported(kind, found),
        None => Err(Cause::Required),
    }
}

pub(crate) fn kind_field(kind: ObjectKind, value: &Value) -> Result<&str, Cause>
    ensures { result_err result ≡ result_err (fields.kind kind (view value.now)) }
{
    match present(value, "kind") {
        Some(found) => choice(found, kind.name()),
        None => Err(Cause::Required),
    }
}

/// The row of `metadata`, a required object.
pub fn metadata(value: &Value) -> Result<&Value, Cause>
    ensures fault { result_err result ≡ result_err (fields.metadata (view value.now)) }
    ensures value { option_map (λ v. view v.now) (result_ok result)
        ≡ result_ok (fields.metadata (view value.now)) }
{
    required_object(value, "metadata")
}

pub(crate) fn spec(value: &Value) -> Result<&Value, Cause>
    ensures fault { result_err result ≡ result_err (fields.spec (view value.now)) }
    ensures value { option_map (λ v. view v.now) (result_ok result)
        ≡ result_ok (fields.spec (view value.now)) }
{
    required_object(value, "spec")
}

pub(crate) fn name(kind: ObjectKind, metadata: &Value) -> Result<&str, Cause>
    ensures fault { result_err result ≡ result_err (fields.name kind (view metadata.now)) }
    ensures value { option_map (λ s. s.now) (result_ok result)
        ≡ result_ok (fields.name kind (view metadata.now)) }
{
    match present(metadata, "name") {
        Some(found) => values::name(found, kind.name_limit()),
        None => Err(Cause::Required),
    }
}

pub(crate) fn namespace(metadata: &Value) -> Result<&str, Cause>
    ensures fault { result_err result ≡ result_err (fields.namespace (view metadata.now)) }
    ensures value { option_map (λ s. s.now) (result_ok result)
        ≡ result_ok (fields.namespace (view metadata.now)) }
{
    match present(metadata, "namespace") {
        Some(found) => values::namespace(found),
        None => Ok("default"),
    }
}

// The row of an optional object of texts.
fn texts_at<'v>(value: &'v Value, name: &str) -> Result<Option<&'v Map<String, Value>>, Cause>
    ensures fault { result_err result
        ≡ result_err (optional read.texts (member_at name.now (view value.now))) }
    ensures value { option_map (option_map (λ m. members_view m.now.entries)) (result_ok result)
        ≡ result_ok (optional read.texts (member_at name.now (view value.now))) }
{
    match present(value, name) {
        Some(found) => Ok(Some(texts(found)?)),
        None => Ok(None),
    }
}

// The row of an optional text.
fn text_at<'v>(value: &'v Value, name: &str) -> Result<Option<&'v str>, Cause>
    ensures fault { result_err result
        ≡ result_err (optional read.text (member_at name.now (view value.now))) }
    ensures value { option_map (option_map (λ s. s.now)) (result_ok result)
        ≡ result_ok (optional read.text (member_at name.now (view value.now))) }
{
    match present(value, name) {
        Some(found) => Ok(Some(text(found)?)),
        None => Ok(None),
    }
}

pub(crate) fn labels(metadata: &Value) -> Result<Option<&Map<String, Value>>, Cause>
    ensures fault { result_err result ≡ result_err (fields.labels (view metadata.now)) }
    ensures value { option_map (option_map (λ m. members_view m.now.entries)) (result_ok result)
        ≡ result_ok (fields.labels (view metadata.now)) }
{
    texts_at(metadata, "labels")
}

pub(crate) fn annotations(metadata: &Value) -> Result<Option<&Map<String, Value>>, Cause>
    ensures fault { result_err result ≡ result_err (fields.annotations (view metadata.now)) }
    ensures value { option_map (option_map (λ m. members_view m.now.entries)) (result_ok result)
        ≡ result_ok (fields.annotations (view metadata.now)) }
{
    texts_at(metadata, "annotations")
}

pub(crate) fn uid(metadata: &Value) -> Result<Option<&str>, Cause>
    ensures fault { result_err result ≡ result_err (fields.uid (view metadata.now)) }
    ensures value { option_map (option_map (λ s. s.now)) (result_ok result)
        ≡ result_ok (fields.uid (view metadata.now)) }
{
    text_at(metadata, "uid")
}

pub(crate) fn resource_version(metadata: &Value) -> Result<Option<&str>, Cause>
    ensures fault { result_err result ≡ result_err (fields.resource_version (view metadata.now)) }
    ensures value { option_map (option_map (λ s. s.now)) (result_ok result)
        ≡ result_ok (fields.resource_version (view metadata.now)) }
{
    text_at(metadata, "resourceVersion")
}

pub(crate) fn owners(metadata: &Value) -> Result<Option<&Vec<Value>>, Cause>
    ensures fault { result_err result ≡ result_err (fields.owners (view metadata.now)) }
    ensures value { option_map (option_map (λ v. items_view v.now.items)) (result_ok result)
        ≡ result_ok (fields.owners (view metadata.now)) }
{
    match present(metadata, "ownerReferences") {
        Some(found) => Ok(Some(owner::owners(found)?)),
        None => Ok(None),
    }
}
