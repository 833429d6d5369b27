// What the commands take for the bytes of an input: JSON as it is, and JSON of what YAML says, or
// several values, an array or a watch.
ghost use Rattle.std.specs.Prelude.{◌≡◌, List, [], ◌∷◌, map, true, IfOk, IfSome, string_bytes};
ghost use Rattle.std.specs.Bool.{OnTrue};
ghost use Rattle.std.specs.List.{filter, list_any};
ghost use Rattle.serde_json.specs.Data.{Data};
ghost use Rattle.serde_json.specs.View.{view};
ghost use Rattle.cj_manifest.specs.Reading.{IsNoValue, Reads};
ghost use Rattle.cj_yaml.specs.ReadOf.{values};
ghost use Rattle.cj_answers.specs.declared.json.TextShape.TheVariants.{Plain};
ghost use Rattle.cj_answers.specs.Inputs.{IsTaken, IsTextOf};
ghost use Rattle.cj_answers.specs.Json.{shape_of};
ghost use Rattle.cj_answers.specs.Objects.{AreOf, IsListFor, IsTakenFor, has_object, is_alone, is_object, is_said, is_several};

use crate::events::event_of;
use crate::items::{Passed, is_other, list_for};
use crate::json::{TextShape, may_be_yaml, shape_of};
use crate::json_texts::{is_one_object, values_in};
use crate::shapes::shape_words;
use cj_io::Failure;
use cj_scenario::{SceneFault, value_of};
use cj_yaml::{Document, FaultKind, Warning, read};
use serde_json::Value;
use std::alloc::Global;

// The most warnings of an input that people are told.
const MOST_WARNINGS: usize = 10;

/// What is taken for the bytes of an input.
#[derive(Drop)]
pub struct JsonInput {
    /// JSON, if the input is JSON or YAML.
    pub bytes: Vec<u8>,
    /// Lines for people: what YAML 1.1 reads otherwise, and what is passed over.
    pub said: String,
}

// The text of a value.
fn text_of(alloc: Global, value: &Value) -> Result<Vec<u8>, Failure>
    ensures { IfOk result (λ v. IsTextOf (view value.now) v.items) }
{
    let text = value.to_string(alloc)?;
    Ok(text.into_bytes())
}

fn as_it_is(alloc: Global, bytes: Vec<u8>) -> JsonInput
    ensures bytes { result.bytes ≡ bytes }
    ensures said { string_bytes result.said ≡ [] }
{
    JsonInput {
        bytes,
        said: String::new(alloc),
    }
}

// Adds the lines of warnings, up to the most that are told.
fn push_warnings(
    alloc: Global,
    said: &mut String,
    told: usize,
    warnings: &[Warning],
) -> Result<(), Failure> {
    let left = MOST_WARNINGS.saturating_sub(told);
    for warning in warnings.iter().take(left) {
        let line = format!(in alloc; "FILE: {warning}\n")?;
        said.push_str(line.as_str())?;
    }
    Ok(())
}

// The lines on warnings of all documents.
fn warned(alloc: Global, documents: &[Document]) -> Result<String, Failure> {
    let mut said = String::new(alloc);
    let mut count = 0usize;
    for document in documents {
        let warnings = document.warnings.as_slice();
        push_warnings(alloc, &mut said, count, warnings)?;
        count = count.saturating_add(warnings.len());
    }
    if count > MOST_WARNINGS {
        let more = count - MOST_WARNINGS;
        let line = format!(in alloc; "FILE: {more} more of these\n")?;
        said.push_str(line.as_str())?;
    }
    Ok(said)
}

// Adds the lines on what was passed over.
fn push_passed(alloc: Global, said: &mut String, passed: Passed) -> Result<(), Failure> {
    let Passed {
        others,
        near,
        marks,
    } = passed;
    if others > 0 {
        let line = format!(in alloc; "FILE: objects of other kinds, passed over: {others}\n")?;
        said.push_str(line.as_str())?;
    }
    if near > 0 {
        said.push_str(
            "FILE: one of these has nearly the kind CronJob or Job; did you mean that?\n",
        )?;
    }
    if marks > 0 {
        let line = format!(in alloc; "FILE: BOOKMARK and ERROR events, passed over: {marks}\n")?;
        said.push_str(line.as_str())?;
    }
    Ok(())
}

// Whether a value is an object of Kubernetes, which has a kind, or an event of a watch.
fn is_object(value: &Value) -> bool
    ensures { result ≡ is_object (view value.now) }
{
    let is_kind = value.get("kind").and_then(Value::as_str).is_some();
    is_kind || event_of(value).is_some()
}

// Whether one of the values is such an object.
#[tactic(auto, using(crate::proofs::ObjectLists::any_found, crate::proofs::ObjectLists::any_passed, crate::proofs::ObjectLists::any_over))]
fn any_object(values: &[Value]) -> bool
    ensures { result ≡ list_any is_object (map view values.now) }
{
    for value in values {
        if is_object(value) {
            return true;
        }
    }
    false
}

// Whether a value is such an object, or an array with one.
#[tactic(auto, using(crate::proofs::ObjectLists::array_has_object))]
fn has_object(value: &Value) -> bool
    ensures { result ≡ has_object (view value.now) }
{
    match value {
        Value::Array(items) => any_object(items.as_slice()),
        _ => is_object(value),
    }
}

// Whether the objects in a value are taken for it: it is an array with an object, or an event of a
// watch.
fn is_several(value: &Value) -> bool
    ensures { result ≡ is_several (view value.now) }
{
    if value.is_array() {
        has_object(value)
    } else {
        event_of(value).is_some()
    }
}

// Takes the objects of several values as a list.
fn objects_of(
    alloc: Global,
    values: Vec<Value>,
    mut said: String,
) -> Result<(Value, String), Failure>
    ensures { IfOk result (λ t. IsListFor (map view values.items) (view t.0)) }
{
    let (list, passed) = list_for(alloc, values)?;
    push_passed(alloc, &mut said, passed)?;
    Ok((list, said))
}

// What is taken for several values.
fn of_values(alloc: Global, values: Vec<Value>, said: String) -> Result<JsonInput, Failure>
    ensures { IfOk result (λ t. (d : Data) × IsListFor (map view values.items) d
        × IsTextOf d t.bytes.items) }
{
    let (value, said) = objects_of(alloc, values, said)?;
    let bytes = text_of(alloc, &value)?;
    Ok(JsonInput { bytes, said })
}

// What is taken for one value whose objects are.
fn of_several(alloc: Global, value: Value) -> Result<JsonInput, Failure>
    ensures { IfOk result (λ t. (d : Data) × IsListFor (view value ∷ []) d
        × IsTextOf d t.bytes.items) }
{
    let mut values = Vec::new(alloc);
    values.push(value)?;
    of_values(alloc, values, String::new(alloc))
}

// The values of documents that say anything.
#[tactic(auto, using(crate::proofs::ObjectLists::said_on, crate::proofs::ObjectLists::null_on))]
fn document_values(alloc: Global, documents: Vec<Document>) -> Result<Vec<Value>, Failure>
    ensures { IfOk result (λ v. map view v.items ≡ filter is_said (values documents.items)) }
{
    let mut values = Vec::new(alloc);
    for document in documents {
        let Document { value, .. } = document;
        if !value.is_null() {
            values.push(value)?;
        }
    }
    Ok(values)
}

// Whether the values are one that is taken as it is.
fn is_alone(values: &[Value]) -> bool
    ensures { result ≡ is_alone (map view values.now) }
{
    match values {
        [value] => !is_several(value) && !is_other(value),
        _ => false,
    }
}

// The value of one document, or the list of the objects of several.
#[tactic(auto, using(crate::proofs::ObjectLists::none_alone))]
fn documents_value(
    alloc: Global,
    values: Vec<Value>,
    said: String,
) -> Result<(Value, String), Failure>
    ensures { IfOk result (λ t. IsTakenFor (map view values.items) (view t.0)) }
{
    let mut values = values;
    if !is_alone(values.as_slice()) {
        return objects_of(alloc, values, said);
    }
    match values.pop() {
        Some(value) => Ok((value, said)),
        None => Ok((Value::Null, said)),
    }
}

// What is taken for documents, at least one of which is a mapping or a list.
fn of_documents(alloc: Global, documents: Vec<Document>) -> Result<JsonInput, Failure>
    ensures { IfOk result (λ t. (d : Data)
        × IsTakenFor (filter is_said (values documents.items)) d × IsTextOf d t.bytes.items) }
{
    let said = warned(alloc, documents.as_slice())?;
    let values = document_values(alloc, documents)?;
    let (value, said) = documents_value(alloc, values, said)?;
    let bytes = text_of(alloc, &value)?;
    Ok(JsonInput { bytes, said })
}

// Whether a document is a mapping or a list.
fn is_nested(document: &Document) -> bool {
    document.value.is_object() || document.value.is_array()
}

// Whether YAML is to be read of the bytes: they are no JSON, and nothing that people have by
// mistake. (`error: ..` of kubectl would be a mapping.)
fn is_asked(alloc: Global, bytes: &[u8]) -> Result<bool, Failure>
    ensures { IfOk result (λ b. OnTrue b (IsNoValue bytes.now × (shape_of bytes.now ≡ Plain))) }
{
    if shape_words(bytes).is_empty() {
        may_be_yaml(alloc, bytes)
    } else {
        Ok(false)
    }
}

// What is taken for bytes that begin neither as JSON nor behind a byte order mark as JSON.
fn of_plain(alloc: Global, bytes: Vec<u8>) -> Result<JsonInput, Failure>
    ensures { IfOk result (λ t. IsTaken bytes.items t.bytes.items (string_bytes t.said)) }
{
    if !is_asked(alloc, bytes.as_slice())? {
        return Ok(as_it_is(alloc, bytes));
    }
    match read(alloc, bytes.as_slice()) {
        Ok(documents) => {
            if documents.iter().any(is_nested) {
                of_documents(alloc, documents)
            } else {
                Ok(as_it_is(alloc, bytes))
            }
        }
        Err(fault) => match fault.kind {
            FaultKind::OutOfMemory => Err(Failure::Memory),
            _ => Ok(as_it_is(alloc, bytes)),
        },
    }
}

// What is taken for values one behind another; none where they aren't, or none has an object.
fn of_texts(alloc: Global, text: &[u8]) -> Result<Option<JsonInput>, Failure>
    ensures { IfOk result (λ o. IfSome o (λ t. (ds : List Data) × AreOf text.now ds
        × ((d : Data) × IsListFor ds d × IsTextOf d t.bytes.items))) }
{
    match values_in(alloc, text)? {
        Some(values) if values.iter().any(has_object) => {
            Ok(Some(of_values(alloc, values, String::new(alloc))?))
        }
        _ => Ok(None),
    }
}

// What is taken for bytes that are no JSON: perhaps they are values one behind another.
fn of_no_value(alloc: Global, bytes: Vec<u8>) -> Result<JsonInput, Failure>
    requires { IsNoValue bytes.items }
    ensures { IfOk result (λ t. IsTaken bytes.items t.bytes.items (string_bytes t.said)) }
{
    match of_texts(alloc, bytes.as_slice())? {
        Some(input) => Ok(input),
        None => Ok(as_it_is(alloc, bytes)),
    }
}

// What is taken for JSON of this value.
fn of_value(alloc: Global, bytes: Vec<u8>, value: Value) -> Result<JsonInput, Failure>
    requires { Reads bytes.items (view value) }
    ensures { IfOk result (λ t. IsTaken bytes.items t.bytes.items (string_bytes t.said)) }
{
    if is_several(&value) {
        of_several(alloc, value)
    } else {
        Ok(as_it_is(alloc, bytes))
    }
}

// What is taken for bytes that begin as JSON.
fn of_braced(alloc: Global, bytes: Vec<u8>) -> Result<JsonInput, Failure>
    ensures { IfOk result (λ t. IsTaken bytes.items t.bytes.items (string_bytes t.said)) }
{
    if is_one_object(bytes.as_slice()) {
        return Ok(as_it_is(alloc, bytes));
    }
    match value_of(alloc, bytes.as_slice()) {
        Ok(value) => of_value(alloc, bytes, value),
        Err(SceneFault::Memory) => Err(Failure::Memory),
        Err(_) => of_no_value(alloc, bytes),
    }
}

/// What is taken for the bytes of an input. A JSON object stays as it is, and so does what is
/// neither JSON nor YAML. Of YAML the value is taken, if it is a mapping or a list. Several values
/// or documents, an array of objects, and the events of a watch are taken as the list of their
/// objects that `kubectl get` prints, without those of other kinds. So is one document of YAML of
/// another kind.
pub fn json_input(alloc: Global, bytes: Vec<u8>) -> Result<JsonInput, Failure>
    ensures { IfOk result (λ t. IsTaken bytes.items t.bytes.items (string_bytes t.said)) }
{
    match shape_of(bytes.as_slice()) {
        TextShape::Plain => of_plain(alloc, bytes),
        TextShape::Braced => of_braced(alloc, bytes),
        TextShape::Marked | TextShape::Empty => Ok(as_it_is(alloc, bytes)),
    }
}
