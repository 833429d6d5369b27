ghost use Rattle.std.specs.Prelude.{◌≡◌, IfOk, IsOkAnd, None, string_bytes, true};
ghost use Rattle.serde_json.specs.Data.{depth, string};
ghost use Rattle.cj_yaml.specs.Words.{IsPlainText, is_plain_line};
ghost use Rattle.serde_json.specs.View.{view};

use crate::fault::{FaultKind, Stop};
use crate::mark::WarningKind;
use crate::notes::Notes;
use crate::resolve::{Plain, resolve_plain};
use serde_json::{Number, Value};
use std::alloc::Global;

// A tag that is read (10.3).
#[derive(Clone, Copy, PartialEq, Eq)]
pub(crate) enum Tag {
    Str,
    Int,
    Bool,
    Null,
    Float,
}

// The value of a plain text that stands at an offset.
pub(crate) fn plain_value(notes: &mut Notes, text: String, at: usize) -> Result<Value, Stop>
    ensures flat { IfOk result (λ v. depth (view v) ≡ 0) }
    ensures text { IsPlainText (string_bytes text)
        → IsOkAnd result (λ v. view v ≡ string (string_bytes text)) }
{
    match resolve_plain(text.as_str()) {
        Plain::Null => Ok(Value::Null),
        Plain::Bool(b) => Ok(Value::Bool(b)),
        Plain::Number(number) => Ok(Value::Number(number)),
        Plain::Octal(number) => {
            notes.warn(WarningKind::Octal, at)?;
            Ok(Value::Number(number))
        }
        Plain::Text(None) => Ok(Value::String(text)),
        Plain::Text(Some(kind)) => {
            notes.warn(kind, at)?;
            Ok(Value::String(text))
        }
        Plain::NoNumber => Err(Stop::new(FaultKind::NoJsonNumber, at)),
    }
}

// The value of a text with a tag, in whatever style it stands.
pub(crate) fn tagged_value(tag: Tag, text: String, at: usize) -> Result<Value, Stop>
    ensures flat { IfOk result (λ v. depth (view v) ≡ 0) }
{
    if tag == Tag::Str {
        return Ok(Value::String(text));
    }
    match resolve_plain(text.as_str()) {
        Plain::Null if tag == Tag::Null => Ok(Value::Null),
        Plain::Bool(b) if tag == Tag::Bool => Ok(Value::Bool(b)),
        Plain::Number(number) => tagged_number(tag, &number, at),
        Plain::Octal(number) => tagged_number(tag, &number, at),
        Plain::NoNumber => Err(Stop::new(FaultKind::NoJsonNumber, at)),
        _ => Err(Stop::new(FaultKind::TagMismatch, at)),
    }
}

// The value of a number with a tag.
fn tagged_number(tag: Tag, number: &Number, at: usize) -> Result<Value, Stop>
    ensures flat { IfOk result (λ v. depth (view v) ≡ 0) }
{
    match tag {
        Tag::Int if !number.is_f64() => Ok(Value::Number(*number)),
        Tag::Float => float_value(number, at),
        _ => Err(Stop::new(FaultKind::TagMismatch, at)),
    }
}

fn float_value(number: &Number, at: usize) -> Result<Value, Stop>
    ensures flat { IfOk result (λ v. depth (view v) ≡ 0) }
{
    match number.as_f64() {
        Some(x) => match Number::from_f64(x) {
            Some(float) => Ok(Value::Number(float)),
            None => Err(Stop::new(FaultKind::NoJsonNumber, at)),
        },
        None => Err(Stop::new(FaultKind::NoJsonNumber, at)),
    }
}

// The text of a plain key: a whole number or boolean becomes the text that JSON has for it.
pub(crate) fn plain_key(alloc: Global, text: String, at: usize) -> Result<String, Stop>
    ensures text { IsPlainText (string_bytes text) → is_plain_line (string_bytes text) ≡ true
        → IsOkAnd result (λ s. s ≡ text) }
{
    match resolve_plain(text.as_str()) {
        Plain::Null => Err(Stop::new(FaultKind::NullKey, at)),
        Plain::Bool(true) => Ok(String::from_str(alloc, "true")?),
        Plain::Bool(false) => Ok(String::from_str(alloc, "false")?),
        Plain::Number(number) | Plain::Octal(number) => number_key(alloc, number, at),
        Plain::Text(_) => if text.as_str() == "<<" {
            Err(Stop::new(FaultKind::MergeKey, at))
        } else {
            Ok(text)
        },
        Plain::NoNumber => Err(Stop::new(FaultKind::NoJsonNumber, at)),
    }
}

// The text of a key that is a number. Kubernetes' reader has another text for a float than JSON,
// and refuses a whole number above those of `i64`.
fn number_key(alloc: Global, number: Number, at: usize) -> Result<String, Stop> {
    if !number.is_i64() {
        return Err(Stop::new(FaultKind::NumberKey, at));
    }
    Ok(Value::Number(number).to_string(alloc)?)
}

// What is to be told of a plain key.
pub(crate) fn key_warning(text: &str) -> Option<WarningKind>
    ensures text { IsPlainText text.now → result ≡ None }
{
    match resolve_plain(text) {
        Plain::Octal(_) => Some(WarningKind::Octal),
        Plain::Text(kind) => kind,
        _ => None,
    }
}
