// Quoted texts (YAML 1.2.2, 7.3).
ghost use Rattle.std.specs.Prelude.{◌≡◌, ℕ, List, Some, IfOk, IfErr, IsSomeAnd, IsUtf8, string_bytes};
ghost use Rattle.serde_json.specs.View.{view};
ghost use Rattle.serde_json.specs.Data.{string};
ghost use Rattle.serde_json.specs.Read.{read};
ghost use Rattle.cj_yaml.specs.declared.fault.FaultKind.TheVariants.{OutOfMemory};

use crate::chars::{byte, part};
use crate::cursor::Cursor;
use crate::double::{double_end, fold, trim, unescape};
use crate::fault::{FaultKind, Stop};
use serde_json::Value;
use std::alloc::Global;

// The offset of the quote that ends the text which begins at `from`, or the end.
fn single_end(text: &[u8], from: usize) -> usize {
    let mut doubled = false;
    for at in from..text.len() {
        if text[at] == b'\'' {
            doubled = !doubled;
        } else if doubled {
            return at.saturating_sub(1);
        }
    }
    if doubled {
        text.len().saturating_sub(1)
    } else {
        text.len()
    }
}

// The offset of the quote that ends the text whose first quote stands there, or the end.
pub(crate) fn quote_end(text: &[u8], at: usize) -> usize {
    let from = at.saturating_add(1);
    if byte(text, at) == b'"' {
        double_end(text, from)
    } else {
        single_end(text, from)
    }
}

// The offset of the first quote or line break, or `end`.
fn run_end(text: &[u8], from: usize, end: usize) -> usize {
    for at in from..end {
        if matches!(byte(text, at), b'\'' | b'\n' | b'\r') {
            return at;
        }
    }
    end
}

// The text between single quotes, from one offset to the other.
fn unquote(alloc: Global, text: &[u8], from: usize, end: usize) -> Result<Vec<u8>, Stop> {
    let mut out = Vec::new(alloc);
    let mut at = from;
    for _ in from..end {
        if at >= end {
            break;
        }
        let run = run_end(text, at, end);
        if run > at {
            out.extend_from_slice(part(text, at, run))?;
            at = run;
        } else if byte(text, at) == b'\'' {
            out.push(b'\'')?;
            at = at.saturating_add(2);
        } else {
            trim(&mut out, 0);
            at = fold(text, at, &mut out)?;
        }
    }
    Ok(out)
}

// The text that a value is, if it is one.
fn text_of(value: Value) -> Option<String>
    ensures { (t : List ℕ) → view value ≡ string t → IsSomeAnd result (λ s. string_bytes s ≡ t) }
{
    match value {
        Value::String(found) => Some(found),
        Value::Null => None,
        Value::Bool(_) => None,
        Value::Number(_) => None,
        Value::Array(_) => None,
        Value::Object(_) => None,
    }
}

// The text that JSON reads of a text in double quotes, where it does.
fn json_text(alloc: Global, raw: &[u8]) -> Result<Option<String>, Stop>
    ensures read { (t : List ℕ) → IsUtf8 raw.now → read raw.now ≡ Some (string t)
        → IfOk result (λ o. IsSomeAnd o (λ s. string_bytes s ≡ t)) }
    ensures memory { IfErr result (λ e. e.kind ≡ OutOfMemory) }
{
    match Value::from_slice(alloc, raw) {
        Ok(value) => Ok(text_of(value)),
        Err(error) if error.is_memory() => Err(Stop {
            kind: FaultKind::OutOfMemory,
            at: 0,
        }),
        Err(_) => Ok(None),
    }
}

// The text whose double quotes stand at these offsets: mostly it is one of JSON.
fn double_text(alloc: Global, text: &[u8], at: usize, end: usize) -> Result<String, Stop> {
    if let Some(found) = json_text(alloc, part(text, at, end.saturating_add(1)))? {
        return Ok(found);
    }
    let bytes = unescape(alloc, text, at.saturating_add(1), end)?;
    match String::from_utf8(bytes) {
        Ok(found) => Ok(found),
        Err(_) => Err(Stop::new(FaultKind::NotUtf8, at)),
    }
}

// The text whose quotes stand at these offsets.
pub(crate) fn quoted_text(
    alloc: Global,
    text: &[u8],
    at: usize,
    end: usize,
) -> Result<String, Stop> {
    if byte(text, at) == b'"' {
        return double_text(alloc, text, at, end);
    }
    let bytes = unquote(alloc, text, at.saturating_add(1), end)?;
    match String::from_utf8(bytes) {
        Ok(found) => Ok(found),
        Err(_) => Err(Stop::new(FaultKind::NotUtf8, at)),
    }
}

// Reads the quoted text that stands at the cursor.
pub(crate) fn read_quoted(alloc: Global, cursor: &mut Cursor<'_>) -> Result<String, Stop> {
    let at = cursor.at;
    let end = quote_end(cursor.text, at);
    if end >= cursor.text.len() {
        return Err(cursor.fault(FaultKind::Unclosed));
    }
    let found = quoted_text(alloc, cursor.text, at, end)?;
    cursor.pass_to(end.saturating_add(1));
    Ok(found)
}
