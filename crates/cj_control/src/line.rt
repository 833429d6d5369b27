// Lines that a transport gives a controller.
ghost use Rattle.std.specs.Prelude.{◌≡◌, ◌⊎◌, IfOk, IfErr, string_bytes};
ghost use Rattle.serde_json.specs.View.{view};
ghost use Rattle.cj_manifest.specs.Reading.{IsNoValue, Reads};
ghost use Rattle.cj_control.specs.declared.line.LineFault.TheVariants.{Memory, Syntax};
ghost use Rattle.cj_control.specs.Lines.{IsClock, IsKind, IsLine, IsNoLine, IsSecond, came, count_at, for_request, stops, whole};

use cj_cluster::read_instant;
use cj_manifest::present;
use serde_json::Value;
use std::alloc::{AllocError, Global};

/// What a line says.
#[derive(Clone, Copy, Debug, PartialEq, Eq)]
pub enum LineKind {
    /// The request of this number was answered, with this HTTP status.
    Answered(u64, u64),
    /// No answer came to the request of this number: whether it took effect isn't known.
    Failed(u64),
    /// The watch of this number has an event.
    Told(u64),
    /// The clock is in this second, counted from 1970.
    Clock(u64),
    /// Nothing new is to begin.
    Stop,
}

/// A line: what it says, and its value, which has the body or the event.
#[derive(Drop)]
pub struct Line {
    pub value: Value,
    pub kind: LineKind,
}

/// Why bytes are no line.
#[derive(Clone, Copy, Debug, PartialEq, Eq)]
pub enum LineFault {
    /// They aren't the text of a JSON value.
    Syntax,
    /// The value is of another form.
    Form,
    /// Memory was asked for and refused.
    Memory,
}

fn value_of(alloc: Global, bytes: &[u8]) -> Result<Value, LineFault>
    ensures reads { IfOk result (λ v. Reads bytes.now (view v)) }
    ensures refused { IfErr result (λ e. (e ≡ Memory) ⊎ ((e ≡ Syntax) × IsNoValue bytes.now)) }
{
    match Value::from_slice(alloc, bytes) {
        Ok(value) => Ok(value),
        Err(error) if error.is_memory() => Err(LineFault::Memory),
        Err(_) => Err(LineFault::Syntax),
    }
}

fn count_at(value: &Value, name: &str) -> Option<u64>
    ensures { result ≡ count_at name.now (view value.now) }
{
    present(value, name)?.as_u64()
}

fn stops(value: &Value) -> bool
    ensures { result ≡ stops (view value.now) }
{
    match present(value, "stop") {
        Some(found) => found.as_bool().unwrap_or(false),
        None => false,
    }
}

// What came for the request of a number.
fn came(id: u64, value: &Value) -> Option<LineKind>
    ensures { result ≡ came id (view value.now) }
{
    if present(value, "event").is_some() {
        return Some(LineKind::Told(id));
    }
    if present(value, "error").is_some() {
        return Some(LineKind::Failed(id));
    }
    let status = count_at(value, "status")?;
    Some(LineKind::Answered(id, status))
}

fn for_request(value: &Value) -> Option<LineKind>
    ensures { result ≡ for_request (view value.now) }
{
    let id = count_at(value, "id")?;
    came(id, value)
}

// A time without the fraction of its second.
fn whole(alloc: Global, text: &str) -> Result<String, AllocError>
    ensures { IfOk result (λ s. string_bytes s ≡ whole text.now) }
{
    match text.split_once('.') {
        Some((head, _)) => format!(in alloc; "{head}Z"),
        None => String::from_str(alloc, text),
    }
}

fn second(text: &str) -> Option<LineKind>
    ensures { IsSecond text.now result }
{
    match read_instant(text) {
        Some(instant) => Some(LineKind::Clock(instant.get())),
        None => None,
    }
}

fn second_of(alloc: Global, text: &str) -> Result<Option<LineKind>, AllocError>
    ensures { IfOk result (IsSecond (whole text.now)) }
{
    let whole = whole(alloc, text)?;
    Ok(second(whole.as_str()))
}

fn clock(alloc: Global, now: &Value) -> Result<Option<LineKind>, AllocError>
    ensures { IfOk result (IsClock (view now.now)) }
{
    match now.as_str() {
        Some(text) => second_of(alloc, text),
        None => Ok(None),
    }
}

// What a value says as a line, if it is one.
fn kind_of(alloc: Global, value: &Value) -> Result<Option<LineKind>, AllocError>
    ensures { IfOk result (IsKind (view value.now)) }
{
    if stops(value) {
        return Ok(Some(LineKind::Stop));
    }
    match present(value, "now") {
        Some(now) => clock(alloc, now),
        None => Ok(for_request(value)),
    }
}

/// The line of the bytes, or why they are none.
pub fn read_line(alloc: Global, bytes: &[u8]) -> Result<Line, LineFault>
    ensures ok { IfOk result (IsLine bytes.now) }
    ensures err { IfErr result (IsNoLine bytes.now) }
{
    let value = value_of(alloc, bytes)?;
    match kind_of(alloc, &value) {
        Ok(Some(kind)) => Ok(Line { value, kind }),
        Ok(None) => Err(LineFault::Form),
        Err(_) => Err(LineFault::Memory),
    }
}
