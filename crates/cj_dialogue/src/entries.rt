// The lines of a transcript.
use crate::options::{options_value, read_options};
use cj_args::VERSION;
use cj_base::Text;
use cj_io::Failure;
use cj_machine::ControlOptions;
use serde_json::{Value, json};
use std::alloc::Global;

/// The version of the form of transcripts. One without a version is of the first.
pub const FORM: u64 = 1;

/// What a line of a transcript says.
#[derive(Drop)]
pub enum Entry {
    /// It begins: the version of the program, and what the controller was told.
    Start(Text, ControlOptions),
    /// It begins, in a form of this version, which is newer than what this program reads.
    Newer(u64),
    /// This came in.
    In(Vec<u8>),
    /// This went out.
    Out(Vec<u8>),
    /// This zone was sought, and had this file, if any.
    Zone(Text, Option<Vec<u8>>),
    /// Memory was wanting, so from here on it need not be what another run does.
    Wanting,
    /// It ends, and nothing is cut off.
    End,
}

/// The line for want of memory, which needs none.
pub const WANTING: &[u8] = b"{\"wanting\":\"memory\"}\n";
/// The line at the end.
pub const END: &[u8] = b"{\"end\":true}\n";

// Whether bytes are the text of a JSON value.
fn is_json(alloc: Global, bytes: &[u8]) -> Result<bool, Failure> {
    match Value::from_slice(alloc, bytes) {
        Ok(_) => Ok(true),
        Err(error) if error.is_memory() => Err(Failure::Memory),
        Err(_) => Ok(false),
    }
}

/// Adds what came in or went out, by its key: as it is, where it is JSON, and else in hex.
pub fn push_line(alloc: Global, text: &mut Vec<u8>, key: &str, line: &[u8]) -> Result<(), Failure> {
    text.extend_from_slice(b"{\"")?;
    text.extend_from_slice(key.as_bytes())?;
    if is_json(alloc, line)? {
        text.extend_from_slice(b"\":")?;
        text.extend_from_slice(line)?;
        text.extend_from_slice(b"}\n")?;
    } else {
        let hex = hex::encode(alloc, line)?;
        text.extend_from_slice(b"Hex\":\"")?;
        text.extend_from_slice(hex.as_bytes())?;
        text.extend_from_slice(b"\"}\n")?;
    }
    Ok(())
}

fn push_value(alloc: Global, text: &mut Vec<u8>, value: &Value) -> Result<(), Failure> {
    let line = value.to_string(alloc)?;
    text.extend_from_slice(line.as_bytes())?;
    text.extend_from_slice(b"\n")?;
    Ok(())
}

/// Adds the beginning.
pub fn push_start(
    alloc: Global,
    text: &mut Vec<u8>,
    options: &ControlOptions,
) -> Result<(), Failure> {
    let options = options_value(alloc, options)?;
    let value = json!(in alloc; {"cronsim": VERSION, "options": options, "transcript": FORM})?;
    push_value(alloc, text, &value)
}

/// Adds a zone with its file.
pub fn push_zone(
    alloc: Global,
    text: &mut Vec<u8>,
    name: &str,
    file: Option<&[u8]>,
) -> Result<(), Failure> {
    let file = match file {
        Some(bytes) => {
            let hex = hex::encode(alloc, bytes)?;
            Value::try_from_str(alloc, hex.as_str())?
        }
        None => Value::Null,
    };
    let value = json!(in alloc; {"file": file, "zone": name})?;
    push_value(alloc, text, &value)
}

// What a line has by a key: its bytes.
fn read_bytes(alloc: Global, line: &str, key: &str) -> Result<Option<Vec<u8>>, Failure> {
    let Some(rest) = line.strip_prefix("{\"").and_then(|it| it.strip_prefix(key)) else {
        return Ok(None);
    };
    if let Some(raw) = rest.strip_prefix("\":").and_then(|it| it.strip_suffix("}")) {
        if !is_json(alloc, raw.as_bytes())? {
            return Ok(None);
        }
        return Ok(Some(raw.as_bytes().to_vec(alloc)?));
    }
    match rest
        .strip_prefix("Hex\":\"")
        .and_then(|it| it.strip_suffix("\"}"))
    {
        Some(text) => read_hex(alloc, text),
        None => Ok(None),
    }
}

fn read_hex(alloc: Global, text: &str) -> Result<Option<Vec<u8>>, Failure> {
    match hex::decode(alloc, text) {
        Ok(bytes) => Ok(Some(bytes)),
        Err(hex::FromHexError::OutOfMemory) => Err(Failure::Memory),
        Err(_) => Ok(None),
    }
}

fn read_zone(alloc: Global, name: &str, value: &Value) -> Result<Option<Entry>, Failure> {
    let name = Text::new(alloc, name)?;
    match value.get("file") {
        Some(Value::Null) => Ok(Some(Entry::Zone(name, None))),
        Some(Value::String(text)) => Ok(read_hex(alloc, text.as_str())?.map(|bytes| Entry::Zone(
            name,
            Some(bytes),
        ))),
        _ => Ok(None),
    }
}

// The version of the form of a transcript, by its first line.
fn form_of(value: &Value) -> Option<u64> {
    match value.get("transcript") {
        Some(form) => form.as_u64(),
        None => Some(1),
    }
}

fn read_start(alloc: Global, version: &str, value: &Value) -> Result<Option<Entry>, Failure> {
    match form_of(value) {
        Some(form) if form > FORM => return Ok(Some(Entry::Newer(form))),
        Some(form) if form > 0 => {}
        _ => return Ok(None),
    }
    let Some(options) = value.get("options") else {
        return Ok(None);
    };
    match read_options(alloc, options)? {
        Some(options) => Ok(Some(Entry::Start(Text::new(alloc, version)?, options))),
        None => Ok(None),
    }
}

fn read_value(alloc: Global, value: &Value) -> Result<Option<Entry>, Failure> {
    if let Some(version) = value.get("cronsim").and_then(Value::as_str) {
        return read_start(alloc, version, value);
    }
    if let Some(name) = value.get("zone").and_then(Value::as_str) {
        return read_zone(alloc, name, value);
    }
    if value.get("wanting").is_some() {
        return Ok(Some(Entry::Wanting));
    }
    if value.get("end").is_some() {
        return Ok(Some(Entry::End));
    }
    Ok(None)
}

/// What a line says; none where it is no line of a transcript.
pub fn read_entry(alloc: Global, line: &[u8]) -> Result<Option<Entry>, Failure> {
    let Ok(text) = str::from_utf8(line) else {
        return Ok(None);
    };
    if let Some(bytes) = read_bytes(alloc, text, "in")? {
        return Ok(Some(Entry::In(bytes)));
    }
    if let Some(bytes) = read_bytes(alloc, text, "out")? {
        return Ok(Some(Entry::Out(bytes)));
    }
    match Value::from_slice(alloc, line) {
        Ok(value) => read_value(alloc, &value),
        Err(error) if error.is_memory() => Err(Failure::Memory),
        Err(_) => Ok(None),
    }
}
