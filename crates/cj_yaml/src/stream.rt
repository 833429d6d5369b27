ghost use Rattle.std.specs.Prelude.{◌≡◌, ◌≤◌, [], ◌∷◌, IfErr, IfOk, IfSome, IsErrAnd, IsUtf8, OnOk, Some, option_map};
ghost use Rattle.cj_yaml.specs.Places.{IsPlaceIn};
ghost use Rattle.cj_yaml.specs.ReadOf.{IsReadOf, values};
ghost use Rattle.cj_yaml.specs.declared.fault.FaultKind.TheVariants.{NotUtf8};
ghost use Rattle.serde_json.specs.Data.{Data, depth};
ghost use Rattle.serde_json.specs.Read as json;
ghost use Rattle.serde_json.specs.View.{view};

use crate::block::{Reader, Slot};
use crate::chars::mark_len;
use crate::cursor::Cursor;
use crate::document::Document;
use crate::fault::{Fault, FaultKind, Stop};
use crate::mark::{Mark, Warning};
use crate::notes::Notes;
use crate::place::Place;
use crate::places::Places;
use serde_json::Value;
use std::alloc::Global;

// The most levels that a value nests, as in JSON.
pub(crate) const MAX_DEPTH: usize = 127;

/// The documents of a stream, or its first fault. A JSON text is one document with the value that
/// JSON gives it.
pub fn read(alloc: Global, bytes: &[u8]) -> Result<Vec<Document>, Fault>
    ensures place { IfErr result (λ f. IsPlaceIn bytes.now f.place) }
    ensures found { IfOk result (λ documents. IsReadOf bytes.now (values documents.items)) }
    ensures text { OnOk result (IsUtf8 bytes.now) }
    ensures no_text { ¬ (IsUtf8 bytes.now) → IsErrAnd result (λ f. f.kind ≡ NotUtf8) }
{
    match simdutf8::compat::from_utf8(bytes) {
        Ok(_) => match read_text(alloc, bytes) {
            Ok(documents) => Ok(documents),
            Err(stop) => Err(Fault {
                kind: stop.kind,
                place: Place::of(bytes, stop.at),
            }),
        },
        Err(error) => Err(Fault {
            kind: FaultKind::NotUtf8,
            place: Place::of(bytes, error.valid_up_to()),
        }),
    }
}

// The documents of bytes in UTF-8.
fn read_text(alloc: Global, bytes: &[u8]) -> Result<Vec<Document>, Stop>
    requires { IsUtf8 bytes.now }
    ensures { IfOk result (λ documents. (d : Data) → json.read bytes.now ≡ Some d
        → values documents.items ≡ d ∷ []) }
{
    let documents = read_stream(alloc, bytes)?;
    match json_value(alloc, bytes)? {
        Some(value) => one_document(alloc, documents, value),
        None => Ok(documents),
    }
}

// The value of a JSON text.
fn json_value(alloc: Global, bytes: &[u8]) -> Result<Option<Value>, Stop>
    requires { IsUtf8 bytes.now }
    ensures value { IfOk result (λ found. json.read bytes.now ≡ option_map view found) }
    ensures nests { IfOk result (λ found. IfSome found (λ v. depth (view v) ≤ json.max_depth)) }
{
    match Value::from_slice(alloc, bytes) {
        Ok(value) => Ok(Some(value)),
        Err(error) if error.is_memory() => Err(Stop::new(FaultKind::OutOfMemory, 0)),
        Err(_) => Ok(None),
    }
}

// The document of a JSON text with the value that JSON gives it: `-0` isn't the number 0 there.
fn one_document(
    alloc: Global,
    documents: Vec<Document>,
    value: Value,
) -> Result<Vec<Document>, Stop>
    requires { depth (view value) ≤ json.max_depth }
    ensures { IfOk result (λ found. values found.items ≡ view value ∷ []) }
{
    let mut documents = documents;
    let Some(
        Document {
            places,
            warnings,
            ..
        },
    ) = documents.pop()
    else {
        return Err(Stop::new(FaultKind::FlowSyntax, 0));
    };
    let document = Document {
        value,
        places,
        warnings,
    };
    Ok(Vec::from_array(alloc, [document])?)
}

// The documents of a stream in UTF-8.
fn read_stream(alloc: Global, bytes: &[u8]) -> Result<Vec<Document>, Stop> {
    check_controls(bytes)?;
    let mut documents = Vec::new(alloc);
    let mut from = mark_len(bytes);
    for number in 0..=bytes.len() {
        let Some((document, end)) = read_document(alloc, bytes, from, number == 0)? else {
            break;
        };
        documents.push(document)?;
        from = end;
    }
    Ok(documents)
}

// Refuses control characters other than tab, line feed and carriage return (5.1).
fn check_controls(bytes: &[u8]) -> Result<(), Stop> {
    let is_control = |b: &u8| (*b < 32 && !matches!(*b, b'\t' | b'\n' | b'\r')) || *b == 127;
    match bytes.iter().position(is_control) {
        Some(at) => Err(Stop::new(FaultKind::Control, at)),
        None => Ok(()),
    }
}

// Goes to the next document, over lines without content and `...`. Whether `---` begins it; none at
// the stream's end.
fn find_document(cursor: &mut Cursor<'_>, first: bool) -> Result<Option<bool>, Stop> {
    for _ in 0..=cursor.text.len() {
        cursor.pass_lines()?;
        if cursor.is_end() {
            break;
        }
        if !cursor.is_marker() {
            return begin_bare(cursor, first);
        }
        let begins = cursor.peek() == b'-';
        cursor.step(3);
        if begins {
            return Ok(Some(true));
        }
    }
    Ok(None)
}

// A document without `---` begins at the cursor.
fn begin_bare(cursor: &Cursor<'_>, first: bool) -> Result<Option<bool>, Stop> {
    if !cursor.is_fresh() {
        return Err(cursor.fault(FaultKind::Trailing));
    }
    if !first {
        return Err(cursor.fault(FaultKind::NoMarker));
    }
    if cursor.column() == 0 && cursor.peek() == b'%' {
        return Err(cursor.fault(FaultKind::Directive));
    }
    Ok(Some(false))
}

// The document behind an offset, and the offset behind it.
fn read_document(
    alloc: Global,
    text: &[u8],
    from: usize,
    first: bool,
) -> Result<Option<(Document, usize)>, Stop> {
    let mut cursor = Cursor::new(text, from);
    let Some(marked) = find_document(&mut cursor, first)? else {
        return Ok(None);
    };
    let mut reader = Reader {
        alloc,
        cursor,
        notes: Notes::new(alloc, text),
    };
    let slot = Slot {
        least: 0,
        list: None,
        compact: !marked,
        room: MAX_DEPTH,
    };
    let value = reader.value(slot, (0, 0))?;
    if reader.cursor.next_content()?.is_some() {
        return Err(reader.cursor.fault(FaultKind::Indentation));
    }
    let Reader { cursor, notes, .. } = reader;
    let warnings = warnings(alloc, text, notes.marks.as_slice())?;
    let places = Places { spots: notes.spots };
    let document = Document {
        value,
        places,
        warnings,
    };
    Ok(Some((document, cursor.at)))
}

// The warnings, with their places. The marks are in the order of the text.
fn warnings(alloc: Global, text: &[u8], marks: &[Mark]) -> Result<Vec<Warning>, Stop> {
    let mut found = Vec::with_capacity(alloc, marks.len())?;
    let mut place = Place::START;
    let mut from = mark_len(text);
    for mark in marks {
        place = place.after(text, from, mark.at);
        from = mark.at;
        found.push(Warning {
            kind: mark.kind,
            place,
        })?;
    }
    Ok(found)
}
