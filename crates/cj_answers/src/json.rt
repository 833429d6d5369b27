// What `--explain` says of bytes that are no JSON.
ghost use Rattle.std.specs.Bool.{OnTrue};
ghost use Rattle.std.specs.Prelude.{◌≡◌, ◌++◌, IfOk, string_bytes, false, true};
ghost use Rattle.serde_json.specs.Data.{Data};
ghost use Rattle.cj_manifest.specs.Reading.{IsNoValue, Reads};
ghost use Rattle.cj_answers.specs.declared.json.TextShape.TheVariants.{Plain};
ghost use Rattle.cj_answers.specs.Json.{IsJsonWords, IsMore, IsPlaced, IsYamlWords, first_byte, is_blank, is_brace, is_braced, is_marked, json_line, marked_words, shape_by, shape_of};

use crate::json_texts::{broken_text, first_text};
use crate::yaml_words::yaml_words;
use cj_io::Failure;
use cj_scenario::{SceneFault, value_of};
use serde_json::Value;
use std::alloc::{AllocError, Global};

/// What a text looks like that is no JSON.
#[derive(Clone, Copy, Debug, PartialEq, Eq)]
pub(crate) enum TextShape {
    /// It has nothing but blanks.
    Empty,
    /// It begins as an object or a list of JSON does.
    Braced,
    /// It begins so behind a byte order mark.
    Marked,
    /// It begins otherwise, as YAML does.
    Plain,
}

pub(crate) fn is_blank(byte: u8) -> bool
    ensures { result ≡ is_blank byte }
{
    byte == b' ' || byte == b'\t' || byte == b'\n' || byte == b'\r'
}

fn is_brace(byte: u8) -> bool
    ensures { result ≡ is_brace byte }
{
    byte == b'{' || byte == b'['
}

// Its first byte that is no blank.
fn first_byte(bytes: &[u8]) -> Option<u8>
    ensures { result ≡ first_byte bytes.now }
{
    bytes.iter().copied().find(|byte| !is_blank(*byte))
}

fn shape_by(first: Option<u8>) -> TextShape
    ensures { result ≡ shape_by first }
{
    match first {
        None => TextShape::Empty,
        Some(byte) => {
            if is_brace(byte) {
                TextShape::Braced
            } else {
                TextShape::Plain
            }
        }
    }
}

fn is_braced(first: Option<u8>) -> bool
    ensures { result ≡ is_braced first }
{
    match first {
        None => false,
        Some(byte) => is_brace(byte),
    }
}

// Whether it begins as an object or a list of JSON does, behind a byte order mark.
fn is_marked(bytes: &[u8]) -> bool
    ensures { result ≡ is_marked bytes.now }
{
    match bytes.strip_prefix(b"\xef\xbb\xbf") {
        Some(rest) => is_braced(first_byte(rest)),
        None => false,
    }
}

/// What it looks like, by that byte.
pub(crate) fn shape_of(bytes: &[u8]) -> TextShape
    ensures { result ≡ shape_of bytes.now }
{
    if is_marked(bytes) {
        TextShape::Marked
    } else {
        shape_by(first_byte(bytes))
    }
}

/// Whether bytes may be YAML: they are no JSON, and look neither empty nor like JSON.
pub(crate) fn may_be_yaml(alloc: Global, bytes: &[u8]) -> Result<bool, Failure>
    ensures { IfOk result (λ b. OnTrue b (IsNoValue bytes.now × (shape_of bytes.now ≡ Plain))) }
{
    match shape_of(bytes) {
        TextShape::Plain => Ok(!is_value(alloc, bytes)?),
        TextShape::Empty | TextShape::Braced | TextShape::Marked => Ok(false),
    }
}

/// A line and a column of a text, from 1.
#[derive(Clone, Copy)]
struct TextPlace {
    line: usize,
    column: usize,
}

// The place that `serde_json` gives.
fn place_in(alloc: Global, bytes: &[u8]) -> Result<TextPlace, Failure> {
    match Value::from_slice(alloc, bytes) {
        Ok(_) => Ok(TextPlace { line: 0, column: 0 }),
        Err(error) if error.is_memory() => Err(Failure::Memory),
        Err(error) => Ok(TextPlace {
            line: error.line(),
            column: error.column(),
        }),
    }
}

// The place behind a text, from 1.
fn place_behind(text: &[u8]) -> TextPlace {
    let mut place = TextPlace { line: 1, column: 1 };
    for byte in text {
        place = if *byte == b'\n' {
            TextPlace {
                line: place.line.saturating_add(1),
                column: 1,
            }
        } else {
            TextPlace {
                line: place.line,
                column: place.column.saturating_add(1),
            }
        };
    }
    place
}

// A place in a text that begins at another place.
fn place_from(start: TextPlace, place: TextPlace) -> TextPlace {
    let column = if place.line <= 1 {
        start.column.saturating_add(place.column).saturating_sub(1)
    } else {
        place.column
    };
    TextPlace {
        line: start.line.saturating_add(place.line).saturating_sub(1),
        column,
    }
}

// The place at which the first of the values isn't one.
fn place_of(alloc: Global, bytes: &[u8]) -> Result<TextPlace, Failure> {
    let Some((before, text)) = broken_text(alloc, bytes)? else {
        return place_in(alloc, bytes);
    };
    if before > bytes.len() {
        return place_in(alloc, bytes);
    }
    let (front, _rest) = bytes.split_at(before);
    Ok(place_from(place_behind(front), place_in(alloc, text)?))
}

// What is said of JSON behind a byte order mark.
const MARKED_WORDS: &str = "FILE: a byte order mark is before the JSON, which has none\n";

// What is said of several values, the first of which can be read.
const SEVERAL_WORDS: &str =
    "FILE: several values, one behind another: each has to be JSON, and one an object with a kind\n";

// Whether the bytes are a value.
fn is_value(alloc: Global, bytes: &[u8]) -> Result<bool, Failure>
    ensures yes { IfOk result (λ b. b ≡ true → (d : Data) × Reads bytes.now d) }
    ensures no { IfOk result (λ b. b ≡ false → IsNoValue bytes.now) }
{
    match value_of(alloc, bytes) {
        Ok(_) => Ok(true),
        Err(SceneFault::Memory) => Err(Failure::Memory),
        Err(_) => Ok(false),
    }
}

// What is said where a value is at the front, and more behind it.
fn more_words(alloc: Global, bytes: &[u8]) -> Result<&'static str, Failure>
    ensures { IfOk result (λ s. IsMore bytes.now s.now) }
{
    let Some((_text, rest)) = first_text(bytes) else {
        return Ok("");
    };
    let count = bytes.len().saturating_sub(rest.len());
    if count >= bytes.len() {
        return Ok("");
    }
    let (first, _rest) = bytes.split_at(count);
    if is_value(alloc, first)? {
        Ok(SEVERAL_WORDS)
    } else {
        Ok("")
    }
}

// The line with a place, and what is behind it.
fn placed(alloc: Global, place: TextPlace, more: &str) -> Result<String, AllocError>
    ensures { IfOk result (λ s. string_bytes s ≡ json_line place.line place.column ++ more.now) }
{
    let TextPlace { line, column } = place;
    let mut text = format!(in alloc; "FILE: no JSON at line {line}, column {column}\n")?;
    text.push_str(more)?;
    Ok(text)
}

fn braced_words(alloc: Global, bytes: &[u8]) -> Result<String, Failure>
    ensures { IfOk result (λ s. IsPlaced (IsMore bytes.now) (string_bytes s)) }
{
    let place = place_of(alloc, bytes)?;
    let more = more_words(alloc, bytes)?;
    Ok(placed(alloc, place, more)?)
}

fn marked_words(alloc: Global, bytes: &[u8]) -> Result<String, Failure>
    ensures { IfOk result (λ s. IsPlaced (λ more. more ≡ marked_words) (string_bytes s)) }
{
    let place = place_in(alloc, bytes)?;
    Ok(placed(alloc, place, MARKED_WORDS)?)
}

fn plain_words(alloc: Global, bytes: &[u8]) -> Result<String, Failure>
    ensures { IfOk result (λ s. IsPlaced (IsYamlWords bytes.now) (string_bytes s)) }
{
    let place = place_of(alloc, bytes)?;
    let more = yaml_words(alloc, bytes)?;
    Ok(placed(alloc, place, more.as_str())?)
}

/// What is said of bytes that are no JSON, by what they look like: that they are empty; or the
/// place at which `serde_json` finds that they are none, or one of several values is none, with a
/// line where the first of several can be read or a byte order mark is in front, or on why they are
/// no YAML.
pub fn json_words(alloc: Global, bytes: &[u8]) -> Result<String, Failure>
    ensures { IfOk result (λ s. IsJsonWords bytes.now (string_bytes s)) }
{
    match shape_of(bytes) {
        TextShape::Empty => Ok(String::from_str(alloc, "FILE: empty; JSON or YAML is wanted\n")?),
        TextShape::Braced => braced_words(alloc, bytes),
        TextShape::Marked => marked_words(alloc, bytes),
        TextShape::Plain => plain_words(alloc, bytes),
    }
}
