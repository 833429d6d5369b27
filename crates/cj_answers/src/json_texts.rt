// Texts with several JSON values, one behind another: where each of them stands.
ghost use Rattle.std.specs.Prelude.{◌≡◌, ◌≤◌, ◌++◌, [], None, IfOk, IfSome, length, map};
ghost use Rattle.serde_json.specs.View.{view};
ghost use Rattle.cj_answers.specs.Objects.{AreOf, IsBehind};

use crate::json::is_blank;
use cj_io::Failure;
use cj_scenario::{SceneFault, value_of};
use serde_json::Value;
use std::alloc::Global;

// How far a text of JSON was gone through: how many braces and brackets are open, and whether a
// string is, behind a `\` perhaps.
#[derive(Clone, Copy)]
struct Scan {
    open: usize,
    in_string: bool,
    escaped: bool,
}

impl Scan {
    const START: Scan = Scan {
        open: 0,
        in_string: false,
        escaped: false,
    };

    fn in_string_after(self, byte: u8) -> Scan {
        Scan {
            open: self.open,
            in_string: self.escaped || byte != b'"',
            escaped: !self.escaped && byte == b'\\',
        }
    }

    fn with_open(self, open: usize) -> Scan {
        Scan { open, ..self }
    }

    // One byte further.
    fn after(self, byte: u8) -> Scan {
        if self.in_string {
            return self.in_string_after(byte);
        }
        match byte {
            b'"' => Scan {
                in_string: true,
                ..self
            },
            b'{' | b'[' => self.with_open(self.open.saturating_add(1)),
            b'}' | b']' => self.with_open(self.open.saturating_sub(1)),
            _ => self,
        }
    }

    fn is_over(self) -> bool {
        self.open == 0 && !self.in_string
    }
}

// How many bytes an object, an array or a string at the front has; all where it doesn't end.
fn closed_length(bytes: &[u8]) -> usize
    ensures { result ≤ length bytes.now }
{
    let mut scan = Scan::START;
    for index in 0..bytes.len() {
        scan = scan.after(bytes[index]);
        if scan.is_over() {
            return index + 1;
        }
    }
    bytes.len()
}

fn ends_word(byte: u8) -> bool {
    is_blank(byte) || byte == b'{' || byte == b'[' || byte == b'"'
}

// How many bytes a number or a name at the front has.
fn word_length(bytes: &[u8]) -> usize
    ensures { result ≤ length bytes.now }
{
    bytes
        .iter()
        .position(|byte| ends_word(*byte))
        .unwrap_or(bytes.len())
}

fn value_length(bytes: &[u8]) -> usize
    ensures { result ≤ length bytes.now }
{
    match bytes.first() {
        Some(b'{' | b'[' | b'"') => closed_length(bytes),
        _ => word_length(bytes),
    }
}

/// What is behind the blanks at the front.
#[tactic(auto, using(crate::proofs::ObjectLists::behind_none, crate::proofs::ObjectLists::behind_blank))]
pub(crate) fn without_blanks(bytes: &[u8]) -> &[u8]
    ensures { IsBehind result.now bytes.now }
{
    let mut rest = bytes;
    for _ in 0..bytes.len() {
        match rest.split_first() {
            Some((byte, more)) if is_blank(*byte) => rest = more,
            _ => break,
        }
    }
    rest
}

// What is behind the blanks at the front, and behind the mark of YAML that may be between two
// documents.
#[tactic(auto, using(crate::proofs::ObjectLists::behind_mark, crate::proofs::ObjectLists::behind_both))]
fn without_mark(bytes: &[u8]) -> &[u8]
    ensures { IsBehind result.now bytes.now }
{
    let bytes = without_blanks(bytes);
    match bytes.strip_prefix(b"---") {
        Some(rest) => without_blanks(rest),
        None => bytes,
    }
}

/// The text of the value at the front of a text, and what is behind it; nothing for blanks alone.
pub(crate) fn first_text(bytes: &[u8]) -> Option<(&[u8], &[u8])>
    ensures found { IfSome result (λ t. IsBehind (t.0.now ++ t.1.now) bytes.now) }
    ensures none { result ≡ None → IsBehind [] bytes.now }
{
    let bytes = without_mark(bytes);
    if bytes.is_empty() {
        return None;
    }
    Some(bytes.split_at(value_length(bytes)))
}

// The members by which a text may be an event of a watch: it begins with one of them.
fn may_be_event(text: &[u8]) -> bool {
    let Some(members) = text.strip_prefix(b"{") else {
        return false;
    };
    let members = without_blanks(members);
    members.strip_prefix(b"\"type\"").is_some() || members.strip_prefix(b"\"object\"").is_some()
}

/// Whether a text is one object that is no event of a watch, or no JSON at all, as far as its first
/// member and its braces tell.
pub(crate) fn is_one_object(bytes: &[u8]) -> bool {
    match first_text(bytes) {
        Some((text, rest)) => {
            let is_object = text.first() == Some(&b'{');
            is_object && without_blanks(rest).is_empty() && !may_be_event(text)
        }
        None => true,
    }
}

/// The values of a text, one behind another; none where one of them is no JSON.
#[tactic(auto, using(crate::proofs::ObjectLists::begin_of, crate::proofs::ObjectLists::one_of_more, crate::proofs::ObjectLists::none_of_more))]
pub(crate) fn values_in(alloc: Global, bytes: &[u8]) -> Result<Option<Vec<Value>>, Failure>
    ensures { IfOk result (λ o. IfSome o (λ v. AreOf bytes.now (map view v.items))) }
{
    let mut values = Vec::new(alloc);
    let mut rest = bytes;
    for _ in 0..=bytes.len() {
        let Some((text, more)) = first_text(rest) else {
            return Ok(Some(values));
        };
        match value_of(alloc, text) {
            Ok(value) => values.push(value)?,
            Err(SceneFault::Memory) => return Err(Failure::Memory),
            Err(_) => return Ok(None),
        }
        rest = more;
    }
    Ok(None)
}

/// How many bytes are before the first value that is no JSON, and its text.
pub(crate) fn broken_text(alloc: Global, bytes: &[u8]) -> Result<Option<(usize, &[u8])>, Failure> {
    let mut rest = bytes;
    for _ in 0..=bytes.len() {
        let Some((text, more)) = first_text(rest) else {
            break;
        };
        match value_of(alloc, text) {
            Ok(_) => {}
            Err(SceneFault::Memory) => return Err(Failure::Memory),
            Err(_) => {
                let left = text.len().saturating_add(more.len());
                return Ok(Some((bytes.len().saturating_sub(left), text)));
            }
        }
        rest = more;
    }
    Ok(None)
}
