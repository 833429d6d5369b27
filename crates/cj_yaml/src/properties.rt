// Anchors, tags and aliases (YAML 1.2.2, 6.9 and 7.1).
use crate::chars::{byte, is_flow_mark, is_gap, part};
use crate::cursor::Cursor;
use crate::fault::{FaultKind, Stop};
use crate::scalar::Tag;
use std::str;

// What stands before a value.
#[derive(Clone, Copy)]
pub(crate) struct Properties<'a> {
    pub anchor: Option<&'a str>,
    pub tag: Option<Tag>,
    pub at: usize,
}

impl Properties<'_> {
    pub(crate) fn is_none(&self) -> bool {
        self.anchor.is_none() && self.tag.is_none()
    }
}

fn name_end(text: &[u8], from: usize) -> usize {
    for at in from..text.len() {
        if !(text[at].is_ascii_alphanumeric() || matches!(text[at], b'-' | b'_')) {
            return at;
        }
    }
    text.len()
}

// Reads the name behind the `&` or `*` at the cursor.
pub(crate) fn read_name<'a>(cursor: &mut Cursor<'a>) -> Result<&'a str, Stop> {
    let from = cursor.at.saturating_add(1);
    let end = name_end(cursor.text, from);
    let next = byte(cursor.text, end);
    if end <= from || !(is_gap(next) || is_flow_mark(next)) {
        return Err(cursor.fault(FaultKind::AnchorName));
    }
    match str::from_utf8(part(cursor.text, from, end)) {
        Ok(name) => {
            cursor.at = end;
            Ok(name)
        }
        Err(_) => Err(cursor.fault(FaultKind::AnchorName)),
    }
}

fn tag_end(text: &[u8], from: usize) -> usize {
    for at in from..text.len() {
        if is_gap(text[at]) || is_flow_mark(text[at]) {
            return at;
        }
    }
    text.len()
}

// Reads the tag at the cursor.
fn read_tag(cursor: &mut Cursor<'_>) -> Result<Tag, Stop> {
    let end = tag_end(cursor.text, cursor.at);
    let tag = match part(cursor.text, cursor.at, end) {
        b"!!str" => Tag::Str,
        b"!!int" => Tag::Int,
        b"!!bool" => Tag::Bool,
        b"!!null" => Tag::Null,
        b"!!float" => Tag::Float,
        _ => return Err(cursor.fault(FaultKind::Tag)),
    };
    cursor.at = end;
    Ok(tag)
}

// Reads the anchor and the tag at the cursor, each at most once, in any order.
pub(crate) fn read_properties<'a>(cursor: &mut Cursor<'a>) -> Result<Properties<'a>, Stop> {
    let mut found = Properties {
        anchor: None,
        tag: None,
        at: cursor.at,
    };
    for _ in 0..2 {
        match cursor.peek() {
            b'&' if found.anchor.is_none() => found.anchor = Some(read_name(cursor)?),
            b'!' if found.tag.is_none() => found.tag = Some(read_tag(cursor)?),
            _ => break,
        }
        cursor.pass_blanks();
    }
    Ok(found)
}
