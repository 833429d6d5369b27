// Texts in double quotes (YAML 1.2.2, 7.3.1).
use crate::chars::{blanks_end, break_len, byte, is_blank, is_marker, part};
use crate::fault::{FaultKind, Stop};
use std::alloc::Global;
use std::str;

// The offset of the quote that ends the text which begins at `from`, or the end.
pub(crate) fn double_end(text: &[u8], from: usize) -> usize {
    let mut escaped = false;
    for at in from..text.len() {
        if escaped {
            escaped = false;
        } else if text[at] == b'"' {
            return at;
        } else {
            escaped = text[at] == b'\\';
        }
    }
    text.len()
}

// The offset of the first line break, or backslash, or `end`.
fn run_end(text: &[u8], from: usize, end: usize) -> usize {
    for at in from..end {
        if matches!(byte(text, at), b'\\' | b'\n' | b'\r') {
            return at;
        }
    }
    end
}

// The text between the quotes, from one offset to the other.
pub(crate) fn unescape(
    alloc: Global,
    text: &[u8],
    from: usize,
    end: usize,
) -> Result<Vec<u8>, Stop> {
    let mut out = Vec::new(alloc);
    let mut at = from;
    let mut kept = 0usize;
    for _ in from..end {
        if at >= end {
            break;
        }
        let run = run_end(text, at, end);
        if run > at {
            out.extend_from_slice(part(text, at, run))?;
            at = run;
        } else if byte(text, at) == b'\\' {
            at = escape(text, at, &mut out)?;
            kept = out.len();
        } else {
            trim(&mut out, kept);
            at = fold(text, at, &mut out)?;
        }
    }
    Ok(out)
}

// Takes the blanks off the end, but none of the first `kept` bytes.
pub(crate) fn trim(out: &mut Vec<u8>, kept: usize) {
    let bytes = out.as_slice();
    let mut len = bytes.len();
    for _ in kept..bytes.len() {
        if !is_blank(byte(bytes, len.saturating_sub(1))) {
            break;
        }
        len = len.saturating_sub(1);
    }
    out.truncate(len);
}

// Appends what the line breaks at an offset, with the blanks behind them, stand for: a space for
// one, and a line feed for each further one (6.5). The offset of what follows.
pub(crate) fn fold(text: &[u8], from: usize, out: &mut Vec<u8>) -> Result<usize, Stop> {
    let mut at = pass_break(text, from)?;
    if break_len(text, at) == 0 {
        out.push(b' ')?;
        return Ok(at);
    }
    for _ in from..text.len() {
        if break_len(text, at) == 0 {
            break;
        }
        out.push(b'\n')?;
        at = pass_break(text, at)?;
    }
    Ok(at)
}

// The offset behind a line break and the blanks that follow it.
fn pass_break(text: &[u8], at: usize) -> Result<usize, Stop> {
    let line = at.saturating_add(break_len(text, at));
    if is_marker(text, line) {
        return Err(Stop::new(FaultKind::Unclosed, line));
    }
    Ok(blanks_end(text, line))
}

// Appends what the escape at an offset stands for. The offset of what follows.
fn escape(text: &[u8], at: usize, out: &mut Vec<u8>) -> Result<usize, Stop> {
    let name = at.saturating_add(1);
    let digits = match byte(text, name) {
        b'x' => 2usize,
        b'u' => 4,
        b'U' => 8,
        b'\n' | b'\r' => return escaped_break(text, name, out),
        b => {
            let Some(code) = named_escape(b) else {
                return Err(Stop::new(FaultKind::Escape, at));
            };
            push_code(out, code, at)?;
            return Ok(name.saturating_add(1));
        }
    };
    let from = name.saturating_add(1);
    let end = from.saturating_add(digits);
    let Some(code) = hex(part(text, from, end)) else {
        return Err(Stop::new(FaultKind::Escape, at));
    };
    push_code(out, code, at)?;
    Ok(end)
}

// A line break that an escape joins to the next line; empty lines behind it are kept.
fn escaped_break(text: &[u8], from: usize, out: &mut Vec<u8>) -> Result<usize, Stop> {
    let mut at = pass_break(text, from)?;
    for _ in from..text.len() {
        if break_len(text, at) == 0 {
            break;
        }
        out.push(b'\n')?;
        at = pass_break(text, at)?;
    }
    Ok(at)
}

// The character that an escape of one letter names (5.7).
fn named_escape(b: u8) -> Option<u32> {
    match b {
        b'0' => Some(0),
        b'a' => Some(7),
        b'b' => Some(8),
        b't' | b'\t' => Some(9),
        b'n' => Some(10),
        b'v' => Some(11),
        b'f' => Some(12),
        b'r' => Some(13),
        b'e' => Some(27),
        b' ' | b'"' | b'/' | b'\\' => Some(u32::from(b)),
        b'N' => Some(0x85),
        b'_' => Some(0xa0),
        b'L' => Some(0x2028),
        b'P' => Some(0x2029),
        _ => None,
    }
}

// The number that hexadecimal digits write.
fn hex(digits: &[u8]) -> Option<u32> {
    if digits.is_empty() || !digits.iter().all(|b| b.is_ascii_hexdigit()) {
        return None;
    }
    let text = str::from_utf8(digits).ok()?;
    u32::from_str_radix(text, 16).ok()
}

// Appends a character in UTF-8.
fn push_code(out: &mut Vec<u8>, code: u32, at: usize) -> Result<(), Stop> {
    let Some(character) = char::from_u32(code) else {
        return Err(Stop::new(FaultKind::Escape, at));
    };
    let mut buffer = [0u8; 4];
    let bytes = character.encode_utf8(&mut buffer);
    out.extend_from_slice(bytes.as_bytes())?;
    Ok(())
}
