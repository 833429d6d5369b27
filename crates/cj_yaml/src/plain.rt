// Plain texts (YAML 1.2.2, 7.3.3).
ghost use Rattle.std.specs.Prelude.{◌≡◌, ◌+◌, ℕ, List, false, length, true};
ghost use Rattle.cj_yaml.specs.Words.{begins_plain};
ghost use Rattle.cj_yaml.specs.OnLines.{StandsPlain, is_gap, stops_plain};

use crate::chars::{
    blanks_end, break_len, byte, is_blank, is_flow_mark, is_gap, is_marker, part, spaces_end,
    trimmed,
};
use crate::cursor::Cursor;
use crate::fault::{FaultKind, Stop};
use std::alloc::Global;

// Whether a plain text may begin with this byte, before the next one.
pub(crate) fn begins_plain(first: u8, next: u8, flow: bool) -> bool
    ensures printed { begins_plain first ≡ true → result ≡ true }
{
    match first {
        b'-' | b'?' | b':' => !is_gap(next) && !(flow && is_flow_mark(next)),
        b',' | b'[' | b']' | b'{' | b'}' | b'#' | b'&' | b'*' | b'!' | b'|' | b'>' => false,
        b'\'' | b'"' | b'%' | b'@' | b'`' => false,
        _ => !is_gap(first),
    }
}

// Whether the `:` before this byte ends a key.
pub(crate) fn ends_key(next: u8, flow: bool) -> bool
    ensures { flow ≡ false → result ≡ is_gap next }
{
    is_gap(next) || (flow && is_flow_mark(next))
}

// Whether a plain text ends at this byte, before the next one; whether a blank is before it.
fn stops_plain(b: u8, next: u8, blank: bool, flow: bool) -> bool
    ensures { flow ≡ false → result ≡ stops_plain b next blank }
{
    let is_end = b == b'\n' || b == b'\r' || (b == b':' && ends_key(next, flow));
    is_end || (b == b'#' && blank) || (flow && is_flow_mark(b))
}

// The offset on the line at which a plain text that begins there ends: at a `:` that ends a key, a
// comment, the line's end, or a bracket or comma between brackets.
pub(crate) fn plain_end(text: &[u8], from: usize, flow: bool) -> usize
    ensures printed { (t rest : List ℕ) → flow ≡ false → StandsPlain text.now from t rest
        → result ≡ from + length t }
{
    let mut blank = false;
    for at in from..text.len() {
        if stops_plain(text[at], byte(text, at + 1), blank, flow) {
            return at;
        }
        blank = is_blank(text[at]);
    }
    text.len()
}

// The plain text that begins at an offset, as far as it stands on its line, and where it ends.
pub(crate) fn plain_on_line(text: &[u8], at: usize, flow: bool) -> (&[u8], usize)
    ensures printed { (t rest : List ℕ) → flow ≡ false → StandsPlain text.now at t rest
        → (result.0.now ≡ t) × (result.1 ≡ at + length t) }
{
    let end = plain_end(text, at, flow);
    let shown = trimmed(text, at, end);
    (part(text, at, shown), end)
}

// Where a plain text goes on behind its line.
#[derive(Clone, Copy)]
struct Continued {
    // (the line's first byte, and its content)
    line: usize,
    at: usize,
    // (how many lines without content are between)
    empty: usize,
}

// Where the plain text whose line ends there goes on, on a line that is indented by at least
// `least` spaces.
fn next_line(text: &[u8], end: usize, least: usize) -> Option<Continued> {
    let mut at = end;
    let mut empty = 0usize;
    for _ in end..text.len() {
        let line = at.saturating_add(break_len(text, at));
        let spaces = spaces_end(text, line);
        at = blanks_end(text, line);
        if break_len(text, at) == 0 {
            let found = Continued { line, at, empty };
            return goes_on(text, &found, spaces, least).then_some(found);
        }
        empty = empty.saturating_add(1);
    }
    None
}

// Whether a line goes on with a plain text.
fn goes_on(text: &[u8], found: &Continued, spaces: usize, least: usize) -> bool {
    found.at < text.len()
        && spaces.saturating_sub(found.line) >= least
        && byte(text, found.at) != b'#'
        && !is_marker(text, found.line)
}

// Reads the plain text at the cursor, over several lines where those below are indented by at least
// `least` spaces. Between brackets each line goes on with it.
pub(crate) fn read_plain(
    alloc: Global,
    cursor: &mut Cursor<'_>,
    least: usize,
    flow: bool,
) -> Result<String, Stop> {
    let text = cursor.text;
    let start = cursor.at;
    let (first, end) = plain_on_line(text, start, flow);
    let mut bytes = Vec::new(alloc);
    bytes.extend_from_slice(first)?;
    cursor.at = end;
    for _ in end..text.len() {
        if break_len(text, cursor.at) == 0 {
            break;
        }
        let Some(found) = next_line(text, cursor.at, least) else {
            break;
        };
        append_line(cursor, &found, flow, &mut bytes)?;
    }
    match String::from_utf8(bytes) {
        Ok(found) => Ok(found),
        Err(_) => Err(Stop::new(FaultKind::NotUtf8, start)),
    }
}

// Appends a further line of a plain text.
fn append_line(
    cursor: &mut Cursor<'_>,
    found: &Continued,
    flow: bool,
    bytes: &mut Vec<u8>,
) -> Result<(), Stop> {
    let text = cursor.text;
    if flow && is_flow_mark(byte(text, found.at)) {
        cursor.begin_line(found.line);
        cursor.at = found.at;
        return Ok(());
    }
    let (content, end) = plain_on_line(text, found.at, flow);
    if byte(text, end) == b':' {
        return Err(Stop::new(FaultKind::MappingHere, found.at));
    }
    if found.empty == 0 {
        bytes.push(b' ')?;
    }
    for _ in 0..found.empty {
        bytes.push(b'\n')?;
    }
    bytes.extend_from_slice(content)?;
    cursor.begin_line(found.line);
    cursor.at = end;
    Ok(())
}
