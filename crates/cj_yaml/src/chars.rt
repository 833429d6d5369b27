// Bytes by their kind, and where runs of them end (YAML 1.2.2, chapters 5 and 6).
ghost use Rattle.std.specs.Prelude.{◌≡◌, ◌+◌, ◌-◌, ◌<◌, ◌≤◌, ◌++◌, ℕ, List, drop, false, length, slice_index};
ghost use Rattle.cj_yaml.specs.Cursors.{break_len, ends_marker, is_mark, is_marker, is_space, leading};
ghost use Rattle.cj_yaml.specs.OnLines.{is_blank, is_break, is_gap, is_quote};
ghost use Rattle.cj_yaml.specs.Places.{ends_line, mark_len};

// The byte at an offset, 0 behind the end. A text that is read has no 0.
pub(crate) fn byte(text: &[u8], at: usize) -> u8
    ensures { result ≡ slice_index text.now at }
{
    match text.get(at) {
        Some(found) => *found,
        None => 0,
    }
}

// A space or a tab (s-white).
pub(crate) fn is_blank(b: u8) -> bool
    ensures { result ≡ is_blank b }
{
    b == b' ' || b == b'\t'
}

// A line break or the end (b-break).
pub(crate) fn is_break(b: u8) -> bool
    ensures { result ≡ is_break b }
{
    b == b'\n' || b == b'\r' || b == 0
}

// A blank, a line break or the end.
pub(crate) fn is_gap(b: u8) -> bool
    ensures { result ≡ is_gap b }
{
    is_blank(b) || is_break(b)
}

// A quote.
pub(crate) fn is_quote(b: u8) -> bool
    ensures { result ≡ is_quote b }
{
    b == b'"' || b == b'\''
}

// A character that ends a plain text between brackets (c-flow-indicator).
pub(crate) fn is_flow_mark(b: u8) -> bool {
    matches!(b, b',' | b'[' | b']' | b'{' | b'}')
}

// The first offset from there on whose byte is no blank.
pub(crate) fn blanks_end(text: &[u8], from: usize) -> usize
    ensures none { from < length text.now → is_blank (slice_index text.now from) ≡ false
        → result ≡ from }
    ensures blanks { from ≤ length text.now
        → result ≡ from + leading is_blank (drop from text.now) }
{
    for at in from..text.len() {
        if !is_blank(text[at]) {
            return at;
        }
    }
    text.len()
}

// The first offset from there on whose byte is no space.
pub(crate) fn spaces_end(text: &[u8], from: usize) -> usize
    ensures { from ≤ length text.now → result ≡ from + leading is_space (drop from text.now) }
{
    for at in from..text.len() {
        if text[at] != b' ' {
            return at;
        }
    }
    text.len()
}

// The first offset from there on where a line ends.
pub(crate) fn line_end(text: &[u8], from: usize) -> usize {
    for at in from..text.len() {
        if is_break(text[at]) {
            return at;
        }
    }
    text.len()
}

// How many bytes the line break at an offset has; none where there is none.
pub(crate) fn break_len(text: &[u8], at: usize) -> usize
    ensures { result ≡ break_len text.now at }
{
    match byte(text, at) {
        b'\n' => 1,
        b'\r' => if byte(text, at.saturating_add(1)) == b'\n' {
            2
        } else {
            1
        },
        _ => 0,
    }
}

// The offset of the last byte before `end` that is no blank, and 1; `start` where all are.
pub(crate) fn trimmed(text: &[u8], start: usize, end: usize) -> usize
    ensures none { start < end → is_blank (slice_index text.now (end - 1)) ≡ false
        → result ≡ end }
{
    for back in 0..end.saturating_sub(start) {
        let at = end.saturating_sub(back);
        if !is_blank(byte(text, at.saturating_sub(1))) {
            return at;
        }
    }
    start
}

// A byte of a document's marker.
fn is_mark(b: u8) -> bool
    ensures { result ≡ is_mark b }
{
    b == b'-' || b == b'.'
}

// Whether a byte stands there twice, and then a gap.
fn ends_marker(text: &[u8], at: usize, b: u8) -> bool
    ensures { result ≡ ends_marker text.now at b }
{
    let second = byte(text, at);
    let third = byte(text, at.saturating_add(1));
    second == b && third == b && is_gap(byte(text, at.saturating_add(2)))
}

// Whether a line that begins there is a document's `---` or `...` (c-forbidden).
pub(crate) fn is_marker(text: &[u8], at: usize) -> bool
    ensures { result ≡ is_marker text.now at }
{
    let first = byte(text, at);
    is_mark(first) && ends_marker(text, at.saturating_add(1), first)
}

// A part of the text; empty where the offsets are in no order or past its end.
pub(crate) fn part(text: &[u8], from: usize, to: usize) -> &[u8]
    ensures whole { (t rest : List ℕ) → drop from text.now ≡ t ++ rest → to ≡ from + length t
        → result.now ≡ t }
{
    if from <= to && to <= text.len() {
        &text[from..to]
    } else {
        &[]
    }
}

// Where a line begins that lies between the offsets, the last of several.
pub(crate) fn last_line(text: &[u8], from: usize, to: usize) -> Option<usize> {
    for back in 0..to.saturating_sub(from) {
        let at = to.saturating_sub(back);
        if is_break(byte(text, at.saturating_sub(1))) {
            return Some(at);
        }
    }
    None
}

// The offset behind the line break at an offset; that offset where there is none.
pub(crate) fn break_end(text: &[u8], at: usize) -> usize
    ensures { result ≡ at + break_len text.now at }
{
    at.saturating_add(break_len(text, at))
}

// How many bytes the byte order mark in front of a text has; none where there is none (5.2).
pub(crate) fn mark_len(text: &[u8]) -> usize
    ensures { result ≡ mark_len text.now }
{
    if byte(text, 0) == 0xef && byte(text, 1) == 0xbb && byte(text, 2) == 0xbf {
        3
    } else {
        0
    }
}

// Whether a line ends with the byte at an offset: a line feed, or a carriage return with none
// behind it.
pub(crate) fn ends_line(text: &[u8], at: usize) -> bool
    ensures { result ≡ ends_line text.now at }
{
    let found = byte(text, at);
    let next = byte(text, at.saturating_add(1));
    found == b'\n' || (found == b'\r' && next != b'\n')
}
