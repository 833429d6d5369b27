// The elements and fields of a schedule's text.
ghost use Rattle.std.specs.Prelude.{◌≡◌, ◌≤◌, ◌<◌, length, get_or};
ghost use Rattle.std.specs.List.{position_or_len};
ghost use Rattle.cj_explain.specs.Elements.{IsShown, element_of, field_count, is_blank, is_end};

fn is_blank(byte: u8) -> bool
    ensures { result ≡ is_blank byte }
{
    byte == b' ' || byte == b'\t'
}

fn is_end(byte: u8) -> bool
    ensures { result ≡ is_end byte }
{
    byte == b',' || is_blank(byte)
}

// The place of the first comma or blank, or the end of the bytes.
fn end_of(bytes: &[u8]) -> usize
    ensures first { result ≡ position_or_len is_end bytes.now }
    ensures within { result ≤ length bytes.now }
    ensures ascii { result < length bytes.now → get_or bytes.now result 0 < 128 }
{
    for i in 0..bytes.len() {
        if is_end(bytes[i]) {
            return i;
        }
    }
    bytes.len()
}

// The text before the first comma or blank.
fn element(text: &str) -> &str
    ensures { result.now ≡ element_of text.now }
{
    &text[..end_of(text.as_bytes())]
}

/// The element that begins at this byte; nothing where the byte is none at which a character
/// begins.
pub(crate) fn shown_at(text: &str, byte: usize) -> &str
    ensures { IsShown text.now byte result.now }
{
    match text.split_at_checked(byte) {
        Some((_, rest)) => element(rest),
        None => "",
    }
}

/// How many fields a text has, with blanks between them.
pub(crate) fn field_count(text: &str) -> usize
    ensures { result ≡ field_count text.now }
{
    let mut count = 0;
    let mut is_inside = false;
    for byte in text.as_bytes() {
        let is_blank = is_blank(*byte);
        if !is_blank && !is_inside {
            count += 1;
        }
        is_inside = !is_blank;
    }
    count
}
