// How a text is printed: plain where it can be, else in double quotes.
ghost use Rattle.std.specs.Bool.{OnTrue};
ghost use Rattle.std.specs.Prelude.{◌≡◌, ◌++◌, OnOk, string_bytes, None, false, true, flat_map, chars};
ghost use Rattle.serde_json.specs.Data.{string};
ghost use Rattle.serde_json.specs.Written.{compact_text};
ghost use Rattle.cj_yaml.specs.Escapes.{code_escape, coded_char, coded_text, hex_digit, is_coded};
ghost use Rattle.cj_yaml.specs.Words.{GrowsByPrinted, IsPlainText, begins_odd, has_odd, is_plain_byte, is_plain_line, is_plain_rest, may_be_behind, word_of};
ghost use Rattle.cj_yaml.specs.declared.resolve.Plain.TheVariants.{Text};

use crate::chars::byte;
use crate::resolve::{Plain, begins_number, resolve_word};
use serde_json::Value;
use std::alloc::{AllocError, Global};

// Whether a byte may stand anywhere in a plain text that is printed, but at its end.
fn is_plain_byte(b: u8) -> bool
    ensures { result ≡ is_plain_byte b }
{
    b.is_ascii_alphanumeric() || b"_-./+=@% ();^~<$:".contains(&b)
}

// Whether a byte may stand behind another one of such a text: no `:` is before a space.
fn may_be_behind(before: u8, b: u8) -> bool
    ensures { result ≡ may_be_behind before b }
{
    is_plain_byte(b) && !(before == b':' && b == b' ')
}

// Whether each byte may stand in a plain text, and no `:` is before a space or the end, and no
// space at the end.
#[tactic(auto, using(crate::proofs::PlainTexts::plain_stops, crate::proofs::PlainTexts::plain_goes_on, crate::proofs::PlainTexts::plain_ends))]
fn are_plain(bytes: &[u8]) -> bool
    ensures { result ≡ is_plain_rest 32 bytes.now }
{
    let mut before = b' ';
    for b in bytes {
        if !may_be_behind(before, *b) {
            return false;
        }
        before = *b;
    }
    before != b' ' && before != b':'
}

// Whether a text reads back as itself where it is printed without quotes. Some texts that would are
// quoted none the less.
fn is_plain(text: &str) -> bool
    ensures word { OnTrue result (IsPlainText text.now) }
    ensures line { OnTrue result (is_plain_line text.now ≡ true) }
{
    let first = byte(text.as_bytes(), 0);
    let begins = first.is_ascii_alphabetic() || first == b'/' || first == b'_';
    begins && are_plain(text.as_bytes()) && !begins_number(text) && is_word(text)
}

// Whether a plain text is a text, in YAML 1.1 too.
fn is_word(text: &str) -> bool
    ensures { OnTrue result (word_of text.now ≡ Text None) }
{
    matches!(resolve_word(text), Plain::Text(None))
}

// Whether a character that readers of YAML 1.1 refuse begins with these bytes.
fn begins_odd(a: u8, b: u8, c: u8) -> bool
    ensures { result ≡ begins_odd a b c }
{
    let mark = a == 0xef && ((b == 0xbb && c == 0xbf) || (b == 0xbf && c > 0xbd));
    let line = a == 0xe2 && b == 0x80 && (c == 0xa8 || c == 0xa9);
    a == 0x7f || (a == 0xc2 && b < 0xa0) || line || mark
}

// Whether such a character is in a text.
fn has_odd(bytes: &[u8]) -> bool
    ensures { result ≡ has_odd bytes.now }
{
    for at in 0..bytes.len() {
        if begins_odd(bytes[at], byte(bytes, at + 1), byte(bytes, at + 2)) {
            return true;
        }
    }
    false
}

// Appends a text on one line. A text with such a character has it by its code.
pub(crate) fn push_text(alloc: Global, out: &mut String, text: &str) -> Result<(), AllocError>
    ensures { OnOk result (GrowsByPrinted text.now (string_bytes out.old) (string_bytes out.new)) }
{
    if is_plain(text) {
        return push_plain(out, text);
    }
    if has_odd(text.as_bytes()) {
        return push_odd(out, text);
    }
    push_quoted(alloc, out, text)
}

// Appends a text without quotes.
fn push_plain(out: &mut String, text: &str) -> Result<(), AllocError>
    requires word { IsPlainText text.now }
    requires line { is_plain_line text.now ≡ true }
    ensures { OnOk result (GrowsByPrinted text.now (string_bytes out.old) (string_bytes out.new)) }
{
    out.push_str(text)?;
    Ok(())
}

// Appends a text in double quotes that has such a character.
fn push_odd(out: &mut String, text: &str) -> Result<(), AllocError>
    requires { has_odd text.now ≡ true }
    ensures { OnOk result (GrowsByPrinted text.now (string_bytes out.old) (string_bytes out.new)) }
{
    push_coded(out, text)?;
    Ok(())
}

// Appends a text in double quotes that has none.
fn push_quoted(alloc: Global, out: &mut String, text: &str) -> Result<(), AllocError>
    requires { has_odd text.now ≡ false }
    ensures { OnOk result (GrowsByPrinted text.now (string_bytes out.old) (string_bytes out.new)) }
{
    push_json(alloc, out, text)?;
    Ok(())
}

// Appends a text as JSON has it.
fn push_json(alloc: Global, out: &mut String, text: &str) -> Result<(), AllocError>
    ensures { OnOk result
        (string_bytes out.new ≡ string_bytes out.old ++ compact_text (string text.now)) }
{
    let value = Value::try_from_str(alloc, text)?;
    let printed = value.to_string(alloc)?;
    out.push_str(printed.as_str())
}

// Appends a text in double quotes, with a code for each character that isn't printed.
fn push_coded(out: &mut String, text: &str) -> Result<(), AllocError>
    ensures { OnOk result (string_bytes out.new ≡ string_bytes out.old ++ coded_text text.now) }
{
    out.push_str("\"")?;
    push_characters(out, text)?;
    out.push_str("\"")?;
    Ok(())
}

// Appends the characters of a text as they stand in double quotes.
fn push_characters(out: &mut String, text: &str) -> Result<(), AllocError>
    ensures { OnOk result
        (string_bytes out.new ≡ string_bytes out.old ++ flat_map coded_char (chars text.now)) }
{
    for character in text.chars() {
        push_character(out, character)?;
    }
    Ok(())
}

// Whether a character is printed by its code.
fn is_coded(character: char) -> bool
    ensures { result ≡ is_coded character }
{
    let code = u32::from(character);
    let control = code < 32 || (127 <= code && code <= 159);
    let line = code == 8232 || code == 8233;
    control || line || code == 65279 || code == 65534 || code == 65535
}

// Appends a character as it stands in double quotes.
fn push_character(out: &mut String, character: char) -> Result<(), AllocError>
    ensures { OnOk result (string_bytes out.new ≡ string_bytes out.old ++ coded_char character) }
{
    if character == '"' {
        return out.push_str("\\\"");
    }
    if character == '\\' {
        return out.push_str("\\\\");
    }
    if is_coded(character) {
        return push_code(out, character);
    }
    out.push(character)
}

// Appends the escape of a character by its code, which has at most 16 bits.
fn push_code(out: &mut String, character: char) -> Result<(), AllocError>
    ensures { OnOk result (string_bytes out.new ≡ string_bytes out.old ++ code_escape character) }
{
    let code = u32::from(character);
    out.push_str("\\u")?;
    push_digit(out, code / 4096)?;
    push_digit(out, code / 256)?;
    push_digit(out, code / 16)?;
    push_digit(out, code)?;
    Ok(())
}

// Appends the hexadecimal digit of a number's last four bits.
fn push_digit(out: &mut String, number: u32) -> Result<(), AllocError>
    ensures { OnOk result (string_bytes out.new ≡ string_bytes out.old ++ hex_digit number) }
{
    let digit = char::from_digit(number % 16, 16).unwrap_or('0');
    out.push(digit)
}
