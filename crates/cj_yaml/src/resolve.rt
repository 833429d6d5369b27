// What a plain text is: the core schema (YAML 1.2.2, 10.3).
ghost use Rattle.std.specs.Prelude.{◌≡◌, ◌≤◌, false};
ghost use Rattle.cj_yaml.specs.Words.{begins_number, is_false, is_null, is_old_false, is_old_true, is_true, word_of};

use crate::chars::byte;
use crate::mark::WarningKind;
use serde_json::Number;
use std::str;

// What a plain text stands for.
#[derive(Clone, Copy, Drop)]
pub(crate) enum Plain {
    Null,
    Bool(bool),
    Number(Number),
    // (the octal that YAML 1.1 reads)
    Octal(Number),
    // (a text, with what YAML 1.1 reads otherwise)
    Text(Option<WarningKind>),
    // (a number that JSON can't write)
    NoNumber,
}

pub(crate) fn resolve_plain(text: &str) -> Plain
    ensures word { begins_number text.now ≡ false → result ≡ word_of text.now }
{
    if begins_number(text) {
        resolve_number(text)
    } else {
        resolve_word(text)
    }
}

pub(crate) fn begins_number(text: &str) -> bool
    ensures { result ≡ begins_number text.now }
{
    let first = byte(text.as_bytes(), 0);
    (b'0' <= first && first <= b'9') || first == b'+' || first == b'-' || first == b'.'
}

// What a text that begins like no number is.
pub(crate) fn resolve_word(text: &str) -> Plain
    ensures { result ≡ word_of text.now }
{
    if is_null(text) {
        Plain::Null
    } else if is_true(text) {
        Plain::Bool(true)
    } else if is_false(text) {
        Plain::Bool(false)
    } else if is_old_true(text) || is_old_false(text) {
        Plain::Text(Some(WarningKind::Boolean))
    } else {
        Plain::Text(None)
    }
}

fn is_null(text: &str) -> bool
    ensures { result ≡ is_null text.now }
{
    text == "" || text == "~" || text == "null" || text == "Null" || text == "NULL"
}

fn is_true(text: &str) -> bool
    ensures { result ≡ is_true text.now }
{
    text == "true" || text == "True" || text == "TRUE"
}

fn is_false(text: &str) -> bool
    ensures { result ≡ is_false text.now }
{
    text == "false" || text == "False" || text == "FALSE"
}

fn is_old_true(text: &str) -> bool
    ensures { result ≡ is_old_true text.now }
{
    let short = text == "y" || text == "Y" || text == "on" || text == "On" || text == "ON";
    short || text == "yes" || text == "Yes" || text == "YES"
}

fn is_old_false(text: &str) -> bool
    ensures { result ≡ is_old_false text.now }
{
    let short = text == "n" || text == "N" || text == "no" || text == "No" || text == "NO";
    short || text == "off" || text == "Off" || text == "OFF"
}

// The text behind a sign.
fn unsigned(bytes: &[u8]) -> &[u8] {
    match bytes.split_first() {
        Some((b'+' | b'-', rest)) => rest,
        _ => bytes,
    }
}

fn are_digits(bytes: &[u8]) -> bool {
    !bytes.is_empty() && bytes.iter().all(|b| b.is_ascii_digit())
}

fn are_octal(bytes: &[u8]) -> bool {
    !bytes.is_empty() && bytes.iter().all(|b| matches!(*b, b'0'..=b'7'))
}

fn are_hex(bytes: &[u8]) -> bool {
    !bytes.is_empty() && bytes.iter().all(|b| b.is_ascii_hexdigit())
}

// What a text that begins like a number is.
fn resolve_number(text: &str) -> Plain {
    let bytes = text.as_bytes();
    let digits = unsigned(bytes);
    if are_digits(digits) {
        return resolve_digits(text, digits);
    }
    match digits {
        [b'0', b'o', octal @ ..] if are_octal(octal) => resolve_radix(bytes, octal, 8),
        [b'0', b'x', hex @ ..] if are_hex(hex) => resolve_radix(bytes, hex, 16),
        b".inf" | b".Inf" | b".INF" => Plain::NoNumber,
        b".nan" | b".NaN" | b".NAN" if digits.len() == bytes.len() => Plain::NoNumber,
        _ if is_float(digits) => float(text),
        _ if is_old_number(digits) => Plain::Text(Some(WarningKind::Number)),
        _ => Plain::Text(None),
    }
}

// What `0o17` or `0x1f` is; with a sign it is a number in YAML 1.1 alone.
fn resolve_radix(bytes: &[u8], digits: &[u8], radix: u32) -> Plain
    requires low { 2 ≤ radix }
    requires high { radix ≤ 36 }
{
    if bytes.len() > digits.len().saturating_add(2) {
        return Plain::Text(Some(WarningKind::Number));
    }
    match in_radix(digits, radix) {
        Some(n) => Plain::Number(Number::from(n)),
        None => Plain::NoNumber,
    }
}

fn in_radix(digits: &[u8], radix: u32) -> Option<u64>
    requires low { 2 ≤ radix }
    requires high { radix ≤ 36 }
{
    let text = str::from_utf8(digits).ok()?;
    u64::from_str_radix(text, radix).ok()
}

// What digits with or without a sign are. Behind a 0 they are octal in YAML 1.1, and so to the API
// server.
fn resolve_digits(text: &str, digits: &[u8]) -> Plain {
    if digits.len() > 1 && digits[0] == b'0' && are_octal(digits) {
        return resolve_octal(text, digits);
    }
    integer(text)
}

fn resolve_octal(text: &str, digits: &[u8]) -> Plain {
    let Some(n) = in_radix(digits, 8) else {
        return Plain::NoNumber;
    };
    if n < 8 && digits.len() == text.len() {
        return Plain::Number(Number::from(n));
    }
    if text.as_bytes().first() != Some(&b'-') {
        return Plain::Octal(Number::from(n));
    }
    if n > i64::MAX as u64 {
        return Plain::NoNumber;
    }
    Plain::Octal(Number::from(-(n as i64)))
}

fn integer(text: &str) -> Plain {
    if let Ok(n) = text.parse::<u64>() {
        return Plain::Number(Number::from(n));
    }
    match text.parse::<i64>() {
        Ok(n) => Plain::Number(Number::from(n)),
        Err(_) => float(text),
    }
}

fn float(text: &str) -> Plain {
    match text.parse::<f64>() {
        Ok(x) => match Number::from_f64(x) {
            Some(number) => Plain::Number(number),
            None => Plain::NoNumber,
        },
        Err(_) => Plain::Text(None),
    }
}

// `1.5`, `.5`, `5.` and `1e3`, behind a sign.
fn is_float(bytes: &[u8]) -> bool {
    match bytes.iter().position(|b| *b == b'e' || *b == b'E') {
        Some(at) => { is_fraction(&bytes[..at]) && are_digits(unsigned(&bytes[at..][1..])) }
        None => is_fraction(bytes),
    }
}

fn is_fraction(bytes: &[u8]) -> bool {
    match bytes.iter().position(|b| *b == b'.') {
        Some(at) => {
            let whole = &bytes[..at];
            let rest = &bytes[at..][1..];
            (are_digits(whole) && (rest.is_empty() || are_digits(rest)))
                || (whole.is_empty() && are_digits(rest))
        }
        None => are_digits(bytes),
    }
}

// Whether bytes are digits to that base, with underscores among them.
fn are_gapped(bytes: &[u8], radix: u32) -> bool
    requires low { 2 ≤ radix }
    requires high { radix ≤ 36 }
{
    !bytes.is_empty()
        && bytes
            .iter()
            .all(|b| *b == b'_' || char::from(*b).is_digit(radix))
}

// `1_000`, `0b11`, `0X1F` and, behind a sign, `_1`: numbers of YAML 1.1 alone.
fn is_old_number(bytes: &[u8]) -> bool {
    match bytes {
        [b'0', b'b' | b'B', bits @ ..] => are_gapped(bits, 2),
        [b'0', b'o' | b'O', octal @ ..] => are_gapped(octal, 8),
        [b'0', b'x' | b'X', hex @ ..] => are_gapped(hex, 16),
        [b'0'..=b'9' | b'_', ..] => is_gapped_number(bytes),
        _ => false,
    }
}

// Whether bytes are decimal digits, with an underscore and perhaps a point among them.
fn is_gapped_number(bytes: &[u8]) -> bool {
    bytes.contains(&b'_')
        && bytes.iter().any(|b| b.is_ascii_digit())
        && bytes
            .iter()
            .all(|b| b.is_ascii_digit() || *b == b'_' || *b == b'.')
}
