// Moments by the clock.
ghost use Rattle.std.specs.Prelude.{◌≡◌, ◌≤◌, true};
ghost use Rattle.cj_answers.specs.Moments.{before, behind, by_clock, is_digit, shifted, span_end, span_from, unit_of};

use cj_types::Seconds;

/// Whether it is a decimal digit.
pub(crate) fn is_digit(byte: u8) -> bool
    ensures value { result ≡ is_digit byte }
    ensures most { result ≡ true → byte ≤ 57 }
{
    48 <= byte && byte <= 57
}

// The seconds of a unit.
fn unit_of(byte: u8) -> Option<u64>
    ensures { result ≡ unit_of byte }
{
    if byte == b's' {
        Some(1)
    } else if byte == b'm' {
        Some(60)
    } else if byte == b'h' {
        Some(3_600)
    } else if byte == b'd' {
        Some(86_400)
    } else if byte == b'w' {
        Some(604_800)
    } else {
        None
    }
}

/// So many of a unit in seconds, where nothing is behind it.
pub(crate) fn span_end(count: u64, unit: u8, rest: &[u8]) -> Option<u64>
    requires { count ≤ 10_000_000_009 }
    ensures { result ≡ span_end count unit rest.now }
{
    if !rest.is_empty() {
        return None;
    }
    match unit_of(unit) {
        Some(seconds) => count.checked_mul(seconds),
        None => None,
    }
}

// Digits and a unit, behind digits of this number.
fn span_from(count: u64, bytes: &[u8]) -> Option<u64>
    requires { count ≤ 10_000_000_009 }
    ensures { result ≡ span_from count bytes.now }
{
    match bytes.split_first() {
        None => None,
        Some((byte, rest)) => {
            if is_digit(*byte) {
                if count <= 1_000_000_000 {
                    span_from(count * 10 + u64::from(*byte - 48), rest)
                } else {
                    None
                }
            } else {
                span_end(count, *byte, rest)
            }
        }
    }
}

fn before(clock: Seconds, span: Option<u64>) -> Option<Seconds>
    ensures { result ≡ before clock span }
{
    match span {
        None => None,
        Some(span) => {
            if span <= clock.get() {
                Seconds::new(clock.get() - span)
            } else {
                None
            }
        }
    }
}

fn behind(clock: Seconds, span: Option<u64>) -> Option<Seconds>
    ensures { result ≡ behind clock span }
{
    match span {
        None => None,
        Some(span) => match clock.get().checked_add(span) {
            Some(time) => Seconds::new(time),
            None => None,
        },
    }
}

// So much before or after the clock.
fn shifted(clock: Seconds, bytes: &[u8]) -> Option<Seconds>
    ensures { result ≡ shifted clock bytes.now }
{
    match bytes.split_first() {
        None => None,
        Some((byte, rest)) => {
            if *byte == b'-' {
                before(clock, span_from(0, rest))
            } else if *byte == b'+' {
                behind(clock, span_from(0, rest))
            } else {
                None
            }
        }
    }
}

/// The moment that a text says by a clock: `now`, or so much before or after it, as `-90m` or
/// `+2d`; none where it says none, or one before 1970 or after 9998.
pub fn by_clock(clock: Seconds, text: &str) -> Option<Seconds>
    ensures { result ≡ by_clock clock text.now }
{
    if text == "now" {
        Some(clock)
    } else {
        shifted(clock, text.as_bytes())
    }
}
