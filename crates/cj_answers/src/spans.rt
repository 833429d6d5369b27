// Lengths of time in several units.
ghost use Rattle.std.specs.Prelude.{◌≡◌, ◌≤◌, Some};
ghost use Rattle.cj_answers.specs.Spans.{is_fit, span_of, tallied, total, with_byte, with_digit, with_part, with_unit};

use crate::relative::{is_digit, span_end};

// What was read of a length: the seconds of its parts, and the number behind them that has no unit
// yet, where there is one.
#[derive(Clone, Copy)]
struct Tally {
    sum: u64,
    count: u64,
    is_open: bool,
}

fn is_fit(number: u64) -> bool
    ensures { result ≡ is_fit number }
{
    number <= 1_000_000_000
}

fn with_digit(tally: Tally, digit: u64) -> Option<Tally>
    requires { digit ≤ 9 }
    ensures { result ≡ with_digit tally digit }
{
    if is_fit(tally.count) {
        Some(Tally {
            sum: tally.sum,
            count: tally.count * 10 + digit,
            is_open: true,
        })
    } else {
        None
    }
}

fn with_part(sum: u64, part: Option<u64>) -> Option<Tally>
    ensures { result ≡ with_part sum part }
{
    match part {
        None => None,
        Some(part) => {
            if is_fit(sum) && is_fit(part) {
                Some(Tally {
                    sum: sum + part,
                    count: 0,
                    is_open: false,
                })
            } else {
                None
            }
        }
    }
}

fn with_unit(tally: Tally, unit: u8) -> Option<Tally>
    ensures { result ≡ with_unit tally unit }
{
    if tally.is_open && is_fit(tally.count) {
        with_part(tally.sum, span_end(tally.count, unit, &[]))
    } else {
        None
    }
}

fn with_byte(tally: Tally, byte: u8) -> Option<Tally>
    ensures { result ≡ with_byte tally byte }
{
    if is_digit(byte) {
        with_digit(tally, u64::from(byte - 48))
    } else {
        with_unit(tally, byte)
    }
}

fn total(tally: Tally) -> Option<u64>
    ensures { result ≡ total tally }
{
    if tally.is_open { None } else { Some(tally.sum) }
}

fn tallied(tally: Option<Tally>, bytes: &[u8]) -> Option<u64>
    ensures { result ≡ tallied tally bytes.now }
{
    match tally {
        None => None,
        Some(tally) => match bytes.split_first() {
            None => total(tally),
            Some((byte, rest)) => tallied(with_byte(tally, *byte), rest),
        },
    }
}

/// How many seconds a text says in units, one behind another, as `2w`, `3600s` or `1h30m`: seconds,
/// minutes, hours, days and weeks; none where it says none, or where a number in it, a part or the
/// sum before a part is over a billion.
pub fn read_span(text: &str) -> Option<u64>
    ensures { result ≡ span_of text.now }
{
    let tally = Tally {
        sum: 0,
        count: 0,
        is_open: false,
    };
    match text.as_bytes().split_first() {
        None => None,
        Some((byte, rest)) => tallied(with_byte(tally, *byte), rest),
    }
}
