// How long a window is.
ghost use Rattle.std.specs.Prelude.{◌≡◌, ◌≤◌, IfSome};
ghost use Rattle.cj_upcoming.specs.Length.{length_of, measure, number_of, unit_seconds};

fn number_of(digits: &[u8]) -> Option<u64>
    ensures value { result ≡ number_of 0 digits.now }
    ensures small { IfSome result (λ n. n ≤ 9_999_999) }
{
    let mut number = 0u64;
    for digit in digits {
        let fits = digit.is_ascii_digit() && number < 1_000_000;
        if !fits {
            return None;
        }
        number = number * 10 + (*digit - b'0') as u64;
    }
    Some(number)
}

fn unit_seconds(unit: u8) -> Option<u64>
    ensures value { result ≡ unit_seconds unit }
    ensures small { IfSome result (λ n. n ≤ 86_400) }
{
    match unit {
        b'm' => Some(60),
        b'h' => Some(3_600),
        b'd' => Some(86_400),
        _ => None,
    }
}

fn measure(digits: &[u8], unit: u8) -> Option<u64>
    ensures { result ≡ measure digits.now unit }
{
    if digits.is_empty() {
        return None;
    }
    match (number_of(digits), unit_seconds(unit)) {
        (Some(number), Some(seconds)) => Some(number * seconds),
        _ => None,
    }
}

/// How many seconds a text means: a number below ten million, and `m` for minutes, `h` for hours or
/// `d` for days.
pub fn read_length(text: &str) -> Option<u64>
    ensures { result ≡ length_of text.now }
{
    match text.as_bytes() {
        [digits @ .., unit] => measure(digits, *unit),
        [] => None,
    }
}
