// Times as clients print them.
ghost use Rattle.std.specs.Prelude.{◌≡◌, ℕ, ◌+◌, ◌<◌, ◌≤◌, ◌⊎◌, [], ◌∷◌, take, length, IfSome, Some};
ghost use Rattle.jiff_fmt.specs.Text.{pad2};
ghost use Rattle.cj_base.specs.Instant.{last_second};
ghost use Rattle.cj_zone.specs.TimeText.{time_text_of};
ghost use Rattle.cj_cluster.specs.kubectl.Instants.{IsApart, IsDistance, IsInstant};

use cj_types::Seconds;
use cj_zone::read_time;

// The number below 100 of two digits.
fn two_digits(tens: u8, ones: u8) -> Option<u64>
    ensures found { IfSome result (λ n. pad2 n ≡ tens ∷ ones ∷ []) }
    ensures small { IfSome result (λ n. n < 100) }
    ensures only { (n : ℕ) → n < 100 → pad2 n ≡ tens ∷ ones ∷ [] → result ≡ Some n }
{
    if tens.is_ascii_digit() && ones.is_ascii_digit() {
        Some(u64::from(tens - b'0') * 10 + u64::from(ones - b'0'))
    } else {
        None
    }
}

// The seconds of `HH:MM`.
fn distance(text: &[u8]) -> Option<u64>
    ensures found { IfSome result (IsDistance text.now) }
    ensures only { (d : ℕ) → IsDistance text.now d → result ≡ Some d }
{
    let [h1, h2, b':', m1, m2] = text else {
        return None;
    };
    let Some(hours) = two_digits(*h1, *h2) else {
        return None;
    };
    let Some(minutes) = two_digits(*m1, *m2) else {
        return None;
    };
    if hours > 23 || minutes > 59 {
        return None;
    }
    Some(hours * 3600 + minutes * 60)
}

// The instant at which a clock at UTC shows this date and time.
fn shown_by(clock: &[u8]) -> Option<Seconds>
    requires { length clock.now ≡ 19 }
    ensures found { IfSome result (λ t. clock.now ≡ take 19 (time_text_of t)) }
    ensures in_range { IfSome result (λ t. t ≤ last_second) }
    ensures only { (t : ℕ) → t ≤ last_second → clock.now ≡ take 19 (time_text_of t) →
        result ≡ Some t }
{
    let mut text = [b'Z'; 20];
    text[..19].copy_from_slice(clock);
    read_time(str::from_utf8(&text).ok()?)
}

// The instant, where a clock that is so far ahead of UTC, or behind it, shows that one.
fn moved(sign: u8, shown: Seconds, distance: u64) -> Option<Seconds>
    requires { distance < 100_000 }
    ensures found { IfSome result (λ t. ((sign ≡ 43) × (t + distance ≡ shown))
        ⊎ ((sign ≡ 45) × (shown + distance ≡ t))) }
    ensures in_range { IfSome result (λ t. t ≤ last_second) }
    ensures ahead { (t : ℕ) → sign ≡ 43 → t + distance ≡ shown → result ≡ Some t }
    ensures behind { (t : ℕ) → t ≤ last_second → sign ≡ 45 → shown + distance ≡ t →
        result ≡ Some t }
{
    match sign {
        b'+' => Seconds::new(shown.get().checked_sub(distance)?),
        b'-' => Seconds::new(shown.get() + distance),
        _ => None,
    }
}

// The instant of a text with an offset from UTC.
fn apart(text: &[u8]) -> Option<Seconds>
    requires { length text.now ≡ 25 }
    ensures found { IfSome result (IsApart text.now) }
    ensures in_range { IfSome result (λ t. t ≤ last_second) }
    ensures only { (t : ℕ) → t ≤ last_second → IsApart text.now t → result ≡ Some t }
{
    let (clock, offset) = text.split_at(19);
    let shown = shown_by(clock)?;
    let distance = distance(&offset[1..])?;
    moved(offset[0], shown, distance)
}

/// The instant that a client prints as this text (RFC 3339): `YYYY-MM-DDTHH:MM:SSZ`, or with
/// `+HH:MM` or `-HH:MM` in place of the `Z` for a clock ahead of UTC or behind it; `None` where
/// there is none from 1970 to 9998.
pub fn read_instant(text: &str) -> Option<Seconds>
    ensures found { IfSome result (IsInstant text.now) }
    ensures only { (t : ℕ) → IsInstant text.now t → result ≡ Some t }
{
    if text.len() == 25 {
        apart(text.as_bytes())
    } else {
        read_time(text)
    }
}
