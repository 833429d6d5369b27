// The scheduled time that the name of a Job tells.
ghost use Rattle.std.specs.Prelude.{◌≡◌, ◌≤◌, IfSome, Some, option_map};
ghost use Rattle.cj_cluster.specs.kubectl.NamedTimes.{behind, instant, named_time, number_of, seconds_of, time_in};

use cj_types::Seconds;

fn number_of(digits: &[u8]) -> Option<u64>
    ensures value { result ≡ number_of 0 digits.now }
    ensures small { IfSome result (λ n. n ≤ 9_999_999_999) }
{
    let mut number = 0u64;
    for digit in digits {
        let fits = digit.is_ascii_digit() && number < 1_000_000_000;
        if !fits {
            return None;
        }
        number = number * 10 + (*digit - b'0') as u64;
    }
    Some(number)
}

fn seconds_of(digits: &[u8]) -> Option<u64>
    ensures value { result ≡ seconds_of digits.now }
{
    if digits.len() == 8 {
        Some(number_of(digits)? * 60)
    } else if digits.len() == 10 {
        number_of(digits)
    } else {
        None
    }
}

fn behind<'t>(front: &[u8], text: &'t [u8]) -> Option<&'t [u8]>
    ensures { option_map (λ s. s.now) result ≡ behind front.now text.now }
{
    text.strip_prefix(front)
}

fn time_in(cron: &str, name: &str) -> Option<u64>
    ensures { result ≡ time_in cron.now name.now }
{
    let rest = behind(cron.as_bytes(), name.as_bytes())?;
    seconds_of(behind(b"-", rest)?)
}

fn instant(seconds: u64) -> Option<Seconds>
    ensures { result ≡ instant seconds }
{
    Seconds::new(seconds)
}

/// The time in the name of a Job of the CronJob of that name.
pub(crate) fn named_time(cron: &str, name: &str) -> Option<Seconds>
    ensures { result ≡ named_time (Some cron.now) name.now }
{
    instant(time_in(cron, name)?)
}
