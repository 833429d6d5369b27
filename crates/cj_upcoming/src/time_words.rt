// What a sentence says of the time of the day.
ghost use Rattle.std.specs.Prelude.{◌≡◌, ◌++◌, ◌∷◌, [], IfOk, OnOk, map, string_bytes};
ghost use Rattle.cj_upcoming.specs.Clocks.{clock};
ghost use Rattle.cj_upcoming.specs.Sentence.{at_minute, at_minutes, clocks, every, in_hours, noun, of_hours, single, step_of, steps_to_hour, time_words};

use crate::clocks::clock;
use crate::join::join;
use crate::part::Part;
use crate::runs::list_words;
use std::alloc::{AllocError, Global};

/// A word for one, with an `s` for more.
pub(crate) fn noun(alloc: Global, word: &str, numbers: &[u8]) -> Result<String, AllocError>
    ensures { IfOk result (λ s. string_bytes s ≡ noun word.now numbers.now) }
{
    if numbers.len() == 1 {
        String::from_str(alloc, word)
    } else {
        format!(in alloc; "{word}s")
    }
}

fn single(numbers: &[u8]) -> Option<u8>
    ensures { result ≡ single numbers.now }
{
    match numbers {
        [number] => Some(*number),
        _ => None,
    }
}

fn steps_to_hour(step: u8, minutes: &[u8]) -> bool
    ensures { result ≡ steps_to_hour step 0 minutes.now }
{
    let mut next = 0u64;
    for minute in minutes {
        if *minute as u64 != next {
            return false;
        }
        next += step as u64;
    }
    next == 60
}

fn step_of(minutes: &[u8]) -> Option<u8>
    ensures { result ≡ step_of minutes.now }
{
    let [_, step, ..] = minutes else {
        return None;
    };
    if steps_to_hour(*step, minutes) {
        Some(*step)
    } else {
        None
    }
}

fn of_hours(alloc: Global, hours: &[u8]) -> Result<String, AllocError>
    ensures { IfOk result (λ s. string_bytes s ≡ of_hours hours.now) }
{
    if hours.len() == 24 {
        return String::from_str(alloc, " of every hour");
    }
    let noun = noun(alloc, "hour", hours)?;
    let list = list_words(alloc, Part::Hours, hours)?;
    let (noun, list) = (noun.as_str(), list.as_str());
    format!(in alloc; " of {noun} {list}")
}

fn in_hours(alloc: Global, hours: &[u8]) -> Result<String, AllocError>
    ensures { IfOk result (λ s. string_bytes s ≡ in_hours hours.now) }
{
    if hours.len() == 24 {
        return Ok(String::new(alloc));
    }
    of_hours(alloc, hours)
}

fn every(alloc: Global, step: u8) -> Result<String, AllocError>
    ensures { IfOk result (λ s. string_bytes s ≡ every step) }
{
    if step == 1 {
        return String::from_str(alloc, "Every minute");
    }
    format!(in alloc; "Every {step} minutes")
}

fn push_clock(
    alloc: Global,
    clocks: &mut Vec<String>,
    hour: u8,
    minute: u8,
) -> Result<(), AllocError>
    ensures { OnOk result (map string_bytes clocks.new.items
        ≡ map string_bytes clocks.old.items ++ clock hour minute ∷ []) }
{
    let clock = clock(alloc, hour as u64, minute as u64)?;
    clocks.push(clock).map_err(AllocError::from)
}

fn clocks(alloc: Global, minute: u8, hours: &[u8]) -> Result<Vec<String>, AllocError>
    ensures { IfOk result (λ v. map string_bytes v.items ≡ clocks minute hours.now) }
{
    let mut clocks = Vec::new(alloc);
    for hour in hours {
        push_clock(alloc, &mut clocks, *hour, minute)?;
    }
    Ok(clocks)
}

fn at_minute(alloc: Global, minute: u8, hours: &[u8]) -> Result<String, AllocError>
    ensures { IfOk result (λ s. string_bytes s ≡ at_minute minute hours.now) }
{
    if hours.len() == 24 {
        let hours = of_hours(alloc, hours)?;
        let hours = hours.as_str();
        return format!(in alloc; "At minute {minute}{hours}");
    }
    let clocks = clocks(alloc, minute, hours)?;
    let list = join(alloc, clocks.as_slice())?;
    let list = list.as_str();
    format!(in alloc; "At {list}")
}

fn at_steps(alloc: Global, step: u8, hours: &[u8]) -> Result<String, AllocError>
    ensures { IfOk result (λ s. string_bytes s ≡ every step ++ in_hours hours.now) }
{
    let every = every(alloc, step)?;
    let hours = in_hours(alloc, hours)?;
    let (every, hours) = (every.as_str(), hours.as_str());
    format!(in alloc; "{every}{hours}")
}

fn at_minutes(
    alloc: Global,
    step: Option<u8>,
    minutes: &[u8],
    hours: &[u8],
) -> Result<String, AllocError>
    ensures { IfOk result (λ s. string_bytes s ≡ at_minutes step minutes.now hours.now) }
{
    if let Some(step) = step {
        return at_steps(alloc, step, hours);
    }
    let list = list_words(alloc, Part::Minutes, minutes)?;
    let hours = of_hours(alloc, hours)?;
    let (list, hours) = (list.as_str(), hours.as_str());
    format!(in alloc; "At minutes {list}{hours}")
}

/// When on a day.
pub(crate) fn time_words(alloc: Global, minutes: &[u8], hours: &[u8]) -> Result<String, AllocError>
    ensures { IfOk result (λ s. string_bytes s ≡ time_words minutes.now hours.now) }
{
    match single(minutes) {
        Some(minute) => at_minute(alloc, minute, hours),
        None => at_minutes(alloc, step_of(minutes), minutes, hours),
    }
}
