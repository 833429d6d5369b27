// A schedule in a sentence.
ghost use Rattle.std.specs.Prelude.{◌≡◌, IfOk, IfErr, codes, string_bytes};
ghost use Rattle.cj_base.specs.declared.refusal.Refusal.TheVariants.{OutOfMemory};
ghost use Rattle.cj_upcoming.specs.Sentence.{date_words, day_words, is_open, month_words, sentence, time_words, words_of};
ghost use Rattle.cj_upcoming.specs.Parts.{numbers};
ghost use Rattle.cj_upcoming.specs.declared.part.Part.TheVariants.{Minutes, Hours, Days, Months, Weekdays};

use crate::day_words::{day_words, month_words};
use crate::part::Part;
use crate::probe::Probe;
use crate::time_words::time_words;
use cj_base::Refusal;
use cj_schedule::Schedule;
use std::alloc::{AllocError, Global};

fn time_of(alloc: Global, probe: &Probe) -> Result<String, AllocError>
    ensures { IfOk result (λ s. string_bytes s
        ≡ time_words (numbers probe.now Minutes) (numbers probe.now Hours)) }
{
    let minutes = probe.numbers(alloc, Part::Minutes)?;
    let hours = probe.numbers(alloc, Part::Hours)?;
    time_words(alloc, minutes.as_slice(), hours.as_slice())
}

fn days_of(alloc: Global, probe: &Probe) -> Result<String, AllocError>
    ensures { IfOk result (λ s. string_bytes s ≡ day_words (is_open probe.now)
        (numbers probe.now Days) (numbers probe.now Weekdays)) }
{
    let days = probe.numbers(alloc, Part::Days)?;
    let weekdays = probe.numbers(alloc, Part::Weekdays)?;
    day_words(alloc, probe.is_open(), days.as_slice(), weekdays.as_slice())
}

fn months_of(alloc: Global, probe: &Probe) -> Result<String, AllocError>
    ensures { IfOk result (λ s. string_bytes s ≡ month_words (numbers probe.now Months)) }
{
    let months = probe.numbers(alloc, Part::Months)?;
    month_words(alloc, months.as_slice())
}

fn date_words(alloc: Global, probe: &Probe) -> Result<String, AllocError>
    ensures { IfOk result (λ s. string_bytes s ≡ date_words probe.now) }
{
    let mut text = time_of(alloc, probe)?;
    let days = days_of(alloc, probe)?;
    let months = months_of(alloc, probe)?;
    text.push_str(days.as_str())?;
    text.push_str(months.as_str())?;
    Ok(text)
}

fn no_time(alloc: Global) -> Result<String, AllocError>
    ensures { IfOk result (λ s. string_bytes s ≡ codes "At no time") }
{
    String::from_str(alloc, "At no time")
}

fn words(alloc: Global, schedule: &Schedule) -> Result<String, AllocError>
    ensures { IfOk result (λ s. string_bytes s ≡ words_of schedule.now) }
{
    match Probe::of(schedule) {
        Some(probe) => date_words(alloc, &probe),
        None => no_time(alloc),
    }
}

/// A schedule in a sentence, as `At 02:30 on Monday to Friday, by the clock of Europe/Berlin`, with
/// the name of the zone whose clock it goes by. Where both day fields are given, it says that
/// either of them allows a day.
pub fn sentence(alloc: Global, schedule: &Schedule, zone: &str) -> Result<String, Refusal>
    ensures ok { IfOk result (λ s. string_bytes s ≡ sentence schedule.now zone.now) }
    ensures memory { IfErr result (λ e. e ≡ OutOfMemory) }
{
    let words = words(alloc, schedule)?;
    let words = words.as_str();
    Ok(format!(in alloc; "{words}, by the clock of {zone}\n")?)
}
