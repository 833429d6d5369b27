// What a sentence says of the days and months.
ghost use Rattle.std.specs.Prelude.{◌≡◌, ◌++◌, IfOk, codes, string_bytes, length, ◌==◌, if◌then◌else◌, []};
ghost use Rattle.cj_upcoming.specs.Sentence.{both_fields, day_words, month_words, on_days, on_weekdays};

use crate::part::Part;
use crate::runs::list_words;
use crate::time_words::noun;
use std::alloc::{AllocError, Global};

fn on_days(alloc: Global, days: &[u8]) -> Result<String, AllocError>
    ensures { IfOk result (λ s. string_bytes s ≡ on_days days.now) }
{
    let noun = noun(alloc, "day", days)?;
    let list = list_words(alloc, Part::Days, days)?;
    let (noun, list) = (noun.as_str(), list.as_str());
    format!(in alloc; "on {noun} {list} of the month")
}

fn on_weekdays(alloc: Global, weekdays: &[u8]) -> Result<String, AllocError>
    ensures { IfOk result (λ s. string_bytes s ≡ on_weekdays weekdays.now) }
{
    let list = list_words(alloc, Part::Weekdays, weekdays)?;
    let list = list.as_str();
    format!(in alloc; "on {list}")
}

// What the days of the month ask, where they don't allow all.
fn asked_days(alloc: Global, days: &[u8]) -> Result<String, AllocError>
    ensures { IfOk result (λ s. string_bytes s
        ≡ (if length days.now == 31 then [] else codes " " ++ on_days days.now)) }
{
    if days.len() == 31 {
        return Ok(String::new(alloc));
    }
    let words = on_days(alloc, days)?;
    let words = words.as_str();
    format!(in alloc; " {words}")
}

// What the days of the week ask, where they don't allow all.
fn asked_weekdays(alloc: Global, weekdays: &[u8]) -> Result<String, AllocError>
    ensures { IfOk result (λ s. string_bytes s
        ≡ (if length weekdays.now == 7 then [] else codes " " ++ on_weekdays weekdays.now)) }
{
    if weekdays.len() == 7 {
        return Ok(String::new(alloc));
    }
    let words = on_weekdays(alloc, weekdays)?;
    let words = words.as_str();
    format!(in alloc; " {words}")
}

fn both_fields(alloc: Global, days: &[u8], weekdays: &[u8]) -> Result<String, AllocError>
    ensures { IfOk result (λ s. string_bytes s ≡ both_fields days.now weekdays.now) }
{
    let mut text = asked_days(alloc, days)?;
    let weekdays = asked_weekdays(alloc, weekdays)?;
    text.push_str(weekdays.as_str())?;
    Ok(text)
}

/// On which days: by both day fields where one of them is open, else by either.
pub(crate) fn day_words(
    alloc: Global,
    is_open: bool,
    days: &[u8],
    weekdays: &[u8],
) -> Result<String, AllocError>
    ensures { IfOk result (λ s. string_bytes s ≡ day_words is_open days.now weekdays.now) }
{
    if is_open {
        return both_fields(alloc, days, weekdays);
    }
    let days = on_days(alloc, days)?;
    let weekdays = on_weekdays(alloc, weekdays)?;
    let (days, weekdays) = (days.as_str(), weekdays.as_str());
    format!(in alloc; " {days} or {weekdays}")
}

/// In which months.
pub(crate) fn month_words(alloc: Global, months: &[u8]) -> Result<String, AllocError>
    ensures { IfOk result (λ s. string_bytes s ≡ month_words months.now) }
{
    if months.len() == 12 {
        return Ok(String::new(alloc));
    }
    let list = list_words(alloc, Part::Months, months)?;
    let list = list.as_str();
    format!(in alloc; ", in {list}")
}
