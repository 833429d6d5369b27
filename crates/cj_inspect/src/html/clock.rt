// What a zone's clock shows, as people read it.
use cj_base::Civil;
use std::alloc::{AllocError, Global};

const DAYS: [&str; 7] = ["Sun", "Mon", "Tue", "Wed", "Thu", "Fri", "Sat"];

fn day_name(weekday: u8) -> &'static str {
    DAYS.get(weekday as usize).copied().unwrap_or("")
}

fn two(alloc: Global, number: u8) -> Result<String, AllocError> {
    if number < 10 {
        format!(in alloc; "0{number}")
    } else {
        format!(in alloc; "{number}")
    }
}

/// A date and a time of the day, with the day of the week.
pub(crate) fn clock_text(alloc: Global, civil: Civil) -> Result<String, AllocError> {
    let year = civil.year.unsigned_abs();
    let (month, day) = (two(alloc, civil.month)?, two(alloc, civil.day)?);
    let (hour, minute) = (two(alloc, civil.hour)?, two(alloc, civil.minute)?);
    let (month, day) = (month.as_str(), day.as_str());
    let (hour, minute) = (hour.as_str(), minute.as_str());
    let name = day_name(civil.weekday);
    format!(in alloc; "{year}-{month}-{day} {hour}:{minute} {name}")
}
