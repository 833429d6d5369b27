ghost use Rattle.std.specs.Prelude.{◌≡◌, IfOk, string_bytes};
ghost use Rattle.cj_upcoming.specs.Parts.{first, count, day_name, month_name, name};

use std::alloc::{AllocError, Global};

/// What a schedule says minutes by: the numbers of one of its sets.
#[derive(Clone, Copy, Debug, PartialEq, Eq)]
pub(crate) enum Part {
    /// The minutes of an hour, 0 to 59.
    Minutes,
    /// The hours of a day, 0 to 23.
    Hours,
    /// The days of a month, 1 to 31.
    Days,
    /// The months of a year, 1 to 12.
    Months,
    /// The days of a week, 1 for Monday to 7 for Sunday.
    Weekdays,
}

impl Part {
    /// The least number.
    pub fn first(self) -> u8
        ensures { result ≡ first self }
    {
        match self {
            Part::Minutes | Part::Hours => 0,
            Part::Days | Part::Months | Part::Weekdays => 1,
        }
    }

    /// How many numbers there are.
    pub fn count(self) -> u8
        ensures { result ≡ count self }
    {
        match self {
            Part::Minutes => 60,
            Part::Hours => 24,
            Part::Days => 31,
            Part::Months => 12,
            Part::Weekdays => 7,
        }
    }
}

/// The name of a month.
#[tactic(auto, unfolding(crate::specs::Parts::month_name))]
pub(crate) fn month_name(month: u8) -> &'static str
    ensures { result.now ≡ month_name month }
{
    match month {
        1 => "January",
        2 => "February",
        3 => "March",
        4 => "April",
        5 => "May",
        6 => "June",
        7 => "July",
        8 => "August",
        9 => "September",
        10 => "October",
        11 => "November",
        _ => "December",
    }
}

/// The name of a day of the week.
#[tactic(auto, unfolding(crate::specs::Parts::day_name))]
pub(crate) fn day_name(day: u8) -> &'static str
    ensures { result.now ≡ day_name day }
{
    match day {
        1 => "Monday",
        2 => "Tuesday",
        3 => "Wednesday",
        4 => "Thursday",
        5 => "Friday",
        6 => "Saturday",
        _ => "Sunday",
    }
}

/// How a number is written: a month and a day of the week by name, others in digits.
pub(crate) fn name(alloc: Global, part: Part, number: u8) -> Result<String, AllocError>
    ensures { IfOk result (λ s. string_bytes s ≡ name part number) }
{
    match part {
        Part::Minutes | Part::Hours | Part::Days => format!(in alloc; "{number}"),
        Part::Months => String::from_str(alloc, month_name(number)),
        Part::Weekdays => String::from_str(alloc, day_name(number)),
    }
}
