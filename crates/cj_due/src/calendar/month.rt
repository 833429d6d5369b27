ghost use Rattle.std.specs.Prelude.{◌≡◌, ◌+◌, ◌≤◌, ◌%◌};
ghost use Rattle.jiff_core.specs.Calendar.{days_in_month};
ghost use Rattle.cj_due.specs.calendar.Months.{IsMonth};

use jiff_core::civil::{Date, days_in_month};

/// A month of the calendar, with `first`, the number of days from -9999-01-01 to its first day.
#[derive(Clone, Copy)]
pub(crate) struct Month {
    pub year: i16,
    pub month: u8,
    pub first: u64,
    pub ghost is_month: { IsMonth year month first },
}

impl Month {
    /// The number of days in the month.
    pub(crate) fn length(self) -> u8
        ensures value { result ≡ days_in_month self.year self.month }
        ensures low { 28 ≤ result }
        ensures high { result ≤ 31 }
    {
        days_in_month(self.year, self.month)
    }

    /// The weekday of the month's first day, from 0 for Sunday.
    pub(crate) fn weekday(self) -> u8
        requires { self.first ≤ 7_304_400 }
        ensures { result ≡ (self.first + 1) % 7 }
    {
        ((self.first + 1) % 7) as u8
    }

    /// The following month.
    pub(crate) fn next(self) -> Month
        requires { self.first ≤ 7_304_400 }
        ensures { result.first ≡ self.first + days_in_month self.year self.month }
    {
        let first = self.first + self.length() as u64;
        if self.month == 12 {
            return Month {
                year: self.year + 1,
                month: 1,
                first,
            };
        }
        Month {
            year: self.year,
            month: self.month + 1,
            first,
        }
    }
}

/// The month of the day `day` days after -9999-01-01, and the day's place in that month, from 1.
pub(crate) fn month_of(day: u64) -> (Month, u8)
    requires { day ≤ 7_304_400 }
    ensures place { result.0.first + result.1 ≡ day + 1 }
    ensures low { 1 ≤ result.1 }
    ensures high { result.1 ≤ days_in_month result.0.year result.0.month }
{
    let date = Date::from_days_since_min(day as u32);
    let month = Month {
        year: date.year,
        month: date.month,
        first: day + 1 - date.day as u64,
    };
    (month, date.day)
}
