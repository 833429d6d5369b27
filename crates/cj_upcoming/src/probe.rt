ghost use Rattle.std.specs.Prelude.{◌≡◌, ◌||◌, ◌&&◌, IfSome, IfOk, OnOk, true, is_some, ◌++◌, ◌∷◌, [], cond};
ghost use Rattle.cj_schedule.specs.Matches.{has};
ghost use Rattle.cj_upcoming.specs.Parts.{allows, numbers};
ghost use Rattle.cj_upcoming.specs.Dates.{date_rule, has_date, has_month, weekday_of};

use crate::part::Part;
use cj_base::Civil;
use cj_schedule::Schedule;
use std::alloc::{AllocError, Global};
use std::marker::Model;

// No number of a set.
const NONE: u8 = 64;

// Whether the day fields allow a day of the month and a day of the week, in a month that is
// allowed.
#[tactic(auto, unfolding(cj_schedule::specs::Matches::matches_day))]
fn date_rule(schedule: &Schedule, month: u8, day: u8, weekday: u8) -> bool
    requires { has schedule.now.months month ≡ true }
    ensures { result ≡ date_rule schedule.now day weekday }
{
    schedule.day_matches(Civil {
        year: 1970,
        month,
        day,
        weekday,
        hour: 0,
        minute: 0,
    })
}

// The first month that is allowed.
fn find_month(schedule: &Schedule) -> Option<u8>
    ensures value { is_some result ≡ has_month schedule.now }
    ensures some { IfSome result (λ m. has schedule.now.months m ≡ true) }
{
    for month in 1..13u8 {
        if schedule.has_month(month) {
            return Some(month);
        }
    }
    None
}

// The first day of the week that is allowed with this day of the month.
fn find_weekday(schedule: &Schedule, month: u8, day: u8) -> Option<u8>
    requires { has schedule.now.months month ≡ true }
    ensures value { is_some result ≡ weekday_of schedule.now day }
    ensures some { IfSome result (λ w. date_rule schedule.now day w ≡ true) }
{
    for weekday in 0..7u8 {
        if date_rule(schedule, month, day, weekday) {
            return Some(weekday);
        }
    }
    None
}

// The first date that is allowed in a month.
fn find_date(schedule: &Schedule, month: u8) -> Option<(u8, u8)>
    requires { has schedule.now.months month ≡ true }
    ensures value { is_some result ≡ has_date schedule.now }
    ensures some { IfSome result (λ d. date_rule schedule.now d.0 d.1 ≡ true) }
{
    for day in 1..32u8 {
        match find_weekday(schedule, month, day) {
            Some(weekday) => return Some((day, weekday)),
            None => {}
        }
    }
    None
}

/// A date that a schedule allows, by which each of its sets is asked. Contracts see the schedule.
#[derive(Drop)]
pub(crate) struct Probe {
    schedule: Schedule,
    month: u8,
    day: u8,
    weekday: u8,
}

impl Model for Probe {
    ghost use Rattle.std.specs.Prelude.{◌≡◌, true};
    ghost use Rattle.cj_schedule.specs.Matches.{Sets, has};
    ghost use Rattle.cj_upcoming.specs.Dates.{IsAllowed};

    ghost Value = { Sets };

    ghost view = { λ p. p.schedule };

    ghost invariant = { λ p. IsAllowed p.schedule p.month p.day p.weekday };
}

// A minute, an hour or a month.
fn has_minute(schedule: &Schedule, minute: u8) -> bool
    ensures { result ≡ has schedule.now.minutes minute }
{
    match schedule.next_minute(minute) {
        Some(found) => found == minute,
        None => false,
    }
}

impl Probe {
    /// A probe of the schedule, if it allows any date.
    pub fn of(schedule: &Schedule) -> Option<Probe>
        ensures some { IfSome result (λ p. p ≡ schedule.now) }
        ensures value { is_some result ≡ (has_month schedule.now && has_date schedule.now) }
    {
        let month = find_month(schedule)?;
        let (day, weekday) = find_date(schedule, month)?;
        Some(Probe {
            schedule: *schedule,
            month,
            day,
            weekday,
        })
    }

    fn rule(&self, day: u8, weekday: u8) -> bool
        ensures { result ≡ date_rule self.now day weekday }
    {
        date_rule(&self.schedule, self.month, day, weekday)
    }

    /// Whether one of the day fields is open.
    pub fn is_open(&self) -> bool
        ensures { result ≡ (self.now.day_open || self.now.weekday_open) }
    {
        let by_day = self.rule(self.day, NONE);
        let by_weekday = self.rule(NONE, self.weekday);
        !(by_day || by_weekday)
    }

    fn has_day(&self, day: u8) -> bool
        ensures { result ≡ has self.now.days day }
    {
        let weekday = if self.is_open() { self.weekday } else { NONE };
        self.rule(day, weekday)
    }

    fn has_weekday(&self, weekday: u8) -> bool
        ensures { result ≡ has self.now.weekdays weekday }
    {
        let day = if self.is_open() { self.day } else { NONE };
        self.rule(day, weekday)
    }

    fn allows(&self, part: Part, number: u8) -> bool
        ensures { result ≡ allows self.now part number }
    {
        match part {
            Part::Minutes => has_minute(&self.schedule, number),
            Part::Hours => self.schedule.has_hour(number),
            Part::Days => self.has_day(number),
            Part::Months => self.schedule.has_month(number),
            Part::Weekdays => self.has_weekday(number % 7),
        }
    }

    fn push_if(&self, numbers: &mut Vec<u8>, part: Part, number: u8) -> Result<(), AllocError>
        ensures { OnOk result (numbers.new.items
            ≡ numbers.old.items ++ cond (allows self.now part number) (number ∷ []) []) }
    {
        if self.allows(part, number) {
            numbers.push(number).map_err(AllocError::from)?;
        }
        Ok(())
    }

    /// The numbers that the schedule has.
    pub fn numbers(&self, alloc: Global, part: Part) -> Result<Vec<u8>, AllocError>
        ensures { IfOk result (λ v. v.items ≡ numbers self.now part) }
    {
        let mut numbers = Vec::new(alloc);
        let end = part.first() + part.count();
        for number in part.first()..end {
            self.push_if(&mut numbers, part, number)?;
        }
        Ok(numbers)
    }
}
