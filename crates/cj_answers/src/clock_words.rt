// What `--explain` says of local times that a zone's clock skips, or shows twice, and that a
// schedule names.
ghost use Rattle.std.specs.Prelude.{◌≡◌, IfOk, IfErr, codes, string_bytes};
ghost use Rattle.cj_base.specs.declared.refusal.Refusal.TheVariants.{OutOfMemory};
ghost use Rattle.cj_schedule.specs.Grammar.{IsSchedule};
ghost use Rattle.cj_schedule.specs.Matches.{Sets};
ghost use Rattle.cj_upcoming.specs.Changes.{changes};
ghost use Rattle.cj_upcoming.specs.Named.{AreNamedLines};
ghost use Rattle.cj_zone.specs.Table.{zones_of};
ghost use Rattle.cj_zone.specs.Zones.{utc_zone};
ghost use Rattle.cj_answers.specs.ClockWords.{IsClockAdvice, IsClockWords, IsNamedClock, IsZoneClock, clock_mark, year_after, zone_mark};

use crate::marking::marked;
use cj_schedule::Schedule;
use cj_types::{CronSpec, Refusal, Seconds};
use cj_upcoming::named_changes_text;
use cj_zone::{Zone, ZoneTable};
use std::alloc::{AllocError, Global};

// 366 days.
const YEAR: u64 = 31_622_400;

const LAST_SECOND: u64 = 253_370_764_799;

fn year_after(at: Seconds) -> Seconds
    ensures { result ≡ year_after at }
{
    match Seconds::new((at.get() + YEAR).min(LAST_SECOND)) {
        Some(last) => last,
        None => unreachable!(),
    }
}

// The lines of the year after an instant.
fn named_lines(
    alloc: Global,
    schedule: &Schedule,
    zone: &Zone,
    after: Seconds,
) -> Result<String, Refusal>
    ensures ok { IfOk result (λ s. AreNamedLines schedule.now zone.now (utc_zone (codes "UTC"))
        (changes zone.now after (year_after after)) (string_bytes s)) }
    ensures err { IfErr result (λ e. e ≡ OutOfMemory) }
{
    let table = ZoneTable::new(alloc)?;
    named_changes_text(
        alloc,
        schedule,
        zone,
        table.default_zone(),
        after,
        year_after(after),
    )
}

/// A line for each change of a zone's clock in the year after an instant by which local times are
/// skipped, or come twice, that the schedule names; each with the mark before it.
pub(crate) fn clock_words(
    alloc: Global,
    mark: &str,
    schedule: &Schedule,
    zone: &Zone,
    after: Seconds,
) -> Result<String, Refusal>
    ensures ok { IfOk result (λ s. IsClockWords mark.now schedule.now zone.now after
        (string_bytes s)) }
    ensures err { IfErr result (λ e. e ≡ OutOfMemory) }
{
    let lines = named_lines(alloc, schedule, zone, after)?;
    Ok(marked(alloc, mark, lines.as_str())?)
}

/// By which option the zone of `next` is given.
pub(crate) fn clock_mark(name: Option<&str>) -> &'static str
    ensures { result.now ≡ clock_mark name.entry }
{
    match name {
        None => "--zone: ",
        Some(_) => "--time-zone: ",
    }
}

// By which member a CronJob names its zone.
const ZONE_MARK: &str = "spec.timeZone: ";

// Of a text that is a schedule.
fn text_clock(alloc: Global, text: &str, zone: &Zone, after: Seconds) -> Result<String, Refusal>
    ensures ok { IfOk result (λ s. (sets : Sets) → IsSchedule text.now sets →
        IsClockWords zone_mark sets zone.now after (string_bytes s)) }
    ensures err { IfErr result (λ e. e ≡ OutOfMemory) }
{
    match Schedule::parse(text) {
        Ok(schedule) => clock_words(alloc, ZONE_MARK, &schedule, zone, after),
        Err(_) => Ok(String::new(alloc)),
    }
}

// Of a schedule's text, on the clock of the zone of that name.
fn named_clock(
    alloc: Global,
    zones: &ZoneTable,
    name: &str,
    text: &str,
    after: Seconds,
) -> Result<String, Refusal>
    ensures ok { IfOk result (λ s. IsNamedClock name.now text.now (zones_of zones.now) after
        (string_bytes s)) }
    ensures err { IfErr result (λ e. e ≡ OutOfMemory) }
{
    match zones.get(name) {
        Some(zone) => text_clock(alloc, text, zone, after),
        None => Ok(String::new(alloc)),
    }
}

fn zone_clock(
    alloc: Global,
    zones: &ZoneTable,
    spec: &CronSpec,
    after: Seconds,
) -> Result<String, Refusal>
    ensures ok { IfOk result (λ s. IsZoneClock spec.now.time_zone spec.now.schedule
        (zones_of zones.now) after (string_bytes s)) }
    ensures err { IfErr result (λ e. e ≡ OutOfMemory) }
{
    match &spec.time_zone {
        Some(name) => named_clock(alloc, zones, name.as_str(), spec.schedule.as_str(), after),
        None => Ok(String::new(alloc)),
    }
}

/// Such lines of a CronJob's schedule, on the clock of the zone that it names, behind a moment;
/// none where it names none, or there is no moment.
pub(crate) fn clock_advice(
    alloc: Global,
    zones: &ZoneTable,
    spec: &CronSpec,
    moment: Option<Seconds>,
) -> Result<String, Refusal>
    ensures ok { IfOk result (λ s. IsClockAdvice spec.now (zones_of zones.now) moment
        (string_bytes s)) }
    ensures err { IfErr result (λ e. e ≡ OutOfMemory) }
{
    match moment {
        Some(after) => zone_clock(alloc, zones, spec, after),
        None => Ok(String::new(alloc)),
    }
}
