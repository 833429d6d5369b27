// Local times that a zone's clock skips, or shows twice, and that a schedule names.
ghost use Rattle.std.specs.Prelude.{◌≡◌, ◌⊎◌, ◌+◌, ◌-◌, ◌≤◌, ◌++◌, min, pos, int_lt, unsigned_abs, codes, IfOk, IfErr, OnOk, if◌then◌else◌, string_bytes};
ghost use Rattle.cj_base.specs.Instant.{last_second};
ghost use Rattle.cj_base.specs.declared.refusal.Refusal.TheVariants.{OutOfMemory};
ghost use Rattle.cj_upcoming.specs.Changes.{changes};
ghost use Rattle.cj_upcoming.specs.Named.{AreNamedLines, IsNamedLine, IsNamedOne, named_line, named_line_if, named_word, shown, shown_after, shown_before};

use crate::changes::{changes, instant, offset, second_before};
use crate::clocks::civil_text;
use cj_base::{Refusal, Seconds};
use cj_due::latest_in;
use cj_schedule::Schedule;
use cj_zone::{Zone, local, time_text};
use std::alloc::Global;

const LAST_SECOND: u64 = 253_370_764_799;

// What a clock shows that is so far ahead of UTC, as an instant at which UTC's clock shows that.
fn shown(at: Seconds, ahead: i64) -> Seconds
    ensures { result ≡ shown at ahead }
{
    let size = ahead.unsigned_abs();
    let count = if ahead < 0 {
        at.get().saturating_sub(size)
    } else {
        at.get().saturating_add(size)
    };
    instant(count.min(LAST_SECOND))
}

// What the clock would show where it is put.
fn shown_before(zone: &Zone, at: Seconds) -> Seconds
    ensures { result ≡ shown_before zone.now at }
{
    shown(at, offset(zone, second_before(at)))
}

// What it shows there.
fn shown_after(zone: &Zone, at: Seconds) -> Seconds
    ensures { result ≡ shown_after zone.now at }
{
    shown(at, offset(zone, at))
}

// The last of the local times that are skipped, or come twice, that the schedule names.
fn named_one(schedule: &Schedule, zone: &Zone, utc: &Zone, at: Seconds) -> Option<Seconds>
    ensures { IsNamedOne schedule.now zone.now utc.now at result }
{
    let before = shown_before(zone, at);
    let after = shown_after(zone, at);
    let first = second_before(before.min(after));
    let last = second_before(before.max(after));
    match latest_in(schedule, utc, first, last) {
        Some(named) => Some(named),
        None => None,
    }
}

fn named_word(before: i64, after: i64) -> &'static str
    ensures { result.now ≡ (if int_lt before after
        then codes ", which the schedule names, is skipped: the clock goes from "
        else codes ", which the schedule names, comes twice: the clock goes from ") }
{
    if before < after {
        ", which the schedule names, is skipped: the clock goes from "
    } else {
        ", which the schedule names, comes twice: the clock goes from "
    }
}

fn named_line(
    alloc: Global,
    zone: &Zone,
    utc: &Zone,
    at: Seconds,
    named: Seconds,
) -> Result<String, Refusal>
    ensures ok { IfOk result (λ s. string_bytes s ≡ named_line zone.now utc.now at named) }
    ensures memory { IfErr result (λ e. e ≡ OutOfMemory) }
{
    let word = named_word(offset(zone, second_before(at)), offset(zone, at));
    let named = civil_text(alloc, local(utc, named))?;
    let from = civil_text(alloc, local(utc, shown_before(zone, at)))?;
    let to = civil_text(alloc, local(utc, shown_after(zone, at)))?;
    let time = time_text(alloc, at)?;
    let (named, from) = (named.as_str(), from.as_str());
    let (to, time) = (to.as_str(), time.as_str());
    Ok(format!(in alloc; "{named}{word}{from} to {to} at {time}\n")?)
}

fn named_line_if(
    alloc: Global,
    zone: &Zone,
    utc: &Zone,
    at: Seconds,
    named: Option<Seconds>,
) -> Result<String, Refusal>
    ensures ok { IfOk result (λ s. string_bytes s ≡ named_line_if zone.now utc.now at named) }
    ensures memory { IfErr result (λ e. e ≡ OutOfMemory) }
{
    match named {
        Some(named) => named_line(alloc, zone, utc, at, named),
        None => Ok(String::new(alloc)),
    }
}

// The line of a change, if it has one.
fn line_at(
    alloc: Global,
    schedule: &Schedule,
    zone: &Zone,
    utc: &Zone,
    at: &Seconds,
) -> Result<String, Refusal>
    ensures ok { IfOk result (λ s. IsNamedLine schedule.now zone.now utc.now at.now
        (string_bytes s)) }
    ensures memory { IfErr result (λ e. e ≡ OutOfMemory) }
{
    let named = named_one(schedule, zone, utc, *at);
    named_line_if(alloc, zone, utc, *at, named)
}

fn named_lines(
    alloc: Global,
    schedule: &Schedule,
    zone: &Zone,
    utc: &Zone,
    changes: &[Seconds],
) -> Result<String, Refusal>
    ensures ok { IfOk result (λ s. AreNamedLines schedule.now zone.now utc.now changes.now
        (string_bytes s)) }
    ensures memory { IfErr result (λ e. e ≡ OutOfMemory) }
{
    let mut lines = String::new(alloc);
    for at in changes {
        let line = line_at(alloc, schedule, zone, utc, at)?;
        lines.push_str(line.as_str())?;
    }
    Ok(lines)
}

/// A line for each instant after one and up to another at which the zone's clock is put so that it
/// skips local times, or shows some twice, that the schedule names: the last of these, and from
/// where to where the clock goes; `utc` is UTC.
pub fn named_changes_text(
    alloc: Global,
    schedule: &Schedule,
    zone: &Zone,
    utc: &Zone,
    after: Seconds,
    last: Seconds,
) -> Result<String, Refusal>
    ensures ok { IfOk result (λ s. AreNamedLines schedule.now zone.now utc.now
        (changes zone.now after last) (string_bytes s)) }
    ensures memory { IfErr result (λ e. e ≡ OutOfMemory) }
{
    let changes = changes(alloc, zone, after, last)?;
    named_lines(alloc, schedule, zone, utc, changes.as_slice())
}
