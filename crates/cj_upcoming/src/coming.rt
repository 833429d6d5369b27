// The next times of a schedule.
ghost use Rattle.std.specs.Prelude.{◌≡◌, ◌++◌, codes, IfOk, IfErr, OnOk, string_bytes};
ghost use Rattle.cj_base.specs.declared.refusal.Refusal.TheVariants.{OutOfMemory};
ghost use Rattle.cj_zone.specs.Zones.{utc_zone};
ghost use Rattle.cj_upcoming.specs.Changes.{changes};
ghost use Rattle.cj_upcoming.specs.Coming.{AddsStep, time_line, AreComing};
ghost use Rattle.cj_upcoming.specs.Named.{AreNamedLines};

use crate::changes::offset;
use crate::clocks::{civil_text, offset_text, span_text};
use crate::named::named_changes_text;
use crate::part::day_name;
use cj_base::{Refusal, Seconds};
use cj_due::next_after;
use cj_schedule::Schedule;
use cj_zone::{Zone, ZoneTable, local, time_text};
use std::alloc::Global;

fn time_line(alloc: Global, zone: &Zone, start: Seconds, time: Seconds) -> Result<String, Refusal>
    ensures ok { IfOk result (λ s. string_bytes s ≡ time_line zone.now start time) }
    ensures memory { IfErr result (λ e. e ≡ OutOfMemory) }
{
    let civil = local(zone, time);
    let day = day_name(civil.weekday);
    let shown = civil_text(alloc, civil)?;
    let ahead = offset_text(alloc, offset(zone, time))?;
    let utc = time_text(alloc, time)?;
    let span = span_text(alloc, time.get().saturating_sub(start.get()))?;
    let (shown, ahead, utc, span) = (shown.as_str(), ahead.as_str(), utc.as_str(), span.as_str());
    Ok(format!(in alloc; "{day} {shown} {ahead} {utc} in {span}\n")?)
}

// What the clock does with local times that the schedule names.
fn named_text(
    alloc: Global,
    schedule: &Schedule,
    zone: &Zone,
    after: Seconds,
    last: Seconds,
) -> Result<String, Refusal>
    ensures ok { IfOk result (λ s. AreNamedLines schedule.now zone.now (utc_zone (codes "UTC"))
        (changes zone.now after last) (string_bytes s)) }
    ensures memory { IfErr result (λ e. e ≡ OutOfMemory) }
{
    let table = ZoneTable::new(alloc)?;
    named_changes_text(alloc, schedule, zone, table.default_zone(), after, last)
}

fn push_step(
    alloc: Global,
    text: &mut String,
    schedule: &Schedule,
    zone: &Zone,
    start: Seconds,
    after: Seconds,
    time: Seconds,
) -> Result<(), Refusal>
    ensures ok { OnOk result (AddsStep schedule.now zone.now start after time
        (string_bytes text.old) (string_bytes text.new)) }
    ensures memory { IfErr result (λ e. e ≡ OutOfMemory) }
{
    let mut lines = named_text(alloc, schedule, zone, after, time)?;
    let line = time_line(alloc, zone, start, time)?;
    lines.push_str(line.as_str())?;
    text.push_str(lines.as_str())?;
    Ok(())
}

/// The next `count` times of a schedule on a zone's clock, each the least one after the one before:
/// its day of the week, the local time, how far the clock is ahead of UTC, the time in UTC, and how
/// far off that is; before them which local times that the schedule names the clock skips or shows
/// twice on the way. An end where nothing is due within 3,000 days.
pub fn coming_text(
    alloc: Global,
    schedule: &Schedule,
    zone: &Zone,
    start: Seconds,
    count: u16,
) -> Result<String, Refusal>
    ensures ok { IfOk result (λ s. AreComing schedule.now zone.now start start count
        (string_bytes s)) }
    ensures memory { IfErr result (λ e. e ≡ OutOfMemory) }
{
    let mut text = String::new(alloc);
    let mut at = start;
    for _ in 0..count {
        match next_after(schedule, zone, at) {
            Some(t) => {
                push_step(alloc, &mut text, schedule, zone, start, at, t)?;
                at = t;
            }
            None => {
                text.push_str("none within 3,000 days\n")?;
                return Ok(text);
            }
        }
    }
    Ok(text)
}
