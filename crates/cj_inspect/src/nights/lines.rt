// What the clock of a CronJob does with the local times that its schedule names, line by line.
ghost use Rattle.std.specs.Prelude.{◌≡◌, [], IfErr, IfOk, codes, string_bytes};
ghost use Rattle.cj_base.specs.declared.refusal.Refusal.TheVariants.{OutOfMemory};
ghost use Rattle.cj_schedule.specs.Grammar.{IsSchedule};
ghost use Rattle.cj_schedule.specs.Matches.{Sets};
ghost use Rattle.cj_upcoming.specs.Changes.{changes};
ghost use Rattle.cj_upcoming.specs.Named.{AreNamedLines};
ghost use Rattle.cj_zone.specs.Table.{zones_of};
ghost use Rattle.cj_zone.specs.Zones.{utc_zone};
ghost use Rattle.cj_inspect.specs.Nights.{IsNight, IsNightOf, IsZoneNight};

use crate::nights::look::{Look, look_after, look_last};
use cj_schedule::Schedule;
use cj_types::{CronJob, CronSpec, Refusal, Seconds};
use cj_upcoming::named_changes_text;
use cj_zone::{Zone, ZoneTable};
use std::alloc::Global;

// Of a schedule.
fn schedule_lines(
    alloc: Global,
    schedule: &Schedule,
    zone: &Zone,
    after: Seconds,
    last: Seconds,
) -> Result<String, Refusal>
    ensures ok { IfOk result (λ s. AreNamedLines schedule.now zone.now (utc_zone (codes "UTC"))
        (changes zone.now after last) (string_bytes s)) }
    ensures err { IfErr result (λ e. e ≡ OutOfMemory) }
{
    let table = ZoneTable::new(alloc)?;
    named_changes_text(alloc, schedule, zone, table.default_zone(), after, last)
}

// Of a text that is a schedule.
fn text_lines(
    alloc: Global,
    text: &str,
    zone: &Zone,
    after: Seconds,
    last: Seconds,
) -> Result<String, Refusal>
    ensures ok { IfOk result (λ s. (sets : Sets) → IsSchedule text.now sets →
        AreNamedLines sets zone.now (utc_zone (codes "UTC")) (changes zone.now after last)
        (string_bytes s)) }
    ensures err { IfErr result (λ e. e ≡ OutOfMemory) }
{
    match Schedule::parse(text) {
        Ok(schedule) => schedule_lines(alloc, &schedule, zone, after, last),
        Err(_) => Ok(String::new(alloc)),
    }
}

// Of a schedule's text, on the clock of the zone of that name.
fn zone_lines(
    alloc: Global,
    zones: &ZoneTable,
    name: &str,
    text: &str,
    after: Seconds,
    last: Seconds,
) -> Result<String, Refusal>
    ensures ok { IfOk result (λ s. IsZoneNight name.now text.now (zones_of zones.now) after last
        (string_bytes s)) }
    ensures err { IfErr result (λ e. e ≡ OutOfMemory) }
{
    match zones.get(name) {
        Some(zone) => text_lines(alloc, text, zone, after, last),
        None => Ok(String::new(alloc)),
    }
}

// Of what a CronJob asks for.
fn spec_lines(
    alloc: Global,
    zones: &ZoneTable,
    spec: &CronSpec,
    after: Seconds,
    last: Seconds,
) -> Result<String, Refusal>
    ensures ok { IfOk result (λ s. IsNight spec.now.time_zone spec.now.schedule
        (zones_of zones.now) after last (string_bytes s)) }
    ensures err { IfErr result (λ e. e ≡ OutOfMemory) }
{
    match &spec.time_zone {
        Some(name) => {
            let (name, text) = (name.as_str(), spec.schedule.as_str());
            zone_lines(alloc, zones, name, text, after, last)
        }
        None => Ok(String::new(alloc)),
    }
}

/// A line for each change of a CronJob's clock by which local times are skipped, or come twice,
/// that its schedule names.
pub(crate) fn night_lines(
    alloc: Global,
    zones: &ZoneTable,
    look: &Look,
    cron: &CronJob,
) -> Result<String, Refusal>
    ensures ok { IfOk result (λ s. IsNightOf (zones_of zones.now) look.now cron.now
        (string_bytes s)) }
    ensures err { IfErr result (λ e. e ≡ OutOfMemory) }
{
    let (after, last) = (look_after(look, cron), look_last(look, cron));
    spec_lines(alloc, zones, cron.spec.get(), after, last)
}
