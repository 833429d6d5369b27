// Whether a schedule comes at all.
ghost use Rattle.std.specs.Prelude.{◌≡◌, Some, option_copied};
ghost use Rattle.cj_schedule.specs.Grammar.{IsSchedule};
ghost use Rattle.cj_schedule.specs.Matches.{Sets};
ghost use Rattle.cj_zone.specs.declared.zone.Zone.{Zone};
ghost use Rattle.cj_zone.specs.Table.{zones_of};
ghost use Rattle.cj_answers.specs.Coming.{IsComing, IsScheduleAdvice, look_from, spec_zone};

use cj_due::next_after;
use cj_schedule::Schedule;
use cj_types::{CronSpec, Seconds, Text};
use cj_zone::{Zone, ZoneTable};

// A schedule that comes at all comes within 3,000 days of any start: 29 February comes within eight
// years.
const LOOK_FROM: u64 = 1_704_067_200;

// The beginning of 2024.
fn look_start() -> Seconds
    ensures { result ≡ look_from }
{
    match Seconds::new(LOOK_FROM) {
        Some(start) => start,
        None => unreachable!(),
    }
}

fn coming_after(schedule: &Schedule, zone: &Zone, start: Seconds) -> &'static str
    requires { start ≡ look_from }
    ensures { IsComing schedule.now zone.now result.now }
{
    match next_after(schedule, zone, start) {
        Some(_) => "",
        None => "spec.schedule: comes at no time within 3,000 days of 2024-01-01T00:00:00Z\n",
    }
}

fn coming(schedule: &Schedule, zone: &Zone) -> &'static str
    ensures { IsComing schedule.now zone.now result.now }
{
    coming_after(schedule, zone, look_start())
}

fn text_coming(text: &str, zone: &Zone) -> &'static str
    ensures { (sets : Sets) → IsSchedule text.now sets → IsComing sets zone.now result.now }
{
    match Schedule::parse(text) {
        Ok(schedule) => coming(&schedule, zone),
        Err(_) => "",
    }
}

// The zone of that name, or UTC where none is named.
fn zone_of<'t>(zones: &'t ZoneTable, name: &Option<Text>) -> Option<&'t Zone>
    ensures { option_copied result ≡ spec_zone name.now (zones_of zones.now) }
{
    match name {
        Some(name) => zones.get(name.as_str()),
        None => zones.get("UTC"),
    }
}

/// A line where the schedule of a CronJob never comes; none where it comes.
pub fn schedule_advice(zones: &ZoneTable, spec: &CronSpec) -> &'static str
    ensures { IsScheduleAdvice spec.now (zones_of zones.now) result.now }
{
    match zone_of(zones, &spec.time_zone) {
        Some(zone) => text_coming(spec.schedule.as_str(), zone),
        None => "",
    }
}
