ghost use Rattle.std.specs.Prelude.{◌≡◌, Some, option_copied};
ghost use Rattle.cj_schedule.specs.Grammar.{IsSchedule};
ghost use Rattle.cj_schedule.specs.Matches.{Sets};
ghost use Rattle.cj_due.specs.Due.{due};
ghost use Rattle.cj_zone.specs.Table.{zones_of};
ghost use Rattle.cj_audit.specs.Times.{is_undue, zone_for};

use cj_schedule::Schedule;
use cj_types::{CronSpec, Seconds, Text};
use cj_zone::{Zone, ZoneTable, local};

/// The zone of that name, or UTC where none is named.
pub(crate) fn zone_for<'a>(zones: &'a ZoneTable, name: &Option<Text>) -> Option<&'a Zone>
    ensures { option_copied result ≡ zone_for name.now (zones_of zones.now) }
{
    match name {
        Some(name) => zones.get(name.as_str()),
        None => zones.get("UTC"),
    }
}

/// The schedule of a CronJob, if its text is one.
pub(crate) fn schedule_of(spec: &CronSpec) -> Option<Schedule>
    ensures found { (s : Sets) → result ≡ Some s → IsSchedule spec.now.schedule s }
    ensures only { (s : Sets) → IsSchedule spec.now.schedule s → result ≡ Some s }
{
    Schedule::parse(spec.schedule.as_str()).ok()
}

#[tactic(auto, unfolding(cj_due::specs::Due::due))]
fn is_due(schedule: &Schedule, zone: &Zone, time: Seconds) -> bool
    ensures { result ≡ due schedule.now zone.now time }
{
    let is_minute = time.get() % 60 == 0;
    is_minute && schedule.matches(local(zone, time))
}

/// Whether the schedule is not due at the time, where there is one in a zone.
pub(crate) fn is_undue(schedule: Option<&Schedule>, zone: Option<&Zone>, time: Seconds) -> bool
    ensures { result ≡ is_undue (option_copied schedule.entry) (option_copied zone.entry) time }
{
    match (schedule, zone) {
        (Some(schedule), Some(zone)) => !is_due(schedule, zone, time),
        _ => false,
    }
}
