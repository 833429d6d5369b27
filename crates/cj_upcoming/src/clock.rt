// The schedule of a CronJob, and the zone whose clock it goes by.
ghost use Rattle.std.specs.Prelude.{◌≡◌, Some, option_copied};
ghost use Rattle.cj_schedule.specs.Grammar.{IsSchedule};
ghost use Rattle.cj_schedule.specs.Matches.{Sets};
ghost use Rattle.cj_zone.specs.Table.{zones_of};
ghost use Rattle.cj_upcoming.specs.Starts.{zone_for};

use cj_cluster::ClusterCron;
use cj_schedule::Schedule;
use cj_types::{CronSpec, Text};
use cj_zone::{Zone, ZoneTable};

/// The zone of that name, or UTC where none is named.
pub(crate) fn zone_for<'a>(zones: &'a ZoneTable, name: &Option<Text>) -> Option<&'a Zone>
    ensures { option_copied result ≡ zone_for name.now (zones_of zones.now) }
{
    match name {
        Some(name) => zones.get(name.as_str()),
        None => zones.get("UTC"),
    }
}

/// The schedule of a CronJob, if its text is one.
pub(crate) fn schedule_of(spec: &CronSpec) -> Option<Schedule>
    ensures found { (s : Sets) → result ≡ Some s → IsSchedule spec.now.schedule s }
    ensures only { (s : Sets) → IsSchedule spec.now.schedule s → result ≡ Some s }
{
    Schedule::parse(spec.schedule.as_str()).ok()
}

/// What the CronJob asks for.
pub(crate) fn spec_of(cron: &ClusterCron) -> &CronSpec
    ensures { result.now ≡ cron.now.cron.spec }
{
    cron.cron.get().spec.get()
}
