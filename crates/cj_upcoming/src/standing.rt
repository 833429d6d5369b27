// Whether a CronJob ever starts something.
ghost use Rattle.cj_zone.specs.Table.{zones_of};
ghost use Rattle.cj_upcoming.specs.Standings.{IsStanding, IsStandingOf};

use crate::clock::{schedule_of, spec_of, zone_for};
use crate::times::due_from;
use cj_base::Seconds;
use cj_cluster::ClusterCron;
use cj_types::CronSpec;
use cj_zone::ZoneTable;

/// Whether a CronJob ever starts something.
#[derive(Clone, Copy, Debug, PartialEq, Eq)]
pub enum Standing {
    /// Its schedule comes within 3,000 days.
    Comes,
    /// It is suspended.
    Suspended,
    /// Its schedule comes at no time within 3,000 days.
    Never,
    /// Its text is no schedule, or it names a zone that isn't given.
    Unread,
    /// It is being deleted.
    Deleting,
    /// It is stuck: a reference in its `status.active` names no Job.
    Stuck,
}

// What becomes of a CronJob of that spec from an instant on.
fn spec_standing(zones: &ZoneTable, from: Seconds, spec: &CronSpec) -> Standing
    ensures { IsStanding (zones_of zones.now) from spec.now result }
{
    if spec.suspend {
        return Standing::Suspended;
    }
    let Some(schedule) = schedule_of(spec) else {
        return Standing::Unread;
    };
    let Some(zone) = zone_for(zones, &spec.time_zone) else {
        return Standing::Unread;
    };
    match due_from(&schedule, zone, from) {
        Some(_) => Standing::Comes,
        None => Standing::Never,
    }
}

/// What becomes of a CronJob from an instant on.
pub(crate) fn standing_of(zones: &ZoneTable, from: Seconds, cron: &ClusterCron) -> Standing
    ensures { IsStandingOf (zones_of zones.now) from cron.now result }
{
    match (cron.marks.is_deleting, cron.marks.is_stuck) {
        (true, _) => Standing::Deleting,
        (false, true) => Standing::Stuck,
        (false, false) => spec_standing(zones, from, spec_of(cron)),
    }
}
