// The starts of one CronJob.
ghost use Rattle.std.specs.Prelude.{◌≡◌, OnOk, IfErr};
ghost use Rattle.cj_zone.specs.Table.{zones_of};
ghost use Rattle.cj_upcoming.specs.Notes.{Notes, Exceeds};
ghost use Rattle.cj_upcoming.specs.Starts.{IsStartBy, IsStartOf};
ghost use Rattle.cj_upcoming.specs.declared.fault.StartsFault.TheVariants.{TooMany};

use crate::clock::{schedule_of, spec_of, zone_for};
use crate::fault::StartsFault;
use crate::start::Start;
use crate::times::note_times;
use crate::window::Window;
use cj_cluster::ClusterCron;
use cj_types::CronSpec;
use cj_zone::ZoneTable;
use std::collections::BTreeSet;

// Notes the starts of the spec of the CronJob at a place; a suspended one has none.
fn note_spec(
    zones: &ZoneTable,
    window: &Window,
    place: usize,
    spec: &CronSpec,
    most: usize,
    starts: &mut BTreeSet<Start>,
) -> Result<(), StartsFault>
    ensures ok { OnOk result (Notes (IsStartOf (zones_of zones.now) window.now place spec.now)
        starts.old starts.new) }
    ensures many { IfErr result (λ e. e ≡ TooMany → Exceeds most
        (IsStartOf (zones_of zones.now) window.now place spec.now) starts.old starts.new) }
{
    if spec.suspend {
        return Ok(());
    }
    let Some(schedule) = schedule_of(spec) else {
        return Ok(());
    };
    let Some(zone) = zone_for(zones, &spec.time_zone) else {
        return Ok(());
    };
    note_times(&schedule, zone, window, place, most, starts)
}

/// Notes the starts of the CronJob at a place; one that is suspended, being deleted or stuck has
/// none.
pub(crate) fn note_cron(
    zones: &ZoneTable,
    window: &Window,
    place: usize,
    cron: &ClusterCron,
    most: usize,
    starts: &mut BTreeSet<Start>,
) -> Result<(), StartsFault>
    ensures ok { OnOk result (Notes (IsStartBy (zones_of zones.now) window.now place cron.now)
        starts.old starts.new) }
    ensures many { IfErr result (λ e. e ≡ TooMany → Exceeds most
        (IsStartBy (zones_of zones.now) window.now place cron.now) starts.old starts.new) }
{
    if cron.marks.is_halted() {
        Ok(())
    } else {
        note_spec(zones, window, place, spec_of(cron), most, starts)
    }
}
