ghost use Rattle.std.specs.Prelude.{◌≡◌, IfOk, IfErr, OnOk};
ghost use Rattle.cj_zone.specs.Table.{zones_of};
ghost use Rattle.cj_upcoming.specs.Notes.{Notes, Exceeds};
ghost use Rattle.cj_upcoming.specs.Upcoming.{IsStart, IsUpcoming, HasMore};
ghost use Rattle.cj_upcoming.specs.declared.fault.StartsFault.TheVariants.{TooMany};

use crate::cron::note_cron;
use crate::fault::StartsFault;
use crate::start::Start;
use crate::starts::Starts;
use crate::window::Window;
use cj_cluster::ClusterCron;
use cj_types::Shared;
use cj_zone::ZoneTable;
use std::alloc::Global;
use std::collections::BTreeSet;

// Notes the starts of the CronJobs.
fn note_crons(
    zones: &ZoneTable,
    window: &Window,
    crons: &[Shared<ClusterCron>],
    most: usize,
    starts: &mut BTreeSet<Start>,
) -> Result<(), StartsFault>
    ensures ok { OnOk result (Notes (IsStart (zones_of zones.now) window.now crons.now)
        starts.old starts.new) }
    ensures many { IfErr result (λ e. e ≡ TooMany → Exceeds most
        (IsStart (zones_of zones.now) window.now crons.now) starts.old starts.new) }
{
    for (place, cron) in crons.iter().enumerate() {
        note_cron(zones, window, place, cron.get(), most, starts)?;
    }
    Ok(())
}

/// What starts in a window, of CronJobs: exactly the instants of the window at which one that isn't
/// suspended, being deleted or stuck is due by its schedule, on the clock of its zone, each with
/// the place of that CronJob, in the order of times and then of places.
///
/// `TooMany` where they are more than `most`, `Memory` where memory is wanting.
pub fn upcoming(
    alloc: Global,
    zones: &ZoneTable,
    window: &Window,
    crons: &[Shared<ClusterCron>],
    most: usize,
) -> Result<Starts, StartsFault>
    ensures ok { IfOk result (IsUpcoming (zones_of zones.now) window.now crons.now) }
    ensures many { IfErr result (λ e. e ≡ TooMany →
        HasMore (zones_of zones.now) window.now crons.now most) }
{
    let mut starts = BTreeSet::new(alloc);
    note_crons(zones, window, crons, most, &mut starts)?;
    Starts::of_set(alloc, starts)
}
