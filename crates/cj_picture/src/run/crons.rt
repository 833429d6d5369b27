// The CronJobs of a run, and its moments.
ghost use Rattle.std.specs.Prelude.{◌≡◌, IfErr};
ghost use Rattle.cj_base.specs.declared.refusal.Refusal.TheVariants.{OutOfMemory};

use crate::axis::Axis;
use crate::lanes::Lane;
use cj_calls::{Call, Entry, Reply};
use cj_report::told_moment;
use cj_table::Table;
use cj_types::{CronJob, Refusal, Shared, TryCopy};
use std::alloc::Global;

/// The moments that the calls of these entries tell.
pub(crate) fn axis_of(entries: &[Entry]) -> Axis {
    let mut axis = Axis::empty();
    for entry in entries {
        axis = axis.with(told_moment(entry.call()));
    }
    axis.whole()
}

fn written(entry: &Entry) -> Option<&Shared<CronJob>> {
    match (entry.call(), entry.answer()) {
        (Call::CreateCron(_, _), Ok(Reply::Cron(cron))) => Some(cron),
        (Call::UpdateCron(_), Ok(Reply::Cron(cron))) => Some(cron),
        _ => None,
    }
}

fn note(alloc: Global, crons: &mut Table<Shared<CronJob>>, entry: &Entry) -> Result<(), Refusal>
    ensures err { IfErr result (λ e. e ≡ OutOfMemory) }
{
    let Some(cron) = written(entry) else {
        return Ok(());
    };
    let key = cron.get().key.key().try_copy(alloc)?;
    crons.insert(key, cron.try_copy(alloc)?)
}

// The CronJobs that users wrote, by key, each as it was written last.
fn crons_of(alloc: Global, entries: &[Entry]) -> Result<Vec<Shared<CronJob>>, Refusal>
    ensures err { IfErr result (λ e. e ≡ OutOfMemory) }
{
    let mut crons = Table::new(alloc);
    for entry in entries {
        note(alloc, &mut crons, entry)?;
    }
    crons.list(alloc)
}

/// A lane for each CronJob that a user wrote, in the order of their keys.
pub(crate) fn lanes_of(alloc: Global, entries: &[Entry]) -> Result<Vec<Lane>, Refusal>
    ensures err { IfErr result (λ e. e ≡ OutOfMemory) }
{
    let mut lanes = Vec::new(alloc);
    for cron in crons_of(alloc, entries)? {
        let lane = Lane::new(alloc, cron);
        lanes.push(lane).map_err(|_| Refusal::OutOfMemory)?;
    }
    Ok(lanes)
}
