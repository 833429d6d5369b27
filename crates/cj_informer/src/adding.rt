//! Keys that are added to the work queue.
ghost use Rattle.std.specs.Prelude.{[], ◌∷◌, IfErr};
ghost use Rattle.std.specs.List.{filter_map};
ghost use Rattle.cj_hub.specs.Runs.{Adds, FoundFull, TellsFull};
ghost use Rattle.cj_informer.specs.Exchanges.{Goes};
ghost use Rattle.cj_informer.specs.Informs.{adds, add_both};
ghost use Rattle.cj_informer.specs.Outcomes.{IsStepRefusal};

use crate::asking::add;
use crate::concerns::Concerns;
use cj_hub::{Desk, Pass};
use cj_types::{CronJob, Job, Refusal, Shared};
use std::alloc::Global;

// Adds the key of the CronJob that the item concerns, if there is one.
fn add_one<D: Desk, T: Concerns>(
    desk: &mut D,
    alloc: Global,
    pass: &mut Pass,
    item: &T,
) -> Result<(), Refusal>
    ensures adds { Adds D.tells (D.history desk.old) (D.history desk.new) pass.old pass.new
        (Goes (adds (filter_map T.concerned (item.now ∷ []))) result) }
    ensures which { IfErr result IsStepRefusal }
    ensures full { TellsFull result
        (FoundFull D.tells (D.history desk.new) (D.refused_full desk.new)) }
{
    match item.key(alloc) {
        Ok(Some(key)) => add(desk, pass, key),
        Ok(None) => Ok(()),
        Err(refusal) => Err(refusal),
    }
}

// Adds the key of each item that concerns a CronJob.
pub(crate) fn add_all<D: Desk, T: Concerns>(
    desk: &mut D,
    alloc: Global,
    pass: &mut Pass,
    items: &[T],
) -> Result<(), Refusal>
    ensures adds { Adds D.tells (D.history desk.old) (D.history desk.new) pass.old pass.new
        (Goes (adds (filter_map T.concerned items.now)) result) }
    ensures which { IfErr result IsStepRefusal }
    ensures full { TellsFull result
        (FoundFull D.tells (D.history desk.new) (D.refused_full desk.new)) }
{
    for item in items {
        add_one(desk, alloc, pass, item)?;
    }
    Ok(())
}

// Adds the key of each CronJob, and of the owner of each Job that has one.
pub(crate) fn add_listed<D: Desk>(
    desk: &mut D,
    alloc: Global,
    pass: &mut Pass,
    crons: &[Shared<CronJob>],
    jobs: &[Shared<Job>],
) -> Result<(), Refusal>
    ensures adds { Adds D.tells (D.history desk.old) (D.history desk.new) pass.old pass.new
        (Goes (add_both crons.now jobs.now) result) }
    ensures which { IfErr result IsStepRefusal }
    ensures full { TellsFull result
        (FoundFull D.tells (D.history desk.new) (D.refused_full desk.new)) }
{
    add_all(desk, alloc, pass, crons)?;
    add_all(desk, alloc, pass, jobs)
}
