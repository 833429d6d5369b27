//! A listing of all objects, as a reflector makes it at the start and where events have expired.
ghost use Rattle.std.specs.Prelude.{IfErr};
ghost use Rattle.cj_hub.specs.Runs.{Adds, FoundFull, TellsFull};
ghost use Rattle.cj_informer.specs.Outcomes.{HasCaughtUp, HasFed, HasListed, HasListedJobs, IsStepRefusal};

use crate::adding::add_listed;
use crate::asking::{feed, say};
use cj_calls::{Call, Reply};
use cj_hub::{Desk, Pass};
use cj_types::{CronJob, Job, Max, Refusal, Shared, Version};
use std::alloc::Global;

// Feeds until the listings know of the writes up to the version, or one of them brings nothing
// more.
fn feed_up_to<D: Desk>(
    desk: &mut D,
    pass: &mut Pass,
    max: Max,
    wanted: Version,
) -> Result<(), Refusal>
    ensures adds { Adds D.tells (D.history desk.old) (D.history desk.new) pass.old pass.new
        (HasFed max wanted result) }
    ensures which { IfErr result IsStepRefusal }
    ensures full { TellsFull result
        (FoundFull D.tells (D.history desk.new) (D.refused_full desk.new)) }
{
    let mut fed = feed(desk, pass, max)?;
    while fed.get() < wanted.get() {
        let next = feed(desk, pass, max)?;
        if next.get() <= fed.get() {
            return Ok(());
        }
        fed = next;
    }
    Ok(())
}

// Feeds up to the version seen, then adds each key that is concerned.
fn catch_up<D: Desk>(
    desk: &mut D,
    alloc: Global,
    pass: &mut Pass,
    max: Max,
    seen: Version,
    crons: &[Shared<CronJob>],
    jobs: &[Shared<Job>],
) -> Result<Version, Refusal>
    ensures adds { Adds D.tells (D.history desk.old) (D.history desk.new) pass.old pass.new
        (HasCaughtUp max seen crons.now jobs.now result) }
    ensures which { IfErr result IsStepRefusal }
    ensures full { TellsFull result
        (FoundFull D.tells (D.history desk.new) (D.refused_full desk.new)) }
{
    feed_up_to(desk, pass, max, seen)?;
    add_listed(desk, alloc, pass, crons, jobs)?;
    Ok(seen)
}

// Lists the Jobs, feeds, and adds each key that is concerned.
fn list_jobs<D: Desk>(
    desk: &mut D,
    alloc: Global,
    pass: &mut Pass,
    max: Max,
    seen: Version,
    crons: &[Shared<CronJob>],
) -> Result<Version, Refusal>
    ensures adds { Adds D.tells (D.history desk.old) (D.history desk.new) pass.old pass.new
        (HasListedJobs max seen crons.now result) }
    ensures which { IfErr result IsStepRefusal }
    ensures full { TellsFull result
        (FoundFull D.tells (D.history desk.new) (D.refused_full desk.new)) }
{
    let receipt = say(desk, pass, Call::ListJobs)?;
    match receipt.answer() {
        Ok(Reply::Jobs(jobs, _version)) => {
            catch_up(desk, alloc, pass, max, seen, crons, jobs.as_slice())
        }
        _ => unreachable!(),
    }
}

// Lists both kinds, feeds, and adds each key that is concerned. The version is that of the
// earlier listing, so that no event between the two is missed.
pub(crate) fn list<D: Desk>(
    desk: &mut D,
    alloc: Global,
    pass: &mut Pass,
    max: Max,
) -> Result<Version, Refusal>
    ensures adds { Adds D.tells (D.history desk.old) (D.history desk.new) pass.old pass.new
        (HasListed max result) }
    ensures which { IfErr result IsStepRefusal }
    ensures full { TellsFull result
        (FoundFull D.tells (D.history desk.new) (D.refused_full desk.new)) }
{
    let receipt = say(desk, pass, Call::ListCrons)?;
    match receipt.answer() {
        Ok(Reply::Crons(crons, version)) => {
            list_jobs(desk, alloc, pass, max, *version, crons.as_slice())
        }
        _ => unreachable!(),
    }
}
