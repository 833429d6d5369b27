// A claimed Job is started.
use crate::machine::choice::Choice;
use crate::machine::task::{Again, Stage, Task};
use crate::machine::view::View;
use cj_base::{Refusal, TryCopy};
use cj_fence::{At, Call, Held, Ref};
use std::alloc::Global;

/// How many seconds a claimed Job is left to the sync that claimed it.
const HELP_AFTER: u64 = 3;

/// After how many milliseconds a Job is looked at again that is left to a newer version.
const LEFT_MS: u64 = 60_000;

// Whether the starting deadline of a held Job has passed.
fn is_late(at: &At, held: &Held, now: u64) -> bool {
    match at.cron.deadline {
        Some(deadline) => held.found.time.saturating_add(deadline) < now,
        None => false,
    }
}

// Since when this replica has seen the Job held.
fn since(task: &Task, held: &Held, now: u64) -> u64 {
    match &task.waits {
        Some((uid, since)) if uid.as_str() == held.job.uid.as_str() => *since,
        _ => now,
    }
}

// Whether a Job is held in a way that this version doesn't know.
fn is_unknown(task: &Task, held: &Held) -> bool {
    match &task.unknown_hold {
        Some(uid) => uid.as_str() == held.job.uid.as_str(),
        None => false,
    }
}

// A Job that another sync claimed is helped, once that one has had its time. One that is held in a
// way that this version doesn't know is left to a newer one.
fn help(
    alloc: Global,
    view: &View<'_>,
    task: &mut Task,
    at: &At,
    held: &Held,
    drops: &[Ref],
) -> Result<Choice, Refusal> {
    if is_unknown(task, held) {
        task.left_job = Some(held.job.try_copy(alloc)?);
        return Ok(Choice::End(Again::After(LEFT_MS)));
    }
    let since = since(task, held, view.now);
    let from = since.saturating_add(HELP_AFTER);
    if view.now < from {
        task.waits = Some((held.job.uid.try_copy(alloc)?, since));
        return Ok(Choice::End(Again::At(from)));
    }
    task.stage = Stage::Helping;
    // (where the clock was set back, all goes by a later moment than it says)
    let moment = view.now.min(view.clock);
    if is_late(at, held, moment) {
        let (job, version) = (
            held.job.try_copy(alloc)?,
            held.found.version.try_copy(alloc)?,
        );
        return Ok(Choice::Send(Call::Expire(job, version, moment)));
    }
    drop_or_start(alloc, held, drops)
}

// What is to go before it goes first; then the Job is started.
fn drop_or_start(alloc: Global, held: &Held, drops: &[Ref]) -> Result<Choice, Refusal> {
    match drops {
        [first, ..] => Ok(Choice::Send(Call::Delete(first.try_copy(alloc)?))),
        [] => Ok(Choice::Send(Call::Start(held.job.try_copy(alloc)?))),
    }
}

/// A claimed Job is started.
pub(crate) fn start(
    alloc: Global,
    view: &View<'_>,
    task: &mut Task,
    at: &At,
    held: &Held,
    drops: &[Ref],
) -> Result<Choice, Refusal> {
    match task.stage {
        Stage::Reading => help(alloc, view, task, at, held, drops),
        _ => drop_or_start(alloc, held, drops),
    }
}
