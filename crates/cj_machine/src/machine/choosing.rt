// What a sync does next, by how far it has come.

use crate::machine::choice::Choice;
use crate::machine::clearing::{list, tidy, to_clear};
use crate::machine::making::{hold, make, name_taken, not_adopted};
use crate::machine::planning::one_line_of;
use crate::machine::reading::{job_row, key_of, take_cron, value_of};
use crate::machine::starting::start;
use crate::machine::task::{Again, Stage, Task};
use crate::machine::view::View;
use cj_base::{Refusal, TryCopy};
use cj_control::read_cron;
use cj_fence::{Answer, At, Call, Job, Ref, Sync};
use std::alloc::Global;

// The CronJob as lists and watches told it.
fn cached_cron(
    alloc: Global,
    task: &mut Task,
    text: &str,
    is_cut: bool,
) -> Result<Choice, Refusal> {
    let Some(value) = value_of(alloc, text)? else {
        return Ok(Choice::End(Again::Never));
    };
    if !take_cron(alloc, task, &value)? {
        return Ok(Choice::End(Again::Never));
    }
    task.is_cut = is_cut;
    let row = match read_cron(alloc, &value) {
        Ok(row) => row,
        Err(refusal) => return unread(alloc, task, refusal),
    };
    let name = task.name.try_copy(alloc)?;
    Ok(Choice::Look(Call::CacheCron(name), Answer::Cron(Some(row.object))))
}

// A CronJob that says less than the protocol needs, or something else, is left alone.
fn unread(alloc: Global, task: &mut Task, refusal: Refusal) -> Result<Choice, Refusal> {
    match refusal {
        Refusal::OutOfMemory => Err(Refusal::OutOfMemory),
        Refusal::Invalid(faults) => {
            task.refused = Some(("InvalidSpec", one_line_of(alloc, &faults)?));
            Ok(Choice::End(Again::Never))
        }
        _ => Ok(Choice::End(Again::Never)),
    }
}

// A sync that has called nothing reads its CronJob.
fn fresh(alloc: Global, view: &View<'_>, task: &mut Task) -> Result<Choice, Refusal> {
    if task.is_live {
        return Ok(Choice::Send(Call::GetCron(task.name.try_copy(alloc)?)));
    }
    let is_cut = view.mirror.is_cut(&task.key);
    match view.mirror.cron(&task.key) {
        Some(text) => cached_cron(alloc, task, text, is_cut),
        None => Ok(Choice::End(Again::Never)),
    }
}

// A Job of `status.active` that lists and watches told to be dead or started, which stays so.
fn settled(alloc: Global, view: &View<'_>, job: &Ref) -> Result<Option<Job>, Refusal> {
    let Some(key) = key_of(alloc, job.name.as_str())? else {
        return Ok(None);
    };
    let Some(text) = view.mirror.job(&key) else {
        return Ok(None);
    };
    let Some(value) = value_of(alloc, text)? else {
        return Ok(None);
    };
    let Some(row) = job_row(alloc, &value)? else {
        return Ok(None);
    };
    let found = row.object;
    let waits = found.held && !found.finished && !found.deleting;
    if !waits && found.uid.as_str() == job.uid.as_str() {
        Ok(Some(found))
    } else {
        Ok(None)
    }
}

// A Job of `status.active` is read.
fn look(alloc: Global, view: &View<'_>, job: &Ref) -> Result<Choice, Refusal> {
    let name = job.name.try_copy(alloc)?;
    match settled(alloc, view, job)? {
        Some(found) => Ok(Choice::Look(Call::CacheJob(name), Answer::Job(Some(found)))),
        None => Ok(Choice::Send(Call::GetJob(name))),
    }
}

// Each Job of the status is dead or was started.
fn ready(alloc: Global, view: &View<'_>, task: &mut Task, at: &At) -> Result<Choice, Refusal> {
    match task.stage {
        Stage::Reading => make(alloc, view, task, at),
        Stage::Creating => name_taken(alloc, task, at),
        Stage::Asking => not_adopted(alloc, task, at),
        Stage::Starting => tidy(alloc, view, task, at),
        Stage::Helping => Ok(Choice::End(Again::After(0))),
        Stage::Listing => Ok(Choice::End(Again::Failed)),
        Stage::Tidying => list(alloc, view, task),
    }
}

// How many milliseconds the next sync waits after so many claims in a row that somebody else's
// write refused.
fn conflict_wait(conflicts: u64) -> u64 {
    if conflicts < 8 { 0 } else { 1_000 }
}

// Whether a sync was reading: the answer that ended it told nothing of what was to be read.
fn was_reading(task: &Task) -> bool {
    matches!(task.stage, Stage::Reading | Stage::Asking)
}

// What ended a sync says when the next one looks.
fn over(task: &Task) -> Again {
    if is_conflict(task) {
        return Again::Live(conflict_wait(task.conflicts));
    }
    if was_reading(task) {
        return Again::Failed;
    }
    match task.status {
        404 | 409 | 422 => Again::After(300),
        _ => Again::Failed,
    }
}

/// Whether a sync ended since its claim met another version of the CronJob.
pub(crate) fn is_conflict(task: &Task) -> bool {
    task.stage == Stage::Starting && !task.has_claimed && task.status == 409
}

/// What a sync does next, by how far it has come.
pub(crate) fn choose(
    alloc: Global,
    view: &View<'_>,
    task: &mut Task,
    sync: &Sync,
) -> Result<Choice, Refusal> {
    match sync {
        Sync::Fresh => fresh(alloc, view, task),
        Sync::Looking(_, todo, _) => match todo.as_slice() {
            [first, ..] => look(alloc, view, first),
            [] => Ok(Choice::End(Again::Failed)),
        },
        Sync::Ready(at) => ready(alloc, view, task, at),
        Sync::Holding(at, held) => hold(alloc, view, task, at, held),
        Sync::Starting(at, held, drops) => { start(alloc, view, task, at, held, drops.as_slice()) }
        Sync::Tidying(_, garbage, finished) => {
            to_clear(alloc, view, task, garbage.as_slice(), finished.as_slice())
        }
        Sync::Gone => Ok(Choice::End(Again::Never)),
        Sync::Over => Ok(Choice::End(over(task))),
    }
}
