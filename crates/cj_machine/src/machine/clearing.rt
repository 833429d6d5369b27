// The status without the dead, and the Jobs that go.
use crate::machine::choice::Choice;
use crate::machine::listing::{later_success, loses_success, rows_of};
use crate::machine::reading::{has_unknown_hold, key_of, value_of};
use crate::machine::task::{Again, Stage, Task};
use crate::machine::view::{View, rank};
use cj_base::{Refusal, Same, TryCopy};
use cj_control::parts;
use cj_fence::{Answer, At, Call, Ref, Table, Tidy};
use std::alloc::Global;

// After how many milliseconds a CronJob is looked at again of which a Job runs that its status
// doesn't name.
const HELD_BACK_MS: u64 = 5_000;

/// The Jobs of the CronJob are listed.
pub(crate) fn list(alloc: Global, view: &View<'_>, task: &mut Task) -> Result<Choice, Refusal> {
    task.stage = Stage::Tidying;
    let rows = rows_of(alloc, view, &task.key)?;
    Ok(Choice::Look(Call::ListJobs, Answer::Jobs(Table::from_rows(rows))))
}

/// The status is written without the dead, and with a later success, where there are any; then the
/// Jobs are listed.
pub(crate) fn tidy(
    alloc: Global,
    view: &View<'_>,
    task: &mut Task,
    at: &At,
) -> Result<Choice, Refusal> {
    let success = later_success(alloc, view, &task.key, at)?;
    let is_clean = success.is_none() && at.alive.same(&at.cron.active);
    if is_clean || (is_due_soon(view, task) && !loses(alloc, view, task, at)?) {
        return list(alloc, view, task);
    }
    task.stage = Stage::Tidying;
    let tidy = Tidy {
        name: at.name.try_copy(alloc)?,
        uid: at.cron.uid.try_copy(alloc)?,
        version: at.cron.version.try_copy(alloc)?,
        active: at.alive.try_copy(alloc)?,
        success,
    };
    Ok(Choice::Send(Call::Tidy(tidy)))
}

// Whether the history limits let a Job go that succeeded later than the status says.
fn loses(alloc: Global, view: &View<'_>, task: &Task, at: &At) -> Result<bool, Refusal> {
    match &task.plan {
        Some(plan) => loses_success(alloc, view, &task.key, plan.surplus.as_slice(), at),
        None => Ok(false),
    }
}

// Whether a time is due within a minute, whose claim writes the status anyway.
fn is_due_soon(view: &View<'_>, task: &Task) -> bool {
    match next_time(task) {
        Some(next) => next <= view.now.saturating_add(60) && task.stage == Stage::Reading,
        None => false,
    }
}

fn next_time(task: &Task) -> Option<u64> {
    match &task.plan {
        Some(plan) => plan.next,
        None => None,
    }
}

// Whether the history limits let a Job go.
fn is_surplus(task: &Task, job: &Ref) -> bool {
    let (_, name) = parts(job.name.as_str());
    match &task.plan {
        Some(plan) => plan.surplus.iter().any(|it| it.as_str() == name),
        None => false,
    }
}

// Whether a Job is held in a way that this version doesn't know, as lists and watches told it.
fn is_unknown(alloc: Global, view: &View<'_>, job: &Ref) -> Result<bool, Refusal> {
    let Some(key) = key_of(alloc, job.name.as_str())? else {
        return Ok(false);
    };
    let Some(text) = view.mirror.job(&key) else {
        return Ok(false);
    };
    match value_of(alloc, text)? {
        Some(value) => Ok(has_unknown_hold(&value)),
        None => Ok(false),
    }
}

// The first of the garbage. A Job that is held in a way that this version doesn't know is left to a
// newer one.
fn first_garbage<'a>(
    alloc: Global,
    view: &View<'_>,
    task: &mut Task,
    garbage: &'a [Ref],
) -> Result<Option<&'a Ref>, Refusal> {
    for job in garbage {
        if !is_unknown(alloc, view, job)? {
            return Ok(Some(job));
        }
        task.left_job = Some(job.try_copy(alloc)?);
    }
    Ok(None)
}

// The first of the finished Jobs that the history limits let go.
fn first_finished<'a>(task: &Task, finished: &'a [Ref]) -> Option<&'a Ref> {
    finished.iter().find(|job| is_surplus(task, job))
}

// When the CronJob is due again; soon where a Job was to be made, and another one runs.
fn next(view: &View<'_>, task: &Task) -> Again {
    if task.is_held_back {
        return Again::After(HELD_BACK_MS);
    }
    match next_time(task) {
        Some(time) => {
            let rank = rank(view.options.replica.as_str(), task.name.as_str());
            Again::At(time.saturating_add(rank))
        }
        None => Again::Never,
    }
}

/// A Job is deleted, or the sync ends.
pub(crate) fn to_clear(
    alloc: Global,
    view: &View<'_>,
    task: &mut Task,
    garbage: &[Ref],
    finished: &[Ref],
) -> Result<Choice, Refusal> {
    let first = first_garbage(alloc, view, task, garbage)?;
    match first.or(first_finished(task, finished)) {
        Some(job) => Ok(Choice::Send(Call::Delete(job.try_copy(alloc)?))),
        None => Ok(Choice::End(next(view, task))),
    }
}
