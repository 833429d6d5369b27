// What a sync says of what lasts from one sync to the next.
use crate::machine::choosing::is_conflict;
use crate::machine::driver::Driver;
use crate::machine::memo::Memo;
use crate::machine::saying::{tell_conflict, tell_left_job, tell_missed, tell_nameless};
use crate::machine::task::{Stage, Task};
use cj_base::{Refusal, Text, TryCopy};
use std::alloc::Global;

/// For how many seconds a time may be planned and not claimed before people are told.
pub(crate) const CLAIMED_WITHIN: u64 = 60;

fn memo<'d>(driver: &'d Driver, task: &Task) -> Option<&'d Memo> {
    driver.memos.get(&task.key)
}

/// Says that claims are refused by conflicts, at the second in a row; how many are by now.
pub(crate) fn say_conflict(
    driver: &mut Driver,
    alloc: Global,
    task: &Task,
) -> Result<u64, Refusal> {
    if !is_conflict(task) {
        let is_over = task.has_claimed || task.due == 0;
        return Ok(if is_over { 0 } else { task.conflicts });
    }
    driver.numbers.conflicted();
    let conflicts = task.conflicts.saturating_add(1);
    if conflicts == 2 {
        tell_conflict(alloc, driver, task, conflicts)?;
    }
    Ok(conflicts)
}

/// Says that a time that was planned before this sync was not claimed within a minute, once; the
/// time that is planned now, and the last one of which it was said.
pub(crate) fn say_missed(
    driver: &mut Driver,
    alloc: Global,
    task: &Task,
) -> Result<(u64, u64), Refusal> {
    let (due, missed) = match memo(driver, task) {
        Some(memo) => (memo.due, memo.missed),
        None => (0, 0),
    };
    if task.plan.is_none() {
        return Ok((due, missed));
    }
    let planned = if task.has_claimed { 0 } else { task.due };
    let is_late = due.saturating_add(CLAIMED_WITHIN) <= driver.now();
    let is_claimed = due <= task.last;
    if due <= missed || is_claimed || !is_late {
        return Ok((planned, missed));
    }
    driver.numbers.missed = driver.numbers.missed.saturating_add(1);
    tell_missed(alloc, driver, task, due)?;
    Ok((planned, due))
}

/// Says that references of `status.active` name no Job, once until there are none; whether there
/// are.
pub(crate) fn say_nameless(
    driver: &mut Driver,
    alloc: Global,
    task: &Task,
) -> Result<bool, Refusal> {
    if task.nameless == 0 {
        return Ok(false);
    }
    let was_told = match memo(driver, task) {
        Some(memo) => memo.has_nameless,
        None => false,
    };
    if !was_told {
        tell_nameless(alloc, driver, task, task.nameless)?;
    }
    Ok(true)
}

// The uid of the Job of which people were told last that it is left to a newer version, until a
// sync has listed the Jobs and left none.
fn last_left_job(driver: &Driver, alloc: Global, task: &Task) -> Result<Option<Text>, Refusal> {
    let Some(memo) = memo(driver, task) else {
        return Ok(None);
    };
    match &memo.left_job {
        Some(uid) if task.stage != Stage::Tidying => Ok(Some(uid.try_copy(alloc)?)),
        _ => Ok(None),
    }
}

/// Says of a Job that it is left to a newer version, once; its uid.
pub(crate) fn say_left_job(
    driver: &mut Driver,
    alloc: Global,
    task: &Task,
) -> Result<Option<Text>, Refusal> {
    let Some(job) = &task.left_job else {
        return last_left_job(driver, alloc, task);
    };
    let was_told = match memo(driver, task) {
        Some(memo) => match &memo.left_job {
            Some(uid) => uid.as_str() == job.uid.as_str(),
            None => false,
        },
        None => false,
    };
    if !was_told {
        tell_left_job(alloc, driver, task, job.name.as_str())?;
    }
    Ok(Some(job.uid.try_copy(alloc)?))
}
