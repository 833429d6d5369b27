// A sync ends, and its key waits for the next one.

use crate::machine::driver::Driver;
use crate::machine::error_log::ErrorLog;
use crate::machine::lasting::{
    CLAIMED_WITHIN, say_conflict, say_left_job, say_missed, say_nameless,
};
use crate::machine::memo::Memo;
use crate::machine::saying::{say_held_back, say_left, say_why};
use crate::machine::steps;
use crate::machine::task::{Again, Task};
use crate::machine::walking::Went;
use cj_base::{Millis, Refusal, Seconds, Text, TryCopy};
use cj_control::Ledger;
use cj_types::Key;
use std::alloc::Global;
use std::mem;

/// How many seconds an answer is waited for. A transport says before that that none came.
const PATIENCE: u64 = 300;

// After how many seconds a sync that could plan nothing is tried again at the latest.
const UNPLANNED_FOR: u64 = 60;

// A moment some milliseconds after the second.
fn after(now: u64, wait: u64) -> u64 {
    now.saturating_mul(1_000).saturating_add(wait)
}

/// The key is worked on no more, and waits for its next time.
pub(crate) fn finish_key(driver: &mut Driver, key: &Key, again: &Again) -> Result<(), Refusal> {
    if !driver.queue.is_processing(key) {
        return Ok(());
    }
    let now = driver.now();
    match again {
        Again::Never => driver.queue.finish_ok(key, None),
        Again::At(second) => driver
            .queue
            .finish_ok(key, Some(second.saturating_mul(1_000))),
        Again::After(wait) => driver.queue.finish_ok(key, Some(after(now, *wait))),
        Again::Live(wait) => driver.queue.finish_ok(key, Some(after(now, *wait))),
        Again::Failed => match Seconds::new(now) {
            Some(now) => driver.queue.finish_retry(key, Millis::from(now)),
            None => driver.queue.finish_ok(key, None),
        },
    }
}

// When a sync that failed is tried again at the latest, however long the queue's delay has become:
// each minute where it could plan nothing; else a minute after the time that it didn't claim, then
// each minute, and at its next time.
fn latest(task: &Task, now: u64) -> Option<u64> {
    let next = match &task.plan {
        Some(plan) => plan.next,
        None => return Some(now.saturating_add(UNPLANNED_FOR)),
    };
    if task.due == 0 {
        return next;
    }
    let minute = task.due.max(now).saturating_add(CLAIMED_WITHIN);
    let late = task.due.saturating_add(CLAIMED_WITHIN);
    let pending = if now < late { late } else { minute };
    match next {
        Some(next) => Some(next.min(pending)),
        None => Some(pending),
    }
}

fn wake_at_latest(driver: &mut Driver, task: &Task, again: &Again) -> Result<(), Refusal> {
    let now = driver.now();
    match (again, latest(task, now)) {
        (Again::Failed, Some(at)) => driver.queue.add_after(&task.key, at.saturating_mul(1_000)),
        _ => Ok(()),
    }
}

// Whether people were told already that this version of the CronJob is left alone.
fn was_left(driver: &Driver, task: &Task) -> bool {
    match driver.memos.get(&task.key) {
        Some(memo) => match &memo.left {
            Some(version) => version.as_str() == task.parts.head.version.as_str(),
            None => false,
        },
        None => false,
    }
}

// In which minute it was told last why no Job is started.
fn told_minute(driver: &Driver, task: &Task) -> u64 {
    match driver.memos.get(&task.key) {
        Some(memo) => memo.minute,
        None => 0,
    }
}

// Says that the CronJob is left alone, once for a version of it; that version.
fn say_refusal(driver: &mut Driver, alloc: Global, task: &Task) -> Result<Option<Text>, Refusal> {
    let Some((reason, words)) = &task.refused else {
        return Ok(None);
    };
    if !was_left(driver, task) {
        say_left(alloc, driver, task, reason, words.as_str())?;
    }
    Ok(Some(task.parts.head.version.try_copy(alloc)?))
}

// Says why no Job is started, once a minute; that minute.
fn say_reason(driver: &mut Driver, alloc: Global, task: &Task) -> Result<u64, Refusal> {
    let last = told_minute(driver, task);
    let Some(plan) = &task.plan else {
        return Ok(last);
    };
    if plan.reason.is_none() && !task.is_held_back {
        return Ok(0);
    }
    let minute = driver.now() / 60;
    if minute == last {
        return Ok(minute);
    }
    match plan.reason {
        Some(reason) if !task.is_held_back => say_why(alloc, driver, task, reason)?,
        _ => say_held_back(alloc, driver, task)?,
    }
    Ok(minute)
}

// What is kept of the CronJob for its next sync.
fn keep(driver: &mut Driver, alloc: Global, task: &mut Task, again: &Again) -> Result<(), Refusal> {
    let left = say_refusal(driver, alloc, task)?;
    let minute = say_reason(driver, alloc, task)?;
    let (due, missed) = say_missed(driver, alloc, task)?;
    let has_nameless = say_nameless(driver, alloc, task)?;
    let left_job = say_left_job(driver, alloc, task)?;
    let conflicts = say_conflict(driver, alloc, task)?;
    let memo = Memo {
        waits: task.waits.take(),
        is_live: matches!(again, Again::Live(_)),
        conflicts,
        due,
        missed,
        errors: mem::replace(&mut task.errors, ErrorLog::new(alloc)),
        has_nameless,
        left_job,
        left,
        minute,
    };
    if memo.is_empty() {
        driver.memos.remove(&task.key);
        return Ok(());
    }
    let key = task.key.try_copy(alloc)?;
    driver.memos.insert(key, memo)
}

// A sync ends.
fn end(
    ledger: &mut Ledger,
    driver: &mut Driver,
    alloc: Global,
    task: &mut Task,
    again: &Again,
) -> Result<(), Refusal> {
    steps::end(ledger, task.number)?;
    if let Some(zone) = &task.wants {
        driver.want(alloc, zone)?;
    }
    keep(driver, alloc, task, again)?;
    finish_key(driver, &task.key, again)?;
    wake_at_latest(driver, task, again)
}

/// A sync that went as far as it could is put back to wait, or ends. Where memory was wanting it
/// ends, and that is answered; one that can't even end is kept until the clock is told next.
pub(crate) fn settle(
    ledger: &mut Ledger,
    driver: &mut Driver,
    alloc: Global,
    task: Task,
    went: Result<Went, Refusal>,
) -> Result<(), Refusal> {
    let mut task = task;
    let (again, given) = match went {
        Ok(Went::Waits(id)) => {
            task.id = Some(id);
            task.asked_at = driver.local();
            return park(driver, task);
        }
        Ok(Went::Over(again)) => (again, Ok(())),
        Ok(Went::On) => (Again::Failed, Ok(())),
        Err(refusal) => (Again::Failed, Err(refusal)),
    };
    task.id = None;
    match end(ledger, driver, alloc, &mut task, &again) {
        Ok(()) => given,
        Err(refusal) => {
            park(driver, task)?;
            Err(refusal)
        }
    }
}

fn park(driver: &mut Driver, task: Task) -> Result<(), Refusal> {
    driver.tasks.push(task).map_err(|_| Refusal::OutOfMemory)
}

// Whether a sync could not end where memory was wanting, or its answer is long overdue.
fn is_stuck(task: &Task, now: u64) -> bool {
    task.id.is_none() || task.asked_at.saturating_add(PATIENCE) < now
}

/// Ends a sync that could not end where memory was wanting, or whose answer is long overdue, if
/// there is one; whether there was.
pub(crate) fn end_stuck(
    ledger: &mut Ledger,
    driver: &mut Driver,
    alloc: Global,
) -> Result<bool, Refusal> {
    let now = driver.local();
    let Some(place) = driver.tasks.iter().position(|task| is_stuck(task, now)) else {
        return Ok(false);
    };
    let task = driver.tasks.swap_remove(place);
    settle(ledger, driver, alloc, task, Ok(Went::Over(Again::Failed)))?;
    Ok(true)
}
