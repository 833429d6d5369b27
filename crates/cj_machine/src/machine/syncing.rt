// A sync begins, and hears answers.

use crate::machine::driver::Driver;
use crate::machine::error_log::ErrorLog;
use crate::machine::errors::{
    say_refused, say_unlisted, say_unmade, say_unread_job, say_unread_list,
};
use crate::machine::finishing::{finish_key, settle};
use crate::machine::others::take_listed;
use crate::machine::reading::{found_job, has_unknown_hold, is_job, parts_before, take_cron};
use crate::machine::saying::{say_deleted, say_passed, say_started};
use crate::machine::steps;
use crate::machine::task::{Again, Stage, Task};
use crate::machine::walking::{Went, walk};
use cj_base::{Refusal, Text, TryCopy};
use cj_control::{HeldBy, Ledger, Line, LineKind, full_name, hold_in, meta};
use cj_fence::{Call, Sync};
use cj_manifest::present;
use cj_types::Key;
use cj_zone::ZoneTable;
use serde_json::Value;
use std::alloc::Global;

// A sync of a CronJob, before its first step.
fn task_of(alloc: Global, driver: &Driver, key: Key, by: HeldBy) -> Result<Task, Refusal> {
    let name = full_name(alloc, key.namespace(), key.name())?;
    let parts = parts_before(alloc, &key, driver.options.api, by)?;
    let (is_live, conflicts, waits) = match driver.memos.get(&key) {
        Some(memo) => (memo.is_live, memo.conflicts, copy_of(alloc, &memo.waits)?),
        None => (false, 0, None),
    };
    let errors = last_errors(alloc, driver, &key)?;
    Ok(Task {
        key,
        name,
        number: 0,
        is_live,
        is_cut: false,
        conflicts,
        asks_first: conflicts > 1,
        last: 0,
        due: 0,
        has_claimed: false,
        nameless: 0,
        errors,
        stage: Stage::Reading,
        is_second: false,
        status: 0,
        id: None,
        parts,
        cron: None,
        plan: None,
        found: None,
        listed: None,
        is_held_back: false,
        waits,
        unknown_hold: None,
        left_job: None,
        wants: None,
        refused: None,
        asked_at: driver.local(),
    })
}

fn copy_of(alloc: Global, waits: &Option<(Text, u64)>) -> Result<Option<(Text, u64)>, Refusal> {
    match waits {
        Some((uid, since)) => Ok(Some((uid.try_copy(alloc)?, *since))),
        None => Ok(None),
    }
}

// The errors of its earlier syncs that people were told of.
fn last_errors(alloc: Global, driver: &Driver, key: &Key) -> Result<ErrorLog, Refusal> {
    match driver.memos.get(key) {
        Some(memo) => memo.errors.since(alloc, driver.hour()),
        None => Ok(ErrorLog::new(alloc)),
    }
}

// The sync of the first key in line, before it begins.
fn next_task(alloc: Global, driver: &Driver, by: HeldBy) -> Result<Option<Task>, Refusal> {
    match driver.queue.front() {
        Some(key) => Ok(Some(task_of(alloc, driver, key.try_copy(alloc)?, by)?)),
        None => Ok(None),
    }
}

// A sync whose key was taken out of the line begins; where it can't, the key waits.
fn begin(
    ledger: &mut Ledger,
    driver: &mut Driver,
    alloc: Global,
    zones: &ZoneTable,
    task: Task,
) -> Result<(), Refusal> {
    let mut task = task;
    match steps::begin(ledger, alloc, &task.name) {
        Ok(Some(number)) => {
            task.number = number;
            driver.numbers.began();
            go(ledger, driver, alloc, zones, task)
        }
        Ok(None) => finish_key(driver, &task.key, &Again::Failed),
        Err(refusal) => {
            finish_key(driver, &task.key, &Again::Failed)?;
            Err(refusal)
        }
    }
}

/// A sync of the first key in line begins, where there is a worker for it; whether one did.
pub(crate) fn begin_next(
    ledger: &mut Ledger,
    driver: &mut Driver,
    alloc: Global,
    zones: &ZoneTable,
) -> Result<bool, Refusal> {
    let Some(by) = driver.by else {
        return Ok(false);
    };
    if driver.is_stopping || !driver.feeds.is_synced() || !ledger.has_room() {
        return Ok(false);
    }
    let Some(task) = next_task(alloc, driver, by)? else {
        return Ok(false);
    };
    let _taken = driver.queue.take()?;
    begin(ledger, driver, alloc, zones, task)?;
    Ok(true)
}

// A sync goes as far as it can.
fn go(
    ledger: &mut Ledger,
    driver: &mut Driver,
    alloc: Global,
    zones: &ZoneTable,
    task: Task,
) -> Result<(), Refusal> {
    let mut task = task;
    let went = walk(ledger, driver, alloc, zones, &mut task);
    settle(ledger, driver, alloc, task, went)
}

fn status_of(kind: LineKind) -> u64 {
    match kind {
        LineKind::Answered(_, status) => status,
        _ => 0,
    }
}

// What an answer says beside what the protocol takes of it.
fn note(
    ledger: &Ledger,
    alloc: Global,
    driver: &mut Driver,
    task: &mut Task,
    call: &Call,
    body: Option<&Value>,
) -> Result<(), Refusal> {
    match call {
        Call::GetCron(_) if task.status == 200 => note_cron(alloc, task, body),
        Call::GetJob(job) => note_read(ledger, alloc, driver, task, job, body),
        Call::Create(job, _) if is_unmade(ledger, task) => {
            say_unmade(alloc, driver, task, job.as_str(), body)
        }
        Call::Claim(_) if task.status == 200 => {
            task.has_claimed = is_claimed(ledger, task);
            say_passed(alloc, driver, task)
        }
        Call::Start(job) if task.status == 200 && goes_on(ledger, task) => {
            say_started(alloc, driver, task, job.name.as_str())
        }
        Call::Delete(job) if is_done(task.status) && goes_on(ledger, task) => {
            say_deleted(alloc, driver, task, job.name.as_str(), false)
        }
        Call::Expire(job, _, _) if is_done(task.status) => {
            say_deleted(alloc, driver, task, job.name.as_str(), true)
        }
        _ => say_refused(alloc, driver, task, call, body),
    }
}

// Whether the sync may call more: its answer was one that bears out what it says.
fn goes_on(ledger: &Ledger, task: &Task) -> bool {
    match ledger.get(task.number) {
        Some(row) => !matches!(row.sync, Sync::Over),
        None => false,
    }
}

// Whether a sync ends since the answer to its GET of a Job says nothing of that Job.
fn is_unread(
    ledger: &Ledger,
    alloc: Global,
    task: &Task,
    job: &Text,
    body: Option<&Value>,
) -> Result<bool, Refusal> {
    if task.status == 0 || goes_on(ledger, task) {
        return Ok(false);
    }
    match body {
        Some(body) if task.status == 200 => Ok(!is_job(alloc, body, job)?),
        _ => Ok(true),
    }
}

// Whether a Job was not created, other than since its name is taken, and an answer says so.
fn is_unmade(ledger: &Ledger, task: &Task) -> bool {
    let is_held = match ledger.get(task.number) {
        Some(row) => matches!(row.sync, Sync::Holding(_, _)),
        None => false,
    };
    !is_held && task.status != 409 && task.status != 0
}

// Whether the sync's claim was taken.
fn is_claimed(ledger: &Ledger, task: &Task) -> bool {
    match ledger.get(task.number) {
        Some(row) => matches!(row.sync, Sync::Starting(_, _, _)),
        None => false,
    }
}

// Whether a sync may end between two calls where the controller was told to stop: it has claimed
// nothing that it would have to start.
fn may_stop(task: &Task) -> bool {
    !matches!(task.stage, Stage::Starting | Stage::Helping)
}

fn is_done(status: u64) -> bool {
    status == 200 || status == 202
}

fn note_cron(alloc: Global, task: &mut Task, body: Option<&Value>) -> Result<(), Refusal> {
    if let Some(value) = body {
        take_cron(alloc, task, value)?;
    }
    Ok(())
}

// The uid of an object.
fn uid_of(alloc: Global, object: &Value) -> Result<Text, Refusal> {
    let uid = meta(object, "uid").and_then(Value::as_str);
    Text::new(alloc, uid.unwrap_or(""))
}

// What holds the Job that was read is what its start takes away, if that is known.
fn note_hold(alloc: Global, task: &mut Task, body: Option<&Value>) -> Result<(), Refusal> {
    let Some(body) = body else {
        return Ok(());
    };
    if let Some(hold) = hold_in(body) {
        task.parts.hold = hold;
    } else if has_unknown_hold(body) {
        task.unknown_hold = Some(uid_of(alloc, body)?);
    }
    Ok(())
}

// What the answer to the GET of a Job says.
fn note_read(
    ledger: &Ledger,
    alloc: Global,
    driver: &mut Driver,
    task: &mut Task,
    job: &Text,
    body: Option<&Value>,
) -> Result<(), Refusal> {
    if is_unread(ledger, alloc, task, job, body)? {
        return say_unread_job(alloc, driver, task, job.as_str(), body);
    }
    match task.stage {
        Stage::Asking => note_job(alloc, task, body),
        _ if task.status == 200 => note_hold(alloc, task, body),
        _ => Ok(()),
    }
}

fn note_job(alloc: Global, task: &mut Task, body: Option<&Value>) -> Result<(), Refusal> {
    note_hold(alloc, task, body)?;
    let time = match &task.plan {
        Some(plan) => plan.time,
        None => None,
    };
    task.found = match (body, time) {
        (Some(value), Some(time)) if task.status == 200 => {
            found_job(alloc, value, &task.parts, time)?
        }
        _ => None,
    };
    Ok(())
}

// A sync hears which Jobs have the label of its CronJob; whether it can go on.
fn hear_list(
    alloc: Global,
    driver: &mut Driver,
    task: &mut Task,
    body: Option<&Value>,
) -> Result<bool, Refusal> {
    task.stage = Stage::Reading;
    let Some(value) = body.filter(|_| task.status == 200) else {
        say_unlisted(alloc, driver, task)?;
        return Ok(false);
    };
    let is_read = take_listed(alloc, task, value)?;
    if !is_read {
        say_unread_list(alloc, driver, task)?;
    }
    Ok(is_read)
}

// A sync hears an answer, and goes on.
fn hear(
    ledger: &mut Ledger,
    driver: &mut Driver,
    alloc: Global,
    zones: &ZoneTable,
    task: &mut Task,
    line: &Line,
) -> Result<Went, Refusal> {
    let body = present(&line.value, "body");
    task.status = status_of(line.kind);
    if task.stage == Stage::Listing {
        if !hear_list(alloc, driver, task, body)? {
            return Ok(Went::Over(Again::Failed));
        }
        return walk(ledger, driver, alloc, zones, task);
    }
    let call = steps::asked(ledger, task.number)?;
    if !steps::hear(ledger, alloc, task.number, line.kind, body)? {
        return Ok(Went::Over(Again::Failed));
    }
    let mut may_end = may_stop(task);
    if let Some(call) = call {
        note(ledger, alloc, driver, task, call.get(), body)?;
        may_end = may_end || matches!(call.get(), Call::Start(_));
    }
    if driver.is_stopping && may_end {
        return Ok(Went::Over(Again::Never));
    }
    walk(ledger, driver, alloc, zones, task)
}

/// The sync that waits for the answer to this request hears it.
pub(crate) fn answered(
    ledger: &mut Ledger,
    driver: &mut Driver,
    alloc: Global,
    zones: &ZoneTable,
    id: u64,
    line: &Line,
) -> Result<(), Refusal> {
    let Some(task) = driver.take_task(id) else {
        if status_of(line.kind) >= 400 {
            driver.event_log.refused(id);
        }
        return Ok(());
    };
    let mut task = task;
    let went = hear(ledger, driver, alloc, zones, &mut task, line);
    settle(ledger, driver, alloc, task, went)
}
