// A sync goes as far as it can without an answer, and ends.

use crate::machine::choice::Choice;
use crate::machine::choosing::choose;
use crate::machine::driver::Driver;
use crate::machine::saying::say_would;
use crate::machine::steps;
use crate::machine::task::{Again, Task};
use crate::machine::view::View;
use cj_base::{Refusal, Text};
use cj_control::Ledger;
use cj_fence::{Answer, Call, Sync};
use cj_zone::ZoneTable;
use std::alloc::Global;

/// More steps than a sync takes: it looks at each Job of a status once.
const MOST_STEPS: u64 = 1_000_000;

/// How far a sync went.
#[derive(Drop)]
pub(crate) enum Went {
    /// A step more can be taken.
    On,
    /// It waits for the answer to the request of this number.
    Waits(u64),
    /// It is over.
    Over(Again),
}

// What a sync does next, where the clock said this last.
fn next_of(
    alloc: Global,
    driver: &Driver,
    zones: &ZoneTable,
    task: &mut Task,
    sync: &Sync,
    clock: u64,
) -> Result<Choice, Refusal> {
    let Some(by) = driver.by else {
        return Ok(Choice::End(Again::Failed));
    };
    let view = View {
        mirror: driver.feeds.mirror(),
        zones,
        known: driver.known.as_slice(),
        options: &driver.options,
        now: driver.now(),
        clock,
        by,
    };
    choose(alloc, &view, task, sync)
}

fn is_write(call: &Call) -> bool {
    !matches!(
        call,
        Call::GetCron(_) | Call::GetJob(_) | Call::CacheCron(_) | Call::CacheJob(_) | Call::ListJobs
    )
}

// Whether a call needs the jobTemplate of the CronJob.
fn needs_template(call: &Call) -> bool {
    matches!(call, Call::Create(_, _) | Call::Start(_))
}

// A sync asks the API server; one that only says what it would write does so and ends.
fn send(
    ledger: &mut Ledger,
    driver: &mut Driver,
    alloc: Global,
    task: &Task,
    call: Call,
) -> Result<Went, Refusal> {
    if driver.options.dry_run && is_write(&call) {
        say_would(alloc, driver, task, &call)?;
        return Ok(Went::Over(Again::Never));
    }
    if task.is_cut && needs_template(&call) {
        return Ok(Went::Over(Again::Live(0)));
    }
    match steps::send(ledger, alloc, task.number, call, &task.parts)? {
        Some(id) => Ok(Went::Waits(id)),
        None => Ok(Went::Over(Again::Failed)),
    }
}

// A sync asks for what is at a path.
fn read(ledger: &mut Ledger, path: Text) -> Result<Went, Refusal> {
    match steps::read(ledger, path)? {
        Some(id) => Ok(Went::Waits(id)),
        None => Ok(Went::Over(Again::Failed)),
    }
}

// A sync takes a step.
fn walk_on(
    ledger: &mut Ledger,
    driver: &mut Driver,
    alloc: Global,
    zones: &ZoneTable,
    task: &mut Task,
) -> Result<Went, Refusal> {
    let choice = match ledger.get(task.number) {
        Some(row) => next_of(alloc, driver, zones, task, &row.sync, ledger.clock())?,
        None => Choice::End(Again::Failed),
    };
    match choice {
        Choice::Look(call, answer) => look(ledger, alloc, task.number, call, answer),
        Choice::Send(call) => send(ledger, driver, alloc, task, call),
        Choice::Read(path) => read(ledger, path),
        Choice::End(again) => Ok(Went::Over(again)),
    }
}

fn look(
    ledger: &mut Ledger,
    alloc: Global,
    number: u64,
    call: Call,
    answer: Answer,
) -> Result<Went, Refusal> {
    if steps::look(ledger, alloc, number, call, answer)? {
        Ok(Went::On)
    } else {
        Ok(Went::Over(Again::Failed))
    }
}

/// A sync goes as far as it can without an answer.
pub(crate) fn walk(
    ledger: &mut Ledger,
    driver: &mut Driver,
    alloc: Global,
    zones: &ZoneTable,
    task: &mut Task,
) -> Result<Went, Refusal> {
    for _ in 0..MOST_STEPS {
        match walk_on(ledger, driver, alloc, zones, task)? {
            Went::On => {}
            other => return Ok(other),
        }
    }
    Ok(Went::Over(Again::Failed))
}
