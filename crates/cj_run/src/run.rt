// A run, from its scenario to its report.
ghost use Rattle.std.specs.Prelude.{◌≡◌, [], ◌∷◌, ◌++◌, All, Err, IfErr, IfOk, IsOk, OnOk, map, string_bytes};
ghost use Rattle.cj_hub.specs.Receipts.{IsExact, caller_of};
ghost use Rattle.cj_world_laws.specs.Promise.{KeepsPromise};
ghost use Rattle.cj_report.specs.Reports.{report_of};
ghost use Rattle.cj_run.specs.Participants.{AreNumbered};
ghost use Rattle.cj_run.specs.Actions.{AreFresh, HaveRunLoop, IsFresh, IsUnused};
ghost use Rattle.cj_run.specs.Upkeep.{ComesToRest};
ghost use Rattle.cj_run.specs.Validation.{IsValid};
ghost use Rattle.cj_run.specs.Zones.{AreZoned};
ghost use Rattle.cj_run.specs.Runs.{HasRun, IsReport, IsRun, IsRunFailure, pass_at};

use crate::clock::RunClock;
use crate::drive::{Driver, LastDone};
use crate::error::RunError;
use crate::made::Made;
use crate::meter::Meter;
use crate::participants::{
    Participants, RUNNERS, are_complete, are_numbered, callers_of, passes_of,
};
use crate::rest::Follower;
use crate::threads::{ThreadResults, WorkerEnds, run_threads};
use crate::upkeep::comes_to_rest;
use crate::validation::is_valid;
use crate::zones::are_zoned;
use cj_calls::{Caller, Role};
use cj_hub::{Closed, Hub, HubState, Pass};
use cj_informer::Informer;
use cj_io::Failure;
use cj_queue::Secret;
use cj_report::report_text;
use cj_script::Simulation;
use cj_types::{Heap, Limits, Max};
use cj_worker::{SyncEnd, WorkerEnd};
use std::alloc::{AllocError, Global};
use std::sync::Wait;
use std::thread::Threads;

/// What a run leaves: the report of its end, and its history.
#[derive(Drop)]
pub struct Ran {
    /// A line for each object and for each reason.
    pub report: String,
    /// All calls of the run with their answers.
    pub closed: Heap<Closed>,
}

// Adds a pass at the end.
fn put(passes: &mut Vec<Pass>, pass: Pass) -> Result<(), AllocError>
    ensures { OnOk result (passes.new.items ≡ passes.old.items ++ pass ∷ []) }
{
    passes.push(pass)?;
    Ok(())
}

// Enrolls `count` passes of a role.
fn enroll<R: Wait>(
    rt: &R,
    alloc: Global,
    hub: &Hub,
    role: Role,
    count: u64,
) -> Result<Vec<Pass>, RunError>
    ensures { IfOk result (λ ps. All IsUnused ps.items) }
{
    let mut passes = Vec::new(alloc);
    for _ in 0..count {
        put(&mut passes, hub.enroll(rt, role)?)?;
    }
    Ok(passes)
}

fn new_follower<R: Wait>(rt: &R, alloc: Global, hub: &Hub) -> Result<Follower, RunError>
    ensures { IfOk result IsFresh }
{
    let max = Max::new(500).unwrap();
    Ok(Follower {
        informer: Informer::new(alloc, max),
        pass: hub.enroll(rt, Role::Informer)?,
    })
}

fn new_driver<R: Wait>(rt: &R, alloc: Global, hub: &Hub) -> Result<Driver, RunError>
    ensures { IfOk result AreFresh }
{
    let runners = enroll(rt, alloc, hub, Role::Runner, RUNNERS)?;
    let follower = new_follower(rt, alloc, hub)?;
    Ok(Driver {
        user: hub.enroll(rt, Role::User)?,
        follower,
        runners,
        made: Made::new(alloc),
        last: LastDone::Rest,
    })
}

// Whether the worker's last sync broke off by this error.
fn broke_by(end: &WorkerEnd, error: RunError) -> bool {
    match &end.end {
        SyncEnd::Broken(refusal) => RunError::of(refusal) == error,
        _ => false,
    }
}

// Why workers gave up: a call of theirs was refused, or else memory was wanting, also for one of
// their threads.
fn error_of(ends: &WorkerEnds) -> RunError
    ensures lost { IfErr ends.now (λ e. result ≡ e) }
{
    let ends = match ends {
        Ok(ends) => ends.as_slice(),
        Err(error) => return *error,
    };
    if ends.iter().any(|end| broke_by(end, RunError::HistoryFull)) {
        return RunError::HistoryFull;
    }
    if ends
        .iter()
        .any(|end| broke_by(end, RunError::UnexpectedRefusal))
    {
        return RunError::UnexpectedRefusal;
    }
    RunError::Memory
}

// Why the instants were not all run, or were in vain since a worker gave up.
fn check_results<R: Wait>(rt: &R, hub: &Hub, results: &ThreadResults) -> Result<(), RunError>
    ensures { OnOk result (IsOk results.now.instants) }
{
    match &results.instants {
        Err(RunError::GivenUp) => Err(error_of(&results.workers)),
        Err(error) => Err(*error),
        Ok(()) => match hub.state(rt, results.driver.follower.informer.seen()) {
            HubState::Broken => Err(error_of(&results.workers)),
            _ => Ok(()),
        },
    }
}

// The passes that workers handed back.
fn passes_at(alloc: Global, ends: Vec<WorkerEnd>) -> Result<Vec<Pass>, AllocError>
    ensures { IfOk result (λ ps. ps.items ≡ map pass_at ends.items) }
{
    let mut passes = Vec::new(alloc);
    for end in ends {
        passes.push(end.pass)?;
    }
    Ok(passes)
}

// Who called in a run.
fn participants_of(
    alloc: Global,
    driver: Driver,
    ends: WorkerEnds,
) -> Result<Participants, RunError>
    ensures workers { IfOk ends (λ es. IfOk result (λ c. c.workers.items ≡ map pass_at es.items)) }
    ensures lost { IfErr ends (λ e. result ≡ Err e) }
    ensures runners { IfOk result (λ c. c.runners.items ≡ driver.runners.items) }
    ensures informer { IfOk result (λ c. c.informer ≡ driver.follower.pass) }
    ensures user { IfOk result (λ c. c.user ≡ driver.user) }
{
    let ends = ends?;
    let Driver {
        user,
        follower,
        runners,
        made: _,
        last: _,
    } = driver;
    let workers = passes_at(alloc, ends)?;
    let informer = follower.pass;
    Ok(Participants {
        workers,
        runners,
        informer,
        user,
    })
}

#[tactic(auto, unfolding(cj_report::specs::Reports::report_of))]
fn closed_report(alloc: Global, closed: &Closed) -> Result<String, RunError>
    ensures { IfOk result (λ s. string_bytes s
        ≡ report_of closed.now.limits.window closed.now.history) }
{
    let (crons, jobs) = closed.objects()?;
    let history = closed.history();
    Ok(report_text(alloc, crons.as_slice(), jobs.as_slice(), history)?)
}

// Closes the hub with these passes, which are all that it enrolled.
fn close(alloc: Global, hub: Heap<Hub>, passes: Vec<Pass>) -> Result<Heap<Closed>, RunError>
    ensures { IfOk result (λ c. All (IsExact c.history) passes.items) }
{
    match hub.into_inner().close(passes) {
        Ok(closed) => Ok(Heap::new(alloc, closed)?),
        Err(_) => Err(RunError::Inconsistent),
    }
}

// What is promised of every closed history.
fn promised(closed: &Closed)
    ensures { KeepsPromise closed.now.limits.window closed.now.history }
{
    closed.history();
}

// Validates a closed history: it must have the entries of these callers alone, made at their times,
// and its claims must be in the zones of the scenario. What one pass did is proved, but no clause
// can say where its entries are among those of other threads, nor what the threads of workers
// promise, so each history is looked through.
fn validate(
    alloc: Global,
    simulation: &Simulation,
    callers: &[Caller],
    user: u64,
    secret: Secret,
    closed: &Closed,
) -> Result<(), RunError>
    ensures valid { OnOk result (IsValid simulation.now callers.now user closed.now.history) }
    ensures zones { OnOk result (AreZoned simulation.now.zones closed.now.history) }
    ensures rests { OnOk result (ComesToRest closed.now.limits.window simulation.now.span
        closed.now.history) }
{
    let valid = is_valid(alloc, simulation, callers, user, closed.history())?;
    let zoned = are_zoned(&simulation.zones, closed.history());
    let rests = comes_to_rest(alloc, secret, &simulation.span, closed.history())?;
    if valid && zoned && rests {
        Ok(())
    } else {
        Err(RunError::Inconsistent)
    }
}

// The callers of these passes, which are numbered by their places.
fn numbered(alloc: Global, passes: &[Pass]) -> Result<Vec<Caller>, RunError>
    ensures callers { IfOk result (λ cs. cs.items ≡ map caller_of passes.now) }
    ensures numbered { IfOk result (λ cs. AreNumbered 0 cs.items) }
{
    let callers = callers_of(alloc, passes)?;
    if are_numbered(callers.as_slice()) {
        Ok(callers)
    } else {
        Err(RunError::Inconsistent)
    }
}

// Closes the hub, validates its history, and writes the report.
#[tactic(auto, using(crate::proofs::Reported::reported))]
fn report(
    alloc: Global,
    hub: Heap<Hub>,
    simulation: &Simulation,
    secret: Secret,
    participants: Participants,
) -> Result<Ran, RunError>
    ensures { IfOk result (λ r. IsReport simulation.now participants r.closed
        (string_bytes r.report)) }
{
    let user = participants.user.caller().number;
    let passes = passes_of(alloc, participants)?;
    let callers = numbered(alloc, passes.as_slice())?;
    let closed = close(alloc, hub, passes)?;
    promised(closed.get());
    validate(
        alloc,
        simulation,
        callers.as_slice(),
        user,
        secret,
        closed.get(),
    )?;
    let report = closed_report(alloc, closed.get())?;
    Ok(Ran { report, closed })
}

// Enrolls all who call in a run, and runs their threads on the hub.
#[tactic(auto, using(crate::proofs::Reported::have_run_loop))]
fn run_on_hub<R: Threads + Wait + Sync>(
    rt: &R,
    alloc: Global,
    hub: &Hub,
    simulation: &Simulation,
    workers: u64,
    meter: &Meter,
) -> Result<Heap<ThreadResults>, RunError>
    ensures { IfOk result (λ r. OnOk r.instants (HaveRunLoop simulation.now r.driver)) }
{
    let passes = enroll(rt, alloc, hub, Role::Worker, workers)?;
    let driver = new_driver(rt, alloc, hub)?;
    let clock = RunClock::new(simulation.span);
    let results = run_threads(rt, alloc, hub, &clock, simulation, driver, passes, meter)?;
    Ok(Heap::new(alloc, results)?)
}

// Runs all threads on the hub. It fails where not all instants were run, or a worker gave up.
fn run_loop<R: Threads + Wait + Sync>(
    rt: &R,
    alloc: Global,
    hub: &Hub,
    simulation: &Simulation,
    workers: u64,
    meter: &Meter,
) -> Result<Heap<ThreadResults>, RunError>
    ensures { IfOk result (λ r. HaveRunLoop simulation.now r.driver) }
{
    let results = run_on_hub(rt, alloc, hub, simulation, workers, meter)?;
    check_results(rt, hub, results.get())?;
    Ok(results)
}

// Runs a scenario on the hub to its end, and answers who called.
#[tactic(auto, using(crate::proofs::Reported::has_run))]
fn run_to_end<R: Threads + Wait + Sync>(
    rt: &R,
    alloc: Global,
    hub: &Hub,
    simulation: &Simulation,
    workers: u64,
    meter: &Meter,
) -> Result<Participants, RunError>
    ensures { IfOk result (λ c. HasRun simulation.now workers c) }
{
    let results = run_loop(rt, alloc, hub, simulation, workers, meter)?;
    let ThreadResults {
        driver,
        workers: ends,
        instants: _,
    } = results.into_inner();
    let participants = participants_of(alloc, driver, ends)?;
    if are_complete(&participants, workers) {
        Ok(participants)
    } else {
        Err(RunError::Inconsistent)
    }
}

// The report of a run, with its history.
#[tactic(auto, using(crate::proofs::Reported::run_of))]
fn run_whole<R: Threads + Wait + Sync>(
    rt: &R,
    alloc: Global,
    simulation: &Simulation,
    workers: u64,
    meter: &Meter,
) -> Result<Ran, RunError>
    ensures { IfOk result (λ r. IsRun simulation.now workers r.closed (string_bytes r.report)) }
{
    let limits = Limits::new(16_777_216, 100_000).unwrap();
    let secret = meter.secret();
    let hub = Heap::new(alloc, Hub::keyed(alloc, limits, secret)?)?;
    let participants = run_to_end(rt, alloc, hub.get(), simulation, workers, meter)?;
    report(alloc, hub, simulation, secret, participants)
}

/// Runs a scenario on an empty world with that many workers. Returns the history with the report of
/// its end, which has a line for each object and for each reason.
///
/// At each instant the Jobs that are due end, then the user's edits are made, and then the informer
/// and the workers go on until the hub is at rest. Only then does the clock move. Each thread has
/// ended when this returns. The meter shows meanwhile how far the run is. There is no report where
/// a call found the history full, where memory was wanting or a thread couldn't be started, or
/// where the program itself is at fault.
pub fn run_simulation<R: Threads + Wait + Sync>(
    rt: &R,
    alloc: Global,
    simulation: &Simulation,
    workers: u64,
    meter: &Meter,
) -> Result<Ran, Failure>
    ensures ok { IfOk result (λ r. IsRun simulation.now workers r.closed (string_bytes r.report)) }
    ensures err { IfErr result IsRunFailure }
{
    match run_whole(rt, alloc, simulation, workers, meter) {
        Ok(ran) => Ok(ran),
        Err(error) => Err(error.failure()),
    }
}
