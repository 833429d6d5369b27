// The threads of a run.
ghost use Rattle.std.specs.Prelude.{◌≡◌, Err, IfErr, IfOk, OnOk};
ghost use Rattle.cj_calls.specs.declared.call.Call.TheVariants as Of;
ghost use Rattle.cj_worker.specs.Workers.{WentSome};
ghost use Rattle.cj_run.specs.Actions.{Called, HasRunLoop};
ghost use Rattle.cj_run.specs.Readings.{Shows};
ghost use Rattle.cj_run.specs.declared.error.RunError.TheVariants.{Inconsistent};

use crate::clock::RunClock;
use crate::drive::{Driver, drive};
use crate::error::RunError;
use crate::meter::Meter;
use crate::rest::Follower;
use cj_calls::Call;
use cj_hub::{Hub, Pass};
use cj_script::Simulation;
use cj_types::Refusal;
use cj_worker::{OpenGate, WorkerEnd, run_workers};
use crossbeam_channel::{Receiver, RecvError, Sender, bounded};
use std::alloc::Global;
use std::sync::Wait;
use std::thread;
use std::thread::Threads;

/// The passes of workers, each with the end of its last sync.
pub(crate) type WorkerEnds = Result<Vec<WorkerEnd>, RunError>;

/// What the threads of a run hand back: who called beside the workers, whether all instants were
/// run, and what came of the workers.
#[derive(Drop)]
pub(crate) struct ThreadResults {
    pub driver: Driver,
    pub instants: Result<(), RunError>,
    pub workers: WorkerEnds,
}

// Shuts the queue. It tries again as long as memory is wanting, and answers that in the end. At a
// full history the workers end by themselves.
fn shut<R: Wait>(rt: &R, hub: &Hub, follower: &mut Follower) -> Result<(), Refusal>
    ensures { OnOk result (Called Of.Shut follower.old.pass follower.new.pass) }
{
    let mut result = Ok(());
    for _ in rt.forever() {
        match hub.call(rt, &mut follower.pass, Call::Shut) {
            Ok(_) => return result,
            Err(Refusal::OutOfMemory) => {
                result = Err(Refusal::OutOfMemory);
                thread::yield_now();
            }
            Err(refusal) => return Err(refusal),
        }
    }
    unreachable!()
}

// Runs all instants, and then shuts the queue.
#[tactic(auto, using(crate::proofs::Reported::has_run_loop))]
fn run_instants<R: Threads + Wait + Sync>(
    rt: &R,
    alloc: Global,
    hub: &Hub,
    clock: &RunClock,
    simulation: &Simulation,
    mut driver: Driver,
    meter: &Meter,
) -> (Driver, Result<(), RunError>)
    ensures { OnOk result.1 (HasRunLoop simulation.now driver result.0) }
{
    let driven = drive(rt, alloc, hub, clock, simulation, &mut driver, meter);
    let shut = shut(rt, hub, &mut driver.follower);
    match (driven, shut) {
        (Ok(()), Ok(())) => (driver, Ok(())),
        (Ok(()), Err(refusal)) => (driver, Err(RunError::from(refusal))),
        (Err(error), _) => (driver, Err(error)),
    }
}

// Runs the workers to their ends, by the run's clock and in the zones of its scenario.
fn work<R: Threads + Wait + Sync>(
    rt: &R,
    alloc: Global,
    hub: &Hub,
    clock: &RunClock,
    simulation: &Simulation,
    workers: Vec<Pass>,
) -> WorkerEnds
    ensures { IfOk result (λ ends. WentSome (λ r. Shows clock.now.span r.seconds r.millis)
        (λ _ _. ⊥) simulation.now.zones workers.items ends.items) }
{
    match run_workers(rt, alloc, hub, workers, &OpenGate, clock, &simulation.zones) {
        Ok(ends) => Ok(ends),
        Err(refusal) => Err(RunError::from(refusal)),
    }
}

// Has the workers work, and hands over what came of them, for which the channel has room.
fn run_and_send<R: Threads + Wait + Sync>(
    rt: &R,
    alloc: Global,
    hub: &Hub,
    clock: &RunClock,
    simulation: &Simulation,
    workers: Vec<Pass>,
    to: Sender<WorkerEnds>,
) {
    let ended = work(rt, alloc, hub, clock, simulation, workers);
    let _ = to.send(rt, ended);
}

// What came of the workers. Their thread always sends it, so a channel that gives nothing is no
// run's.
fn handed_over(received: Result<WorkerEnds, RecvError>) -> WorkerEnds
    ensures given { IfOk received (λ ends. result ≡ ends) }
    ensures lost { IfErr received (λ _. result ≡ Err Inconsistent) }
{
    match received {
        Ok(ends) => ends,
        Err(_) => Err(RunError::Inconsistent),
    }
}

// Receives what came of the workers.
fn receive<R: Wait>(rt: &R, from: &Receiver<WorkerEnds>) -> WorkerEnds {
    handed_over(from.recv(rt))
}

/// Starts the workers in a thread beside this one, runs all instants, receives what came of the
/// workers, and joins their thread. A thread that can't be started counts as want of memory; no
/// instant is run then.
pub(crate) fn run_threads<R: Threads + Wait + Sync>(
    rt: &R,
    alloc: Global,
    hub: &Hub,
    clock: &RunClock,
    simulation: &Simulation,
    driver: Driver,
    workers: Vec<Pass>,
    meter: &Meter,
) -> Result<ThreadResults, RunError>
    ensures { IfOk result (λ r. OnOk r.instants (HasRunLoop simulation.now driver
        r.driver)) }
{
    let (to, from) = bounded(alloc, 1)?;
    thread::scope(
        thread::scope_env(),
        rt,
        |scope| -> Result<ThreadResults, RunError>
            ensures { IfOk result (λ r. OnOk r.instants (HasRunLoop simulation.entry.now
                driver r.driver)) }
        {
            let Ok(child) = scope.spawn(move || {
                run_and_send(rt, alloc, hub, clock, simulation, workers, to)
            }) else {
                return Err(RunError::Memory);
            };
            let (driver, instants) = run_instants(rt, alloc, hub, clock, simulation, driver, meter);
            let workers = receive(rt, &from);
            child.join(rt);
            Ok(ThreadResults {
                driver,
                instants,
                workers,
            })
        },
    )
}
