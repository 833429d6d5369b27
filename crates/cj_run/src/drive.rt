// The instants of a run, one after the other.
ghost use Rattle.std.specs.Prelude.{◌≡◌, ◌*◌, OnOk, drop};
ghost use Rattle.cj_script.specs.simulation.Spans.{instant, IsInstant};
ghost use Rattle.cj_run.specs.Simulations.{edits_at};
ghost use Rattle.cj_run.specs.Actions.{Does, HasDriven};
ghost use Rattle.cj_run.specs.Drivers.{watch_of};
ghost use Rattle.cj_run.specs.Rounds.{EndsDue, FollowsOn, GoesRound, NotesMade};

use crate::clock::RunClock;
use crate::ends::end_jobs;
use crate::error::RunError;
use crate::made::Made;
use crate::meter::Meter;
use crate::rest::Follower;
use crate::user::{create_all, edit_all};
use cj_hub::{Hub, Pass, Receipt};
use cj_script::Simulation;
use cj_types::{Millis, Refusal, Seconds};
use std::alloc::Global;
use std::mem;
use std::sync::Wait;
use std::thread::Threads;

/// What was done last of an instant. At each the Jobs that are due end, then the user's edits are
/// made, and then informer and workers go on until the hub is at rest.
#[derive(Clone, Copy, Debug, PartialEq, Eq)]
pub(crate) enum LastDone {
    /// All of it: the hub is at rest, or no instant has begun.
    Rest,
    /// The ends of this moment.
    Ends(Seconds),
    /// The edits of this moment, after its ends.
    Edits(Seconds),
}

/// What the run loop drives: the participants but for the workers, what was noted of the Jobs that
/// were made, and what was done last.
#[derive(Drop)]
pub(crate) struct Driver {
    pub user: Pass,
    pub follower: Follower,
    pub runners: Vec<Pass>,
    pub made: Made,
    pub last: LastDone,
}

// The receipts that a pass got after the first `known` ones.
fn news(pass: &Pass, known: usize) -> &[Receipt]
    ensures { result.now ≡ drop known pass.now.receipts }
{
    let receipts = pass.receipts();
    if known > receipts.len() {
        return &[];
    }
    &receipts[known..]
}

// Notes the Jobs that were made at the moment, by the receipts that the informer got after the
// first `known` ones.
fn note(
    alloc: Global,
    simulation: &Simulation,
    driver: &mut Driver,
    known: usize,
    now: Seconds,
) -> Result<(), Refusal>
    ensures user { driver.new.user ≡ driver.old.user }
    ensures follower { driver.new.follower ≡ driver.old.follower }
    ensures last { driver.new.last ≡ driver.old.last }
    ensures made { OnOk result (NotesMade simulation.now.runs now
        (drop known driver.old.follower.pass.receipts) (watch_of driver.old)
        (watch_of driver.new)) }
{
    let told = news(&driver.follower.pass, known);
    driver.made.note_news(alloc, &simulation.runs, now, told)
}

// Ends the Jobs that are due at the moment, before anything else is done at it.
#[tactic(auto, using(crate::proofs::Went::ends_due))]
fn end<R: Threads + Wait + Sync>(
    rt: &R,
    alloc: Global,
    hub: &Hub,
    driver: &mut Driver,
    now: Seconds,
) -> Result<(), Refusal>
    requires { driver.old.last ≡ LastDone.Rest }
    ensures user { driver.new.user ≡ driver.old.user }
    ensures follower { driver.new.follower ≡ driver.old.follower }
    ensures last { OnOk result (driver.new.last ≡ LastDone.Ends now) }
    ensures ended { OnOk result (EndsDue now (watch_of driver.old)
        (watch_of driver.new)) }
{
    let runners = mem::replace(&mut driver.runners, Vec::new(alloc));
    let (runners, result) = end_jobs(rt, alloc, hub, runners, &mut driver.made, now);
    driver.runners = runners;
    driver.last = LastDone::Ends(now);
    result
}

// Makes the edits of the moment, once the Jobs that were due at it have ended.
fn edit<R: Wait>(
    rt: &R,
    alloc: Global,
    hub: &Hub,
    simulation: &Simulation,
    driver: &mut Driver,
    now: Seconds,
) -> Result<(), Refusal>
    requires { driver.old.last ≡ LastDone.Ends now }
    ensures edits { OnOk result (Does simulation.now.zones
        (edits_at simulation.now.edits.items now) driver.old.user driver.new.user) }
    ensures follower { driver.new.follower ≡ driver.old.follower }
    ensures watch { watch_of driver.new ≡ watch_of driver.old }
    ensures last { OnOk result (driver.new.last ≡ LastDone.Edits now) }
{
    let edits = simulation.edits.as_slice();
    edit_all(
        rt,
        alloc,
        hub,
        &mut driver.user,
        &simulation.zones,
        edits,
        now,
    )?;
    driver.last = LastDone::Edits(now);
    Ok(())
}

// Has informer and workers go on until the hub is at rest, once the edits of the moment are made,
// and notes the Jobs that were made; by then the informer has seen each of them. The clock moves.
#[tactic(auto, using(crate::proofs::Went::follows_on))]
fn follow<R: Wait>(
    rt: &R,
    alloc: Global,
    hub: &Hub,
    clock: &RunClock,
    simulation: &Simulation,
    driver: &mut Driver,
    now: Seconds,
) -> Result<(), RunError>
    requires { driver.old.last ≡ LastDone.Edits now }
    ensures user { driver.new.user ≡ driver.old.user }
    ensures last { OnOk result (driver.new.last ≡ LastDone.Rest) }
    ensures followed { OnOk result (FollowsOn simulation.now.runs now driver.old.follower
        driver.new.follower (watch_of driver.old) (watch_of driver.new)) }
{
    let known = driver.follower.pass.receipts().len();
    let rest = driver.follower.settle(rt, hub, Millis::from(now))?;
    note(alloc, simulation, driver, known, now)?;
    driver.last = LastDone::Rest;
    clock.advance(rest);
    Ok(())
}

// Runs one instant: the ends that are due, the edits, and then the work of informer and workers.
#[tactic(auto, using(crate::proofs::Went::goes_round))]
fn run_instant<R: Threads + Wait + Sync>(
    rt: &R,
    alloc: Global,
    hub: &Hub,
    clock: &RunClock,
    simulation: &Simulation,
    driver: &mut Driver,
    now: Seconds,
) -> Result<(), RunError>
    requires { driver.old.last ≡ LastDone.Rest }
    ensures edits { OnOk result (Does simulation.now.zones
        (edits_at simulation.now.edits.items now) driver.old.user driver.new.user) }
    ensures round { OnOk result (GoesRound simulation.now.runs now driver.old.follower
        driver.new.follower (watch_of driver.old) (watch_of driver.new)) }
    ensures last { OnOk result (driver.new.last ≡ LastDone.Rest) }
{
    end(rt, alloc, hub, driver, now)?;
    edit(rt, alloc, hub, simulation, driver, now)?;
    follow(rt, alloc, hub, clock, simulation, driver, now)
}

// Runs the instant of that number.
fn run_instant_at<R: Threads + Wait + Sync>(
    rt: &R,
    alloc: Global,
    hub: &Hub,
    clock: &RunClock,
    simulation: &Simulation,
    driver: &mut Driver,
    n: u64,
) -> Result<(), RunError>
    requires number { IsInstant simulation.now.span n }
    requires last { driver.old.last ≡ LastDone.Rest }
    ensures edits { OnOk result (Does simulation.now.zones
        (edits_at simulation.now.edits.items (instant simulation.now.span n)) driver.old.user
        driver.new.user) }
    ensures round { OnOk result (GoesRound simulation.now.runs (instant simulation.now.span n)
        driver.old.follower driver.new.follower (watch_of driver.old)
        (watch_of driver.new)) }
    ensures last { OnOk result (driver.new.last ≡ LastDone.Rest) }
{
    let now = simulation.span.instant(n).unwrap();
    run_instant(rt, alloc, hub, clock, simulation, driver, now)
}

/// Creates the CronJobs, and then runs each instant. The clock moves on only where the hub is at
/// rest. The meter shows how far the run is.
pub(crate) fn drive<R: Threads + Wait + Sync>(
    rt: &R,
    alloc: Global,
    hub: &Hub,
    clock: &RunClock,
    simulation: &Simulation,
    driver: &mut Driver,
    meter: &Meter,
) -> Result<(), RunError>
    ensures { OnOk result (HasDriven simulation.now driver.old driver.new) }
{
    let start = simulation.span.start();
    driver.last = LastDone::Rest;
    meter.begin(simulation.span.count());
    create_all(
        rt,
        alloc,
        hub,
        &mut driver.user,
        &simulation.zones,
        simulation.crons.as_slice(),
        start,
    )?;
    for n in 0..simulation.span.count() {
        run_instant_at(rt, alloc, hub, clock, simulation, driver, n)?;
        meter.advance();
    }
    Ok(())
}
