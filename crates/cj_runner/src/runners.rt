ghost use Rattle.std.specs.Prelude.{◌≡◌, ◌↔◌, [], false, All, IsTrue, IsOk, IfOk, IfErr, None};
ghost use Rattle.cj_runner.specs.Dues.{is_due, due_ends};
ghost use Rattle.cj_runner.specs.Ends.{AreEnded, CameBack, IsRunnerRefusal};
ghost use Rattle.cj_runner.specs.Shares.{refusal_by};

use crate::ending::Stop;
use crate::gather::{Gathered, gather};
use crate::running::Running;
use crate::shares::shares_of;
use crate::threads::run_shares;
use cj_hub::{Hub, Pass, Receipt};
use cj_types::{Refusal, Seconds};
use std::alloc::{AllocError, Global};
use std::sync::Wait;
use std::thread::Threads;

fn none_due(running: &[Running], now: Seconds) -> bool
    ensures { IsTrue result ↔ All (λ r. is_due now r ≡ false) running.now }
{
    running.iter().all(|one| !one.is_due(now))
}

// Adds a reason to stop where one that is due was in no share, since there is no pass.
fn leave(gathered: Gathered, left: &[Running], now: Seconds) -> Gathered
    ensures passes { result.passes.items ≡ gathered.passes.items }
    ensures receipts { result.receipts.items ≡ gathered.receipts.items }
    ensures stop { result.stop ≡ None → (gathered.stop ≡ None) × (due_ends now left.now ≡ []) }
{
    let mut gathered = gathered;
    if !none_due(left, now) {
        gathered.stop_by(Some(Stop::OutOfMemory));
    }
    gathered
}

fn refusal_of(stop: Stop) -> Refusal
    ensures value { result ≡ refusal_by stop }
    ensures which { IsRunnerRefusal result }
{
    match stop {
        Stop::HistoryFull => Refusal::HistoryFull,
        Stop::Estranged => Refusal::Estranged,
        Stop::OutOfMemory => Refusal::OutOfMemory,
    }
}

// Makes the ends, and puts together what came back. The memory that keeps it is there before the
// first thread is started.
fn run<R: Threads + Wait + Sync>(
    rt: &R,
    alloc: Global,
    hub: &Hub,
    passes: Vec<Pass>,
    running: Vec<Running>,
    now: Seconds,
) -> Result<Gathered, AllocError>
    ensures back { IfOk result (λ g. CameBack now running.items passes.items g.passes.items) }
    ensures ok { IfOk result (λ g. g.stop ≡ None →
        AreEnded now running.items passes.items g.passes.items g.receipts.items) }
{
    let room = Gathered::new(alloc, passes.len(), running.len())?;
    let (shares, left) = shares_of(alloc, passes, running)?;
    let ends = run_shares(rt, alloc, hub, shares, now)?;
    Ok(leave(gather(room, ends), left.as_slice(), now))
}

/// Ends the Jobs of the list that are due: those that were made before the moment and have run for
/// their seconds. Each is ended by one EndJob of its key and uid at the moment.
///
/// The list is split into as many shares as there are passes. Each pass ends what is due in its
/// share, in order, in a thread of its own, up to the first call that the hub doesn't enter. An end
/// that was entered with a refusal has a receipt like the others. The receipts come in the list's
/// order, and the passes in theirs, each with its own receipts.
///
/// Refused with `HistoryFull`, `Estranged` or `OutOfMemory` where an end that is due was left, by
/// the first such refusal in order of the passes; the ends made by then remain. A thread that can't
/// be started counts as `OutOfMemory`: its pass is lost, and its share left. All passes are lost
/// where there is no memory to list the threads; no thread is started then. Without a pass it is
/// `OutOfMemory` exactly where something is due. Where nothing is due, no thread is started and
/// nothing refused.
pub fn end_due<R: Threads + Wait + Sync>(
    rt: &R,
    alloc: Global,
    hub: &Hub,
    passes: Vec<Pass>,
    running: Vec<Running>,
    now: Seconds,
) -> (Vec<Pass>, Result<Vec<Receipt>, Refusal>)
    ensures ok { IfOk result.1 (λ receipts. AreEnded now running.items passes.items result.0.items
        receipts.items) }
    ensures back { CameBack now running.items passes.items result.0.items }
    ensures none { due_ends now running.items ≡ [] → IsOk result.1 }
    ensures err { IfErr result.1 IsRunnerRefusal }
{
    if none_due(running.as_slice(), now) {
        return (passes, Ok(Vec::new(alloc)));
    }
    let Ok(gathered) = run(rt, alloc, hub, passes, running, now) else {
        return (Vec::new(alloc), Err(Refusal::OutOfMemory));
    };
    let Gathered {
        passes,
        receipts,
        stop,
    } = gathered;
    match stop {
        None => (passes, Ok(receipts)),
        Some(stop) => (passes, Err(refusal_of(stop))),
    }
}
