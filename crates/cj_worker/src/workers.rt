ghost use Rattle.std.specs.Prelude.{◌≡◌, IfOk, IfErr};
ghost use Rattle.cj_base.specs.declared.refusal.Refusal.TheVariants.{OutOfMemory};
ghost use Rattle.cj_worker.specs.Workers.{Went, WentSome};

use crate::ending::SyncEnd;
use crate::gate::{Clock, Gate};
use crate::work::work;
use cj_hub::{Hub, Pass};
use cj_types::Refusal;
use cj_zone::ZoneTable;
use std::alloc::{AllocError, Global};
use std::snapshot::Snapshot;
use std::sync::Wait;
use std::thread;
use std::thread::{Promise, Threads};

/// A pass, and the sync on which its worker ended: `ShutDown`, `Broken` or `Stopped`.
#[derive(Drop)]
pub struct WorkerEnd {
    pub pass: Pass,
    pub end: SyncEnd,
}

// What a worker that was given the pass hands back, by its gate, clock and zones.
struct WentFrom<G, C> {
    pass: Snapshot<Pass>,
    gate: Snapshot<G>,
    clock: Snapshot<C>,
    zones: Snapshot<ZoneTable>,
}

impl<G, C> Drop for WentFrom<G, C> {
    fn drop(self) {
        let WentFrom {
            pass: _,
            gate: _,
            clock: _,
            zones: _,
        } = self;
    }
}

impl<G, C> WentFrom<G, C> {
    fn new(pass: &Pass, gate: &G, clock: &C, zones: &ZoneTable) -> WentFrom<G, C>
        ensures pass { result.pass.value ≡ pass.now }
        ensures gate { result.gate.value ≡ gate.now }
        ensures clock { result.clock.value ≡ clock.now }
        ensures zones { result.zones.value ≡ zones.now }
    {
        WentFrom {
            pass: Snapshot::of(pass),
            gate: Snapshot::of(gate),
            clock: Snapshot::of(clock),
            zones: Snapshot::of(zones),
        }
    }
}

impl<G: Gate, C: Clock> Promise<WorkerEnd> for WentFrom<G, C> {
    ghost kept_by = { λ p e. Went (C.gives p.clock.value) (G.may_stop p.gate.value) p.zones.value
        p.pass.value e };
}

// Each pass in a thread of its own. All memory that this takes is there before the first thread is
// started.
fn run_scoped<R: Threads + Wait + Sync, G: Gate + Sync, C: Clock + Sync>(
    rt: &R,
    alloc: Global,
    hub: &Hub,
    passes: Vec<Pass>,
    gate: &G,
    clock: &C,
    zones: &ZoneTable,
) -> Result<Vec<WorkerEnd>, AllocError>
    ensures { IfOk result (λ v. WentSome (C.gives clock.now) (G.may_stop gate.now) zones.now
        passes.items v.items) }
{
    thread::scope(
        thread::scope_env(),
        rt,
        |scope| -> Result<Vec<WorkerEnd>, AllocError>
            ensures { IfOk result (λ v. WentSome (C.gives clock.entry.now)
                (G.may_stop gate.entry.now) zones.entry.now passes.items v.items) }
        {
            let count = passes.as_slice().len();
            let mut started = Vec::with_capacity(alloc, count)?;
            let mut ends = Vec::with_capacity(alloc, count)?;
            for pass in passes {
                let promise = WentFrom::new(&pass, gate, clock, zones);
                if let Ok(child) = scope.spawn_with(
                    promise,
                    move || work(rt, alloc, hub, pass, gate, clock, zones),
                ) {
                    started.push(child)?;
                } else {
                    hub.give_up(rt);
                }
            }
            for child in started {
                ends.push(child.join(rt))?;
            }
            Ok(ends)
        },
    )
}

/// Workers, each with a pass of its own in a thread of its own, until the queue is shut and has no
/// key.
///
/// A worker makes one whole sync after the other. It goes on after one that is done or to be tried
/// again, and ends after one that broke or was stopped. The passes come back in order, each with
/// the receipts of its worker's syncs, one after the other, and with the end of the last one. One
/// whose thread can't be started is lost. Work on the hub is given up where not every worker can be
/// started, where a sync broke, and where one lacked memory. Refused `OutOfMemory` where the
/// threads can't be listed; no thread is started then, and all passes are lost.
pub fn run_workers<R: Threads + Wait + Sync, G: Gate + Sync, C: Clock + Sync>(
    rt: &R,
    alloc: Global,
    hub: &Hub,
    passes: Vec<Pass>,
    gate: &G,
    clock: &C,
    zones: &ZoneTable,
) -> Result<Vec<WorkerEnd>, Refusal>
    ensures ok { IfOk result (λ v. WentSome (C.gives clock.now) (G.may_stop gate.now) zones.now
        passes.items v.items) }
    ensures err { IfErr result (λ e. e ≡ OutOfMemory) }
{
    match run_scoped(rt, alloc, hub, passes, gate, clock, zones) {
        Ok(ends) => Ok(ends),
        Err(_) => {
            hub.give_up(rt);
            Err(Refusal::OutOfMemory)
        }
    }
}
