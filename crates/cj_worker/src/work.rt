ghost use Rattle.std.specs.Prelude.{◌≡◌, IfSome};
ghost use Rattle.cj_worker.specs.Syncs.{IsSync};
ghost use Rattle.cj_worker.specs.Workers.{Extends, Gets, HasEnd, HasSynced, Went, last_end};

use crate::ending::SyncEnd;
use crate::gate::{Clock, Gate};
use crate::sync::sync_once;
use crate::workers::WorkerEnd;
use cj_hub::{Hub, HubDesk, Pass};
use cj_types::Refusal;
use cj_zone::ZoneTable;
use std::alloc::Global;
use std::sync::Wait;

// What a worker does after a sync: it goes on, or ends on it. Work is given up where memory was
// lacking or the sync broke.
fn after(rt: &impl Wait, hub: &Hub, end: SyncEnd) -> Option<SyncEnd>
    ensures { result ≡ last_end end }
{
    match end {
        SyncEnd::Done | SyncEnd::Idle => None,
        SyncEnd::Retried(Refusal::OutOfMemory) => {
            hub.give_up(rt);
            None
        }
        SyncEnd::Retried(_) => None,
        SyncEnd::Broken(refusal) => {
            hub.give_up(rt);
            Some(SyncEnd::Broken(refusal))
        }
        SyncEnd::ShutDown => Some(SyncEnd::ShutDown),
        SyncEnd::Stopped(point) => Some(SyncEnd::Stopped(point)),
    }
}

// One sync, and its end where it is the worker's last.
fn sync_on<R: Wait, G: Gate, C: Clock>(
    rt: &R,
    alloc: Global,
    hub: &Hub,
    pass: &mut Pass,
    gate: &G,
    clock: &C,
    zones: &ZoneTable,
) -> Option<SyncEnd>
    ensures longer { Extends pass.old pass.new }
    ensures synced { Gets pass.old pass.new
        (λ es. HasSynced (IsSync (C.gives clock.now) (G.may_stop gate.now) zones.now) es result) }
    ensures ended { IfSome result (λ e. HasEnd e pass.old pass.new) }
{
    let mut desk = HubDesk::new(hub, rt);
    let end = sync_once(alloc, &mut desk, pass, gate, clock, zones);
    after(rt, hub, end)
}

/// Makes one sync after the other, until one is the last.
pub(crate) fn work<R: Wait, G: Gate, C: Clock>(
    rt: &R,
    alloc: Global,
    hub: &Hub,
    pass: Pass,
    gate: &G,
    clock: &C,
    zones: &ZoneTable,
) -> WorkerEnd
    ensures { Went (C.gives clock.now) (G.may_stop gate.now) zones.now pass result }
{
    let mut pass = pass;
    for _ in rt.forever() {
        if let Some(end) = sync_on(rt, alloc, hub, &mut pass, gate, clock, zones) {
            return WorkerEnd { pass, end };
        }
    }
    unreachable!()
}
