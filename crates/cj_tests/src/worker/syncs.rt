// Syncs, by how they end.
use crate::worker::clocks::clock_at;
use cj_hub::{Desk, Hub, HubDesk, Pass};
use cj_types::Refusal;
use cj_worker::{Gate, Point, SyncEnd, sync_once};
use cj_zone::ZoneTable;
use std::alloc::Global;
use std::mem;
use std::process::Abort;
use std::sync::Wait;

fn point_word(point: Point) -> &'static str {
    match point {
        Point::Taken => "Taken",
        Point::Seen => "Seen",
        Point::Listed => "Listed",
        Point::Claimed => "Claimed",
        Point::Made => "Made",
    }
}

/// How a sync ended, in a word: of one that was stopped the point, of one that is to be tried again
/// the refusal.
pub fn word(end: &SyncEnd) -> &'static str {
    match end {
        SyncEnd::Done => "Done",
        SyncEnd::Idle => "Idle",
        SyncEnd::ShutDown => "ShutDown",
        SyncEnd::Stopped(point) => point_word(*point),
        SyncEnd::Retried(Refusal::Conflict(_)) => "Conflict",
        SyncEnd::Retried(Refusal::AlreadyExists) => "AlreadyExists",
        _ => "another end",
    }
}

/// One sync of the worker at the desk, so many seconds after 1970, and how it ended.
pub fn synced_at<D: Desk, G: Gate>(
    rt: &impl Abort,
    alloc: Global,
    desk: &mut D,
    worker: &mut Pass,
    gate: &G,
    seconds: u64,
) -> &'static str {
    let zones = ZoneTable::new(alloc).expect(rt, "memory");
    let clock = clock_at(rt, seconds);
    let end = sync_once(alloc, desk, worker, gate, &clock, &zones);
    mem::forget(zones);
    word(&end)
}

/// The same at a hub.
pub fn synced<G: Gate>(
    rt: &(impl Wait + Abort),
    alloc: Global,
    hub: &Hub,
    worker: &mut Pass,
    gate: &G,
    seconds: u64,
) -> &'static str {
    let mut desk = HubDesk::new(hub, rt);
    synced_at(rt, alloc, &mut desk, worker, gate, seconds)
}
