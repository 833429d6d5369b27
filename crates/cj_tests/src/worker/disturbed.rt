// A sync that another's calls disturb.
use crate::calls::FIRST;
use crate::worker::gates::Disturbs;
use crate::worker::syncs::synced;
use cj_calls::Call;
use cj_hub::{Hub, Pass};
use cj_worker::Point;
use std::alloc::Global;
use std::process::Abort;
use std::sync::{Mutex, Wait};

/// How the worker's sync in the first minute ends at whose point the other makes these calls, and
/// the other's pass then.
pub fn disturbed(
    rt: &(impl Wait + Abort),
    alloc: Global,
    hub: &Hub,
    worker: &mut Pass,
    other: Pass,
    calls: &[Call],
    point: Point,
) -> (&'static str, Pass) {
    let other = Mutex::new(other);
    let gate = Disturbs {
        rt,
        alloc,
        hub,
        other: &other,
        calls,
        point,
    };
    let end = synced(rt, alloc, hub, worker, &gate, FIRST);
    (end, other.into_inner())
}
