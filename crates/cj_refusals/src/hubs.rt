// Calls through a hub.
use cj_calls::{Call, Role};
use cj_hub::{Hub, Pass};
use cj_types::{Heap, Limits, Refusal};
use std::alloc::Global;
use std::mem;
use std::sync::Wait;

// How many calls are made.
const CALLS: u8 = 11;

// Makes one call, and answers whether it was entered.
fn is_entered<R: Wait>(rt: &R, hub: &Hub, pass: &mut Pass) -> bool {
    hub.call(rt, pass, Call::ListJobs).is_ok()
}

// How many of the calls were entered.
fn entered<R: Wait>(rt: &R, hub: &Hub, pass: &mut Pass) -> u8 {
    let mut count: u8 = 0;
    for _ in 0..CALLS {
        if is_entered(rt, hub, pass) {
            count = count.saturating_add(1);
        }
    }
    count
}

// The exit status after that many calls were entered. The process ends then, so nothing is freed.
fn closed(hub: Hub, passes: Vec<Pass>, count: u8) -> u8 {
    let counted = passes.as_slice().first().map(|pass| pass.receipts().len());
    let result = hub.close(passes);
    let is_closed = result.is_ok();
    mem::forget(result);
    if counted != Some(usize::from(count)) {
        30
    } else if is_closed {
        count
    } else {
        31
    }
}

/// Makes eleven calls through one pass of a hub, and closes it. Answers the number of calls that
/// were entered; 30 where the pass counts another number than was entered, and 31 where the hub
/// isn't closed.
pub fn called<R: Wait>(rt: &R, alloc: Global) -> Result<u8, Refusal> {
    let mut passes = Vec::new(alloc);
    let limits = Limits::new(1_000, 100).unwrap();
    let hub = Heap::new(alloc, Hub::new(alloc, limits)?)?;
    let pass = hub.get().enroll(rt, Role::User)?;
    passes.push(pass).map_err(|_| Refusal::OutOfMemory)?;
    let count = entered(rt, hub.get(), &mut passes[0]);
    Ok(closed(hub.into_inner(), passes, count))
}
