// Workers on threads, and how they ended.
use crate::hubs::pass_of;
use crate::worker::syncs::word;
use cj_calls::{Call, Role};
use cj_hub::{Hub, Pass};
use cj_worker::{Clock, Gate, WorkerEnd, run_workers};
use cj_zone::ZoneTable;
use std::alloc::Global;
use std::mem;
use std::process::Abort;
use std::sync::Wait;
use std::thread::Threads;

/// What came of two workers, each with a thread of its own.
pub fn two_workers<G: Gate + Sync, C: Clock + Sync>(
    rt: &(impl Threads + Wait + Abort + Sync),
    alloc: Global,
    hub: &Hub,
    gate: &G,
    clock: &C,
) -> Vec<WorkerEnd> {
    let one = pass_of(rt, hub, Role::Worker);
    let two = pass_of(rt, hub, Role::Worker);
    let passes = vec![in alloc; one, two].expect(rt, "memory");
    let zones = ZoneTable::new(alloc).expect(rt, "memory");
    let ends = run_workers(rt, alloc, hub, passes, gate, clock, &zones);
    mem::forget(zones);
    ends.ok().expect(rt, "threads")
}

/// How a worker ended, its number, and its last call.
#[derive(Clone, Copy)]
pub struct LastOf {
    pub end: &'static str,
    pub number: u64,
    pub call: &'static str,
}

fn last_call(pass: &Pass) -> &'static str {
    match pass.receipts().last() {
        Some(receipt) => match receipt.call() {
            Call::Take => "Take",
            Call::SeeCron => "SeeCron",
            Call::SeeJobs => "SeeJobs",
            Call::Claim(_) => "Claim",
            Call::MakeNext => "MakeNext",
            _ => "another call",
        },
        None => "no call",
    }
}

/// The last of the workers, whose pass comes to the others.
pub fn last_of(rt: &impl Abort, ends: &mut Vec<WorkerEnd>, passes: &mut Vec<Pass>) -> LastOf {
    let WorkerEnd { pass, end } = ends.pop().expect(rt, "a worker");
    let last = LastOf {
        end: word(&end),
        number: pass.caller().number,
        call: last_call(&pass),
    };
    mem::forget(end);
    passes.push(pass).expect(rt, "memory");
    last
}
