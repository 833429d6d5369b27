use crate::calls::add;
use crate::hub::answers::{called, waited};
use crate::hubs::{hub_of, pass_of};
use cj_calls::{Call, Role};
use std::alloc::Global;
use std::mem;
use std::process::Abort;
use std::sync::Wait;
use std::thread::{self, Threads};

// What a worker is told that waits for a key while another makes a call, the other's answer, and
// the worker's receipts then.
type Told = (&'static str, &'static str, usize);

fn told(
    rt: &(impl Threads + Wait + Abort + Sync),
    alloc: Global,
    history: u32,
    role: Role,
    call: Call,
) -> Told {
    let hub = hub_of(rt, alloc, history);
    let mut other = pass_of(rt, &hub, role);
    let mut worker = pass_of(rt, &hub, Role::Worker);
    let (taken, answer) = thread::join(
        rt,
        || waited(rt, &hub, &mut worker),
        || called(rt, &hub, &mut other, call),
    );
    mem::forget(hub);
    (taken, answer, worker.receipts().len())
}

const ENDS: [Told; 3] = [
    ("HistoryFull", "entered", 0),
    ("ShutDown", "entered", 1),
    ("Key", "entered", 1),
];

// A Take that waits is refused, and not entered, once another's call fills the history; it is
// answered ShutDown, as an entry, once the queue is shut; and it takes a key that is added.
// rule: waiting-take
#[test]
fn what_ends_a_waiting_take(rt: HostRuntime) {
    let alloc = rt.alloc();
    let full = told(&rt, alloc, 1, Role::User, Call::ListCrons);
    let shut = told(&rt, alloc, 100, Role::Informer, Call::Shut);
    let added = told(&rt, alloc, 100, Role::Informer, add(&rt, alloc, "a"));
    assert!(rt; [full, shut, added] == ENDS);
}
