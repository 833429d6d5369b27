use crate::calls::FIRST;
use crate::worker::syncs::synced_at;
use cj_calls::{Call, Role};
use cj_hub::{Desk, Pass, PlainDesk};
use cj_types::Limits;
use cj_worker::OpenGate;
use std::alloc::Global;
use std::mem;
use std::process::Abort;

fn empty_desk(rt: &impl Abort, alloc: Global) -> PlainDesk {
    let limits = Limits::new(1_000, 100).expect(rt, "limits");
    PlainDesk::new(alloc, limits).expect(rt, "memory")
}

fn pass_at(rt: &impl Abort, desk: &mut PlainDesk, role: Role) -> Pass {
    desk.enroll(role).expect(rt, "memory")
}

// How a sync ended before the queue was shut, and one after it, and how many receipts the worker
// had after each.
type Told = ([&'static str; 2], [usize; 2]);

fn told(rt: &impl Abort, alloc: Global) -> Told {
    let mut desk = empty_desk(rt, alloc);
    let mut informer = pass_at(rt, &mut desk, Role::Informer);
    let mut worker = pass_at(rt, &mut desk, Role::Worker);
    let first = synced_at(rt, alloc, &mut desk, &mut worker, &OpenGate, FIRST);
    let calls = worker.receipts().len();
    mem::forget(desk.call(&mut informer, Call::Shut));
    let second = synced_at(rt, alloc, &mut desk, &mut worker, &OpenGate, FIRST);
    let all_calls = worker.receipts().len();
    mem::forget(desk);
    ([first, second], [calls, all_calls])
}

// At a book of one's own that has nothing to take a sync is Idle and enters nothing; once the queue
// is shut it is ShutDown, as its one receipt says.
// rule: sync-ends
#[test]
fn nothing_to_take(rt: HostRuntime) {
    let told = told(&rt, rt.alloc());
    assert!(rt; told == (["Idle", "ShutDown"], [0, 1]));
}
