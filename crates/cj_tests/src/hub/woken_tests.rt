use crate::calls::add;
use crate::hub::answers::{called, waited};
use crate::hubs::{hub_of, pass_of};
use cj_calls::{Call, Role};
use cj_hub::{Hub, Pass};
use std::alloc::Global;
use std::mem;
use std::process::Abort;
use std::sync::Wait;
use std::sync::atomic::{AtomicU64, Ordering};
use std::thread::{self, Threads};

// Counts a worker once its Take has an answer.
fn counted(rt: &impl Wait, hub: &Hub, worker: &mut Pass, answered: &AtomicU64) -> &'static str {
    let word = waited(rt, hub, worker);
    answered.fetch_add(1, Ordering::SeqCst);
    word
}

/// Whether so many have an answer, within a million polls.
pub fn come(answered: &AtomicU64, count: u64) -> bool {
    for _ in 0..1_000_000u32 {
        if answered.load(Ordering::SeqCst) >= count {
            return true;
        }
        thread::yield_now();
    }
    false
}

// Adds the keys, waits for as many answers, and shuts the queue. Tells whether they came.
fn added(
    rt: &(impl Wait + Abort),
    alloc: Global,
    hub: &Hub,
    informer: &mut Pass,
    keys: &[&str],
    answered: &AtomicU64,
) -> bool {
    for key in keys {
        called(rt, hub, informer, add(rt, alloc, key));
    }
    let have_come = come(answered, keys.len() as u64);
    called(rt, hub, informer, Call::Shut);
    have_come
}

// Whether there came as many answers as keys before the queue was shut, and what two workers are
// answered that wait, the greater word first.
type Told = (bool, [&'static str; 2]);

fn told(rt: &(impl Threads + Wait + Abort + Sync), alloc: Global, keys: &[&str]) -> Told {
    let hub = hub_of(rt, alloc, 100);
    let mut informer = pass_of(rt, &hub, Role::Informer);
    let mut one = pass_of(rt, &hub, Role::Worker);
    let mut two = pass_of(rt, &hub, Role::Worker);
    let answered = AtomicU64::new(0);
    let ((first, second), have_come) = thread::join(
        rt,
        || {
            thread::join(
                rt,
                || counted(rt, &hub, &mut one, &answered),
                || counted(rt, &hub, &mut two, &answered),
            )
        },
        || added(rt, alloc, &hub, &mut informer, keys, &answered),
    );
    mem::forget(hub);
    let words = if first == "Key" {
        [second, first]
    } else {
        [first, second]
    };
    (have_come, words)
}

// Two workers wait. One key wakes one of them, which takes it; the other waits on until the queue
// is shut. Two keys, the second of which may be added before the first is taken, wake both.
// rule: waiting-take
#[test]
fn a_key_is_taken_by_one_of_two_that_wait(rt: HostRuntime) {
    let alloc = rt.alloc();
    let one = told(&rt, alloc, &["a"]);
    let two = told(&rt, alloc, &["a", "b"]);
    assert!(rt; one == (true, ["ShutDown", "Key"]) && two == (true, ["Key", "Key"]));
}
