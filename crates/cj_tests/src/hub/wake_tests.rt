use crate::calls::add;
use crate::hub::answers::{called, waited, word};
use crate::hub::woken_tests::come;
use crate::hubs::{hub_of, pass_of};
use cj_calls::{Call, End, Role};
use cj_hub::{Desk, Hub, HubDesk, Pass};
use cj_types::{Millis, Reasons, Version};
use std::alloc::Global;
use std::mem;
use std::process::Abort;
use std::sync::Wait;
use std::sync::atomic::{AtomicU64, Ordering};
use std::thread::{self, Threads};

const KEYS: [&str; 3] = ["a", "b", "c"];

const ROUNDS: u64 = 10_000;

// The number after this one, of those that look random.
fn next(seed: u64) -> u64 {
    seed.wrapping_mul(6_364_136_223_846_793_005)
        .wrapping_add(1_442_695_040_888_963_407)
}

// Lets others go first, up to 31 times.
fn pause(seed: u64) {
    for _ in 0..seed >> 59 {
        thread::yield_now();
    }
}

// Takes keys and gives each of them back, until the queue is shut, and counts them.
fn work(rt: &(impl Wait + Abort), alloc: Global, hub: &Hub, worker: &mut Pass, done: &AtomicU64) {
    let mut seed = worker.caller().number;
    for _ in 0..3 * ROUNDS {
        if waited(rt, hub, worker) != "Key" {
            return;
        }
        seed = next(seed);
        pause(seed);
        let end = End::Again(Millis::new(0).expect(rt, "a moment"));
        called(rt, hub, worker, Call::Finish(end, Reasons::new(alloc)));
        done.fetch_add(1, Ordering::SeqCst);
    }
}

// Adds so many of the keys, one after the other, at a desk.
fn add_some<D: Desk>(
    rt: &impl Abort,
    alloc: Global,
    desk: &mut D,
    informer: &mut Pass,
    count: usize,
) {
    for key in KEYS.iter().take(count) {
        word(desk.call(informer, add(rt, alloc, key)));
    }
}

// Adds so many of the keys, each in a hold of the lock of its own, or all in one.
fn add_held(
    rt: &(impl Wait + Abort),
    alloc: Global,
    hub: &Hub,
    informer: &mut Pass,
    count: usize,
    in_one: bool,
) {
    if in_one {
        add_some(rt, alloc, &mut hub.hold(rt), informer, count);
    } else {
        add_some(rt, alloc, &mut HubDesk::new(hub, rt), informer, count);
    }
}

// Adds one to three keys in each round, in one hold of the lock or in several, and waits for rest,
// when they were taken and given back; then shuts the queue. Tells in how many rounds they were.
fn add_in_rounds(
    rt: &(impl Wait + Abort),
    alloc: Global,
    hub: &Hub,
    informer: &mut Pass,
    done: &AtomicU64,
) -> u64 {
    let mut seed = 1;
    let mut wanted = 0;
    let mut rounds = 0;
    for _ in 0..ROUNDS {
        seed = next(seed);
        pause(seed);
        let count = (seed >> 33) % 3 + 1;
        let in_one = (seed >> 40) % 2 == 0;
        add_held(rt, alloc, hub, informer, count as usize, in_one);
        wanted = count.wrapping_add(wanted);
        let is_quiet = hub.rest_wait(rt, Version::new(0)).is_ok();
        if !is_quiet || !come(done, wanted) {
            break;
        }
        rounds = 1u64.wrapping_add(rounds);
    }
    called(rt, hub, informer, Call::Shut);
    rounds
}

fn six_workers(rt: &(impl Wait + Abort), alloc: Global, hub: &Hub) -> Vec<Pass> {
    let mut passes = Vec::new(alloc);
    for _ in 0..6u8 {
        passes
            .push(pass_of(rt, hub, Role::Worker))
            .expect(rt, "memory");
    }
    passes
}

// In how many rounds six workers, who wait for keys, took all that were added.
fn rounds(rt: &(impl Threads + Wait + Abort + Sync), alloc: Global) -> u64 {
    let hub = hub_of(rt, alloc, 1_000_000);
    let mut informer = pass_of(rt, &hub, Role::Informer);
    let mut workers = six_workers(rt, alloc, &hub);
    let done = AtomicU64::new(0);
    let (_, rounds) = thread::join(
        rt,
        || {
            thread::for_each_mut(
                rt,
                workers.as_mut_slice(),
                6,
                &|_, worker| {
                    work(rt, alloc, &hub, worker, &done);
                },
            );
        },
        || add_in_rounds(rt, alloc, &hub, &mut informer, &done),
    );
    mem::forget(hub);
    rounds
}

// Six workers, three keys and ten thousand rounds with pauses: no key that is added stands in the
// line while all workers sleep.
// rules: waiting-take, waiting-rest
#[test]
fn no_wake_is_lost(rt: HostRuntime) {
    let alloc = rt.alloc();
    assert!(rt; rounds(&rt, alloc) == ROUNDS);
}
