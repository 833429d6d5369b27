use crate::calls::{FIRST, add, tick};
use crate::hub::answers::called;
use crate::hubs::pass_of;
use crate::worker::deeds::{Deed, Sought, counts};
use crate::worker::fixtures::{Fixture, fixture_of, made};
use crate::worker::syncs::synced;
use crate::worker::tries::Tries;
use cj_calls::{Call, Role};
use cj_hub::{Hub, Pass};
use cj_worker::OpenGate;
use std::alloc::Global;
use std::mem;
use std::process::Abort;
use std::sync::atomic::{AtomicU64, Ordering};
use std::sync::{Mutex, Wait};

// Two minutes after the first.
const LATER: u64 = FIRST + 120;

// Three adds of `a`, with a tick of a minute after the first and the second.
fn three_adds(rt: &impl Abort, alloc: Global) -> [Call; 5] {
    let first = add(rt, alloc, "a");
    let second = add(rt, alloc, "a");
    let third = add(rt, alloc, "a");
    let tick_one = tick(rt, (FIRST + 60) * 1_000);
    let tick_two = tick(rt, LATER * 1_000);
    [first, tick_one, second, tick_two, third]
}

// How the worker's sync ends during which the informer makes the calls, and the other worker tries
// to take after each; how often that found nothing; and both passes.
type Held = (&'static str, u64, Pass, Pass);

fn while_held(
    rt: &(impl Wait + Abort),
    alloc: Global,
    hub: &Hub,
    worker: &mut Pass,
    informer: Pass,
    other: Pass,
) -> Held {
    let calls = three_adds(rt, alloc);
    let informer = Mutex::new(informer);
    let other = Mutex::new(other);
    let empty = AtomicU64::new(0);
    let gate = Tries {
        rt,
        alloc,
        hub,
        informer: &informer,
        other: &other,
        calls: &calls,
        empty: &empty,
    };
    let end = synced(rt, alloc, hub, worker, &gate, FIRST);
    mem::forget(calls);
    let count = empty.load(Ordering::SeqCst);
    (end, count, informer.into_inner(), other.into_inner())
}

// How the syncs ended, and how often it was tried in vain to take meanwhile; the answer to a Take
// after the second sync; and how often the history tells that the key was added, that each worker
// took it, and that the Job of two minutes later was made.
type Told = ([&'static str; 2], u64, &'static str, [usize; 4]);

fn told(rt: &(impl Wait + Abort), alloc: Global) -> Told {
    let Fixture {
        hub,
        user,
        informer,
    } = fixture_of(rt, alloc, &["a"]);
    let mut worker = pass_of(rt, &hub, Role::Worker);
    let other = pass_of(rt, &hub, Role::Worker);
    let (first, tries, informer, mut other) = while_held(
        rt,
        alloc,
        &hub,
        &mut worker,
        informer,
        other,
    );
    let second = synced(rt, alloc, &hub, &mut other, &OpenGate, LATER);
    let third = called(rt, &hub, &mut worker, Call::Take);
    let sought = [
        Sought::By(informer.caller().number, Deed::Added),
        Sought::By(worker.caller().number, Deed::Took),
        Sought::By(other.caller().number, Deed::Took),
        Sought::Job("a-28401123"),
    ];
    let passes = vec![in alloc; user, informer, worker, other].expect(rt, "memory");
    let counts = counts(rt, hub, passes, sought);
    ([first, second], tries, third, counts)
}

// A key is added three times, and the clocks move on by two minutes, while a worker holds it. After
// each of that another worker tries to take, and finds nothing. After the Finish it takes the key
// once, and makes the Job of two minutes later; then there is nothing to take.
// rules: queue-done, queue-line, add-while-held
#[test]
fn added_while_it_is_held(rt: HostRuntime) {
    let told = told(&rt, rt.alloc());
    assert!(rt; told == (["Done", "Done"], 5, "Empty", [4, 1, 1, 1]));
}
