use crate::calls::{FIRST, create_job, tick};
use crate::hubs::pass_of;
use crate::worker::deeds::{Deed, Sought, counts};
use crate::worker::fixtures::{Fixture, fixture_of, made};
use crate::worker::syncs::synced;
use cj_calls::{Call, Role};
use cj_hub::{Hub, Pass};
use cj_worker::OpenGate;
use std::alloc::Global;
use std::process::Abort;
use std::sync::Wait;

// The ends of a worker's three syncs: the second one is the other try, 5 ms later, and before the
// third the queue is shut.
fn three_ends(
    rt: &(impl Wait + Abort),
    alloc: Global,
    hub: &Hub,
    informer: &mut Pass,
    worker: &mut Pass,
) -> [&'static str; 3] {
    let first = synced(rt, alloc, hub, worker, &OpenGate, FIRST);
    made(rt, hub, informer, tick(rt, FIRST * 1_000 + 5));
    let second = synced(rt, alloc, hub, worker, &OpenGate, FIRST);
    made(rt, hub, informer, Call::Shut);
    let third = synced(rt, alloc, hub, worker, &OpenGate, FIRST);
    [first, second, third]
}

// How the syncs ended, and how often the history tells that the worker claimed a time, was refused
// the making, and put the key off with FailedCreate; and that the Job was made.
type Told = ([&'static str; 3], [usize; 4]);

fn told(rt: &(impl Wait + Abort), alloc: Global) -> Told {
    let Fixture {
        hub,
        mut user,
        mut informer,
    } = fixture_of(rt, alloc, &["a"]);
    made(rt, &hub, &mut user, create_job(rt, alloc, "a-28401121"));
    let mut worker = pass_of(rt, &hub, Role::Worker);
    let ends = three_ends(rt, alloc, &hub, &mut informer, &mut worker);
    let number = worker.caller().number;
    let sought = [
        Sought::By(number, Deed::Claimed),
        Sought::By(number, Deed::WasRefused),
        Sought::By(number, Deed::PutOff),
        Sought::Job("a-28401121"),
    ];
    let passes = vec![in alloc; user, informer, worker].expect(rt, "memory");
    (ends, counts(rt, hub, passes, sought))
}

// Somebody else's Job has the name of the one to be made: the making is refused AlreadyExists, and
// the sync's Finish asks for another try, with FailedCreate as its one reason. The key comes again
// after 5 ms; its time is claimed, so nothing is made.
// rules: sync-reasons, sync-ends
#[test]
fn a_name_is_taken(rt: HostRuntime) {
    let told = told(&rt, rt.alloc());
    let wanted = (["AlreadyExists", "Done", "ShutDown"], [1, 1, 1, 0]);
    assert!(rt; told == wanted);
}
