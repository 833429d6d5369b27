use crate::calls::FIRST;
use crate::hubs::pass_of;
use crate::worker::deeds::{Deed, Sought, counts};
use crate::worker::fixtures::{Fixture, fixture_of, made};
use crate::worker::syncs::synced;
use cj_calls::{Call, Role};
use cj_worker::OpenGate;
use std::alloc::Global;
use std::process::Abort;
use std::sync::Wait;

// How two syncs ended, how many receipts the worker had after each, and how often the history tells
// that a key was taken, that a time was claimed, that a sync ended well, and that the Job was made.
type Told = ([&'static str; 2], [usize; 2], [usize; 4]);

fn told(rt: &(impl Wait + Abort), alloc: Global) -> Told {
    let Fixture {
        hub,
        user,
        mut informer,
    } = fixture_of(rt, alloc, &["a"]);
    made(rt, &hub, &mut informer, Call::Shut);
    let mut worker = pass_of(rt, &hub, Role::Worker);
    let first = synced(rt, alloc, &hub, &mut worker, &OpenGate, FIRST);
    let calls = worker.receipts().len();
    let second = synced(rt, alloc, &hub, &mut worker, &OpenGate, FIRST);
    let all_calls = worker.receipts().len();
    let number = worker.caller().number;
    let sought = [
        Sought::By(number, Deed::Took),
        Sought::By(number, Deed::Claimed),
        Sought::By(number, Deed::Finished),
        Sought::Job("a-28401121"),
    ];
    let passes = vec![in alloc; user, informer, worker].expect(rt, "memory");
    (
        [first, second],
        [calls, all_calls],
        counts(rt, hub, passes, sought),
    )
}

// A sync that makes a Job makes seven calls: Take, SeeCron, SeeJobs, SeeActive, Claim, MakeNext and
// Finish. The next one makes a Take alone, which is answered that the queue is shut.
// rules: sync-calls, sync-ends
#[test]
fn a_job_is_made(rt: HostRuntime) {
    let told = told(&rt, rt.alloc());
    assert!(rt; told == (["Done", "ShutDown"], [7, 8], [1, 1, 1, 1]));
}
