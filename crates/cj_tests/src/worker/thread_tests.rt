use crate::calls::FIRST;
use crate::worker::clocks::clock_at;
use crate::worker::deeds::{Deed, Sought, counts};
use crate::worker::fixtures::{Fixture, fixture_of, made};
use crate::worker::two_keys::TwoKeys;
use crate::worker::worker_ends::{last_of, two_workers};
use cj_calls::Call;
use std::alloc::Global;
use std::mem;
use std::process::Abort;
use std::sync::Wait;
use std::thread::Threads;

// Whether the polls ran out, how each worker ended, and how often the history tells of each that it
// ended a sync well, and of each key that its Job was made.
type Told = (bool, [&'static str; 2], [usize; 4]);

fn told(rt: &(impl Threads + Wait + Abort + Sync), alloc: Global) -> Told {
    let Fixture {
        hub,
        user,
        mut informer,
    } = fixture_of(rt, alloc, &["a", "b"]);
    made(rt, &hub, &mut informer, Call::Shut);
    let gate = TwoKeys::new();
    let clock = clock_at(rt, FIRST);
    let mut workers = two_workers(rt, alloc, &hub, &gate, &clock);
    let mut passes = vec![in alloc; user, informer].expect(rt, "memory");
    let two = last_of(rt, &mut workers, &mut passes);
    let one = last_of(rt, &mut workers, &mut passes);
    mem::forget(workers);
    let sought = [
        Sought::By(one.number, Deed::Finished),
        Sought::By(two.number, Deed::Finished),
        Sought::Job("a-28401121"),
        Sought::Job("b-28401121"),
    ];
    let ends = [one.end, two.end];
    (gate.has_given_up(), ends, counts(rt, hub, passes, sought))
}

// Two workers on threads, of which the one that took `a` is held at Listed until the other has made
// the Job of `b`: the calls of the two lie between each other, no sync keeps the other from going
// on, and each worker ends one sync well and then finds the queue shut. The passes come back: with
// them the hub closes.
// rules: worker-passes, worker-ends
#[test]
fn gate_two_keys(rt: HostRuntime) {
    let told = told(&rt, rt.alloc());
    assert!(rt; told == (false, ["ShutDown", "ShutDown"], [1, 1, 1, 1]));
}
