use crate::calls::{FIRST, START, key};
use crate::hub::answers::{called, word_of};
use crate::hubs::{hub_of, pass_of};
use cj_calls::{Call, Role};
use cj_hub::{Hub, Pass};
use cj_runner::{Ending, Running, end_due};
use cj_types::{Seconds, Uid};
use std::alloc::Global;
use std::mem;
use std::process::Abort;
use std::sync::Wait;
use std::thread::Threads;

// A Job that is due.
fn due(rt: &impl Abort, alloc: Global, name: &str) -> Running {
    Running {
        key: key(rt, alloc, name),
        uid: Uid::new(1).expect(rt, "a uid"),
        made: Seconds::new(START).expect(rt, "a moment"),
        seconds: 60,
        outcome: Ending::Failed,
    }
}

// What two runners are answered, each with a Job that is due.
fn ended(
    rt: &(impl Threads + Wait + Abort + Sync),
    alloc: Global,
    hub: &Hub,
    passes: Vec<Pass>,
) -> &'static str {
    let one = due(rt, alloc, "a");
    let two = due(rt, alloc, "b");
    let running = vec![in alloc; one, two].expect(rt, "memory");
    let now = Seconds::new(FIRST).expect(rt, "a moment");
    let (passes, ended) = end_due(rt, alloc, hub, passes, running, now);
    let word = match &ended {
        Ok(_) => "ended",
        Err(refusal) => word_of(refusal),
    };
    mem::forget(passes);
    mem::forget(ended);
    word
}

// The same of a pass that finds the history full and a pass of another hub, in this order or in the
// other.
fn told(
    rt: &(impl Threads + Wait + Abort + Sync),
    alloc: Global,
    is_full_first: bool,
) -> &'static str {
    let hub = hub_of(rt, alloc, 1);
    let other = hub_of(rt, alloc, 1);
    let mut full = pass_of(rt, &hub, Role::Runner);
    let strange = pass_of(rt, &other, Role::Runner);
    called(rt, &hub, &mut full, Call::ListJobs);
    let (one, two) = if is_full_first {
        (full, strange)
    } else {
        (strange, full)
    };
    let passes = vec![in alloc; one, two].expect(rt, "memory");
    let word = ended(rt, alloc, &hub, passes);
    mem::forget(hub);
    mem::forget(other);
    word
}

// One of two runners finds the history full, the other is a pass of another hub: the round is
// refused as the first of the two passes was, whichever that is.
// rule: runner-ends
#[test]
fn a_round_is_refused_as_its_first_pass(rt: HostRuntime) {
    let alloc = rt.alloc();
    let words = [told(&rt, alloc, true), told(&rt, alloc, false)];
    assert!(rt; words == ["HistoryFull", "Estranged"]);
}
