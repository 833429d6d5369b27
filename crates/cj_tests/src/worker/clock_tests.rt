use crate::calls::{FIRST, SECOND};
use crate::hubs::pass_of;
use crate::worker::clocks::{Moving, clock_between};
use crate::worker::deeds::{Deed, Sought, counts};
use crate::worker::fixtures::{Fixture, fixture_of};
use crate::worker::moving::Moves;
use crate::worker::syncs::word;
use cj_calls::Role;
use cj_hub::{Hub, HubDesk, Pass};
use cj_worker::{OpenGate, sync_once};
use cj_zone::ZoneTable;
use std::alloc::Global;
use std::mem;
use std::process::Abort;
use std::sync::Wait;

// How a sync ends at a desk that moves the clock on once SeeActive is answered.
fn moved(
    rt: &(impl Wait + Abort),
    alloc: Global,
    hub: &Hub,
    worker: &mut Pass,
    clock: &Moving,
) -> &'static str {
    let zones = ZoneTable::new(alloc).expect(rt, "memory");
    let mut desk = Moves {
        desk: HubDesk::new(hub, rt),
        clock,
    };
    let end = sync_once(alloc, &mut desk, worker, &OpenGate, clock, &zones);
    mem::forget(zones);
    word(&end)
}

// How the sync ended, and how often the history tells that it took, that it claimed, and of each
// minute that its Job was made.
type Told = (&'static str, [usize; 4]);

fn told(rt: &(impl Wait + Abort), alloc: Global) -> Told {
    let Fixture {
        hub,
        user,
        informer,
    } = fixture_of(rt, alloc, &["a"]);
    let mut worker = pass_of(rt, &hub, Role::Worker);
    let clock = clock_between(rt, FIRST, SECOND);
    let end = moved(rt, alloc, &hub, &mut worker, &clock);
    let number = worker.caller().number;
    let sought = [
        Sought::By(number, Deed::Took),
        Sought::By(number, Deed::Claimed),
        Sought::Job("a-28401121"),
        Sought::Job("a-28401122"),
    ];
    let passes = vec![in alloc; user, informer, worker].expect(rt, "memory");
    (end, counts(rt, hub, passes, sought))
}

// The clock goes from the first minute to the second once SeeActive is answered, the last of the
// three readings: the Job is of the second minute, so the clock was read after them.
// rule: sync-moments
#[test]
fn the_clock_is_read_after_the_answers(rt: HostRuntime) {
    let told = told(&rt, rt.alloc());
    assert!(rt; told == ("Done", [1, 1, 0, 1]));
}
