use crate::calls::{add, create};
use crate::hub::answers::called;
use crate::hubs::{hub_of, pass_of};
use cj_calls::{Call, Role};
use cj_hub::{Hub, HubState, Pass};
use cj_types::{Max, Version};
use std::alloc::Global;
use std::mem;
use std::process::Abort;
use std::sync::Wait;

fn state(rt: &impl Wait, hub: &Hub, seen: u64) -> HubState {
    hub.state(rt, Version::new(seen))
}

// How far the work is before and after a CronJob is created, for one who has seen nothing and for
// one who has seen it.
fn while_created(
    rt: &(impl Wait + Abort),
    alloc: Global,
    hub: &Hub,
    user: &mut Pass,
) -> [HubState; 3] {
    let before = state(rt, hub, 0);
    called(rt, hub, user, create(rt, alloc, "a"));
    [before, state(rt, hub, 0), state(rt, hub, 1)]
}

// The same for one who has seen it, once the listings know of it, once its key is in the line, and
// once work was given up.
fn while_worked(
    rt: &(impl Wait + Abort),
    alloc: Global,
    hub: &Hub,
    informer: &mut Pass,
) -> [HubState; 3] {
    let max = Max::new(1).expect(rt, "a number");
    called(rt, hub, informer, Call::Feed(max));
    let fed = state(rt, hub, 1);
    called(rt, hub, informer, add(rt, alloc, "a"));
    let added = state(rt, hub, 1);
    hub.give_up(rt);
    [fed, added, state(rt, hub, 1)]
}

fn states(rt: &(impl Wait + Abort), alloc: Global) -> ([HubState; 3], [HubState; 3]) {
    let hub = hub_of(rt, alloc, 100);
    let mut user = pass_of(rt, &hub, Role::User);
    let mut informer = pass_of(rt, &hub, Role::Informer);
    let created = while_created(rt, alloc, &hub, &mut user);
    let worked = while_worked(rt, alloc, &hub, &mut informer);
    mem::forget(hub);
    (created, worked)
}

const CREATED: [HubState; 3] = [HubState::Quiet, HubState::Behind, HubState::Behind];

const WORKED: [HubState; 3] = [HubState::Quiet, HubState::Busy, HubState::Broken];

// An empty hub is Quiet. A CronJob that is created leaves it Behind for one who hasn't seen it, and
// until the listings know of it; then it is Quiet, Busy with the key in the line, and Broken once
// work was given up.
// rule: hub-state
#[test]
fn how_far_the_work_is(rt: HostRuntime) {
    let states = states(&rt, rt.alloc());
    assert!(rt; states == (CREATED, WORKED));
}
