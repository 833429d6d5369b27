use crate::calls::create;
use crate::hub::answers::called;
use crate::hubs::pass_of;
use cj_calls::{Call, Role};
use cj_hub::{Hub, Pass};
use cj_types::{Limits, Max, Version};
use std::alloc::Global;
use std::mem;
use std::process::Abort;
use std::sync::Wait;

const NAMES: &[&str] = &["a", "b", "c"];

fn watch(rt: &impl Abort, version: u64) -> Call {
    let max = Max::new(500).expect(rt, "a number");
    Call::Watch(Version::new(version), max)
}

// What the user is answered who watches from each version.
fn answers(rt: &(impl Wait + Abort), hub: &Hub, user: &mut Pass) -> [&'static str; 4] {
    [
        called(rt, hub, user, watch(rt, 0)),
        called(rt, hub, user, watch(rt, 1)),
        called(rt, hub, user, watch(rt, 2)),
        called(rt, hub, user, watch(rt, 3)),
    ]
}

fn told(rt: &(impl Wait + Abort), alloc: Global) -> [&'static str; 4] {
    let limits = Limits::new(100, 2).expect(rt, "limits");
    let hub = Hub::new(alloc, limits).expect(rt, "memory");
    let mut user = pass_of(rt, &hub, Role::User);
    for name in NAMES {
        called(rt, &hub, &mut user, create(rt, alloc, name));
    }
    let answers = answers(rt, &hub, &mut user);
    mem::forget(hub);
    answers
}

// A hub that keeps two events has three writes: a watch from before the first is Expired, one from
// later is answered.
// rules: watch-window, world-limits
#[test]
fn a_watch_below_the_hubs_window(rt: HostRuntime) {
    let told = told(&rt, rt.alloc());
    assert!(rt; told == ["Expired", "entered", "entered", "entered"]);
}
