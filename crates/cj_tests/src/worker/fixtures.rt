// A hub with callers, and calls through it.
use crate::calls::{add, create};
use crate::hubs::{hub_of, pass_of};
use cj_calls::{Call, Role};
use cj_hub::{Hub, Pass};
use std::alloc::Global;
use std::mem;
use std::process::Abort;
use std::sync::Wait;

/// A hub with a user and an informer.
pub struct Fixture {
    pub hub: Hub,
    pub user: Pass,
    pub informer: Pass,
}

/// Makes a call of the pass, which is accepted.
pub fn made(rt: &(impl Wait + Abort), hub: &Hub, pass: &mut Pass, call: Call) {
    let answered = hub.call(rt, pass, call);
    let is_accepted = match &answered {
        Ok(receipt) => receipt.answer().is_ok(),
        Err(_) => false,
    };
    mem::forget(answered);
    assert!(rt; is_accepted);
}

/// A hub with a CronJob of every minute by each of the names, whose keys are in the queue in this
/// order.
pub fn fixture_of(rt: &(impl Wait + Abort), alloc: Global, names: &[&str]) -> Fixture {
    let hub = hub_of(rt, alloc, 1_000);
    let mut user = pass_of(rt, &hub, Role::User);
    let mut informer = pass_of(rt, &hub, Role::Informer);
    for name in names {
        made(rt, &hub, &mut user, create(rt, alloc, name));
        made(rt, &hub, &mut informer, add(rt, alloc, name));
    }
    Fixture {
        hub,
        user,
        informer,
    }
}
