use crate::calls::add;
use crate::hub::answers::{called, word};
use crate::hubs::{hub_of, pass_of};
use cj_calls::{Call, Role};
use cj_hub::{Desk, HubDesk, Pass, PlainDesk};
use cj_types::Limits;
use std::alloc::Global;
use std::mem;
use std::process::Abort;
use std::sync::Wait;

// What an informer and a worker are answered at a desk.
fn answers<D: Desk>(
    desk: &mut D,
    informer: &mut Pass,
    worker: &mut Pass,
    added: Call,
) -> [&'static str; 2] {
    [
        word(desk.call(informer, added)),
        word(desk.call(worker, Call::Take)),
    ]
}

fn at_a_hub(rt: &(impl Wait + Abort), alloc: Global) -> [&'static str; 2] {
    let hub = hub_of(rt, alloc, 100);
    let mut informer = pass_of(rt, &hub, Role::Informer);
    let mut worker = pass_of(rt, &hub, Role::Worker);
    let mut desk = HubDesk::new(&hub, rt);
    let added = add(rt, alloc, "a");
    let answers = answers(&mut desk, &mut informer, &mut worker, added);
    mem::forget(hub);
    answers
}

// The same at a hub whose lock is held; then a call that takes the lock itself.
fn at_a_held_hub(rt: &(impl Wait + Abort), alloc: Global) -> ([&'static str; 2], &'static str) {
    let hub = hub_of(rt, alloc, 100);
    let mut informer = pass_of(rt, &hub, Role::Informer);
    let mut worker = pass_of(rt, &hub, Role::Worker);
    let mut desk = hub.hold(rt);
    let added = add(rt, alloc, "a");
    let answers = answers(&mut desk, &mut informer, &mut worker, added);
    drop(desk);
    let then = called(rt, &hub, &mut informer, Call::Shut);
    mem::forget(hub);
    (answers, then)
}

fn at_a_book(rt: &impl Abort, alloc: Global) -> [&'static str; 2] {
    let limits = Limits::new(100, 100).expect(rt, "limits");
    let mut desk = PlainDesk::new(alloc, limits).expect(rt, "memory");
    let mut informer = desk.enroll(Role::Informer).expect(rt, "memory");
    let mut worker = desk.enroll(Role::Worker).expect(rt, "memory");
    let added = add(rt, alloc, "a");
    let answers = answers(&mut desk, &mut informer, &mut worker, added);
    mem::forget(desk);
    answers
}

// A key that is added is taken while the lock is held, which is free again then.
// rule: desks
#[test]
fn a_hold_ends_with_its_desk(rt: HostRuntime) {
    let held = at_a_held_hub(&rt, rt.alloc());
    assert!(rt; held == (["entered", "Key"], "entered"));
}

// A key that is added is taken, through a hub that threads share and through a book of one's own.
// rule: desks
#[test]
fn a_key_is_taken_at_either_desk(rt: HostRuntime) {
    let answers = [at_a_hub(&rt, rt.alloc()), at_a_book(&rt, rt.alloc())];
    assert!(rt; answers == [["entered", "Key"]; 2]);
}
