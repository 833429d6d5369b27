use crate::hub::answers::{called, waited};
use crate::hub::closings::{Counts, counts};
use crate::hubs::{hub_of, pass_of};
use cj_calls::{Call, Role};
use cj_hub::{Hub, Pass};
use std::alloc::Global;
use std::process::Abort;
use std::sync::Wait;

// What a user and a worker are answered while a history of one entry fills.
fn answers(rt: &impl Wait, hub: &Hub, user: &mut Pass, worker: &mut Pass) -> [&'static str; 5] {
    [
        called(rt, hub, worker, Call::Take),
        called(rt, hub, user, Call::ListCrons),
        called(rt, hub, user, Call::ListCrons),
        called(rt, hub, worker, Call::Take),
        waited(rt, hub, worker),
    ]
}

// What the two are answered, how many receipts they have then, and what the hub has once it is
// closed.
type Told = ([&'static str; 5], [usize; 2], Counts);

fn told(rt: &(impl Wait + Abort), alloc: Global) -> Told {
    let hub = hub_of(rt, alloc, 1);
    let mut user = pass_of(rt, &hub, Role::User);
    let mut worker = pass_of(rt, &hub, Role::Worker);
    let answers = answers(rt, &hub, &mut user, &mut worker);
    let receipts = [user.receipts().len(), worker.receipts().len()];
    let passes = vec![in alloc; user, worker].expect(rt, "memory");
    (answers, receipts, counts(hub.close(passes), &[]))
}

const ANSWERS: [&str; 5] = [
    "Empty",
    "entered",
    "HistoryFull",
    "HistoryFull",
    "HistoryFull",
];

// A full history refuses a reading, and a Take, be it one that waits, before it is said that there
// is nothing to take. No pass gains a receipt by a refusal and the history no entry: the hub closes
// with the one that was entered.
// rule: hub-call
#[test]
fn a_full_history(rt: HostRuntime) {
    let told = told(&rt, rt.alloc());
    assert!(rt; told == (ANSWERS, [1, 0], [1, 0]));
}
