// Users, who create CronJobs and read them back.
use crate::calls::{create, read};
use crate::hubs::pass_of;
use cj_calls::{Role, same_answer};
use cj_hub::{Hub, Pass, Receipt};
use std::alloc::Global;
use std::process::Abort;
use std::sync::{Mutex, Wait};
use std::thread::{self, Threads};

// Whether a creation was accepted, and the reading answered the same CronJob at a later place.
fn is_read_back(created: &Receipt, read: &Receipt) -> bool {
    let is_later = created.place() < read.place();
    let is_same = same_answer(created.answer(), read.answer());
    is_later && is_same && created.answer().is_ok()
}

// Creates one CronJob, reads it, and keeps both receipts. Tells whether it was read back.
fn create_and_read(
    rt: &(impl Wait + Abort),
    alloc: Global,
    hub: &Hub,
    user: &mut Pass,
    name: &str,
    receipts: &mut Vec<Receipt>,
) -> bool {
    let creation = create(rt, alloc, name);
    let created = hub.call(rt, user, creation).expect(rt, "a receipt");
    let reading = read(rt, alloc, name);
    let read = hub.call(rt, user, reading).expect(rt, "a receipt");
    let is_read_back = is_read_back(&created, &read);
    receipts.push(created).expect(rt, "memory");
    receipts.push(read).expect(rt, "memory");
    is_read_back
}

// Creates a hundred CronJobs under names of its own, each of which is read back, and keeps the
// receipts with those of the others.
fn work(
    rt: &(impl Wait + Abort),
    alloc: Global,
    hub: &Hub,
    user: &mut Pass,
    kept: &Mutex<Vec<Receipt>>,
) {
    let number = user.caller().number;
    let mut receipts = Vec::new(alloc);
    let mut are_read_back = true;
    for turn in 0..100u32 {
        let name = format!(in alloc; "cron-{number}-{turn}").expect(rt, "memory");
        if !create_and_read(rt, alloc, hub, user, name.as_str(), &mut receipts) {
            are_read_back = false;
        }
    }
    assert!(rt; are_read_back);
    kept.lock(rt).append(&mut receipts).expect(rt, "memory");
}

fn four_passes(rt: &(impl Wait + Abort), alloc: Global, hub: &Hub) -> Vec<Pass> {
    let user = Role::User;
    let one = pass_of(rt, hub, user);
    let two = pass_of(rt, hub, user);
    let three = pass_of(rt, hub, user);
    let four = pass_of(rt, hub, user);
    vec![in alloc; one, two, three, four].expect(rt, "memory")
}

/// The passes of four users who worked at once, each on a thread of its own, and the receipts that
/// they got.
pub fn four_users(
    rt: &(impl Threads + Wait + Abort + Sync),
    alloc: Global,
    hub: &Hub,
) -> (Vec<Pass>, Vec<Receipt>) {
    let mut passes = four_passes(rt, alloc, hub);
    let kept = Mutex::new(Vec::new(alloc));
    let shared = &kept;
    thread::for_each_mut(
        rt,
        passes.as_mut_slice(),
        4,
        &|_, user| {
            work(rt, alloc, hub, user, shared);
        },
    );
    (passes, kept.into_inner())
}

/// Whether each has so many receipts.
pub fn each_has(passes: &[Pass], count: usize) -> bool {
    for pass in passes {
        if pass.receipts().len() != count {
            return false;
        }
    }
    true
}
