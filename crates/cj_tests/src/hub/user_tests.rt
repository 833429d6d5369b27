use crate::hub::closings::{Counts, counts};
use crate::hub::users::{each_has, four_users};
use crate::hubs::hub_of;
use std::alloc::Global;
use std::mem;
use std::process::Abort;
use std::sync::Wait;
use std::thread::Threads;

// Whether each of four users has 200 receipts, and what the closed hub has of them.
fn closing(rt: &(impl Threads + Wait + Abort + Sync), alloc: Global) -> (bool, Counts) {
    let hub = hub_of(rt, alloc, 10_000);
    let (passes, receipts) = four_users(rt, alloc, &hub);
    let is_counted = each_has(passes.as_slice(), 200);
    let counts = counts(hub.close(passes), receipts.as_slice());
    mem::forget(receipts);
    (is_counted, counts)
}

// Four users on threads create 100 CronJobs each and read each back, the same at a later place:
// every pass counts 200 receipts, the hub closes with 800 entries, and all 800 receipts stand in
// its history.
// rules: receipts, closing, passes
#[test]
fn four_users_on_threads(rt: HostRuntime) {
    let told = closing(&rt, rt.alloc());
    assert!(rt; told == (true, [800, 800]));
}
