use crate::calls::{FIRST, add, edit};
use crate::hubs::pass_of;
use crate::worker::deeds::{Deed, Sought, counts};
use crate::worker::disturbed::disturbed;
use crate::worker::fixtures::{Fixture, fixture_of, made};
use crate::worker::syncs::synced;
use cj_calls::Role;
use cj_worker::{OpenGate, Point};
use std::alloc::Global;
use std::mem;
use std::process::Abort;
use std::sync::Wait;

// How a sync ended at whose point a user edits the CronJob, and the next one; and how often the
// history tells of the edit, of claims of a time, of syncs that ended well, and of the Job of the
// first minute.
type Row = ([&'static str; 2], [usize; 4]);

fn edited_at(rt: &(impl Wait + Abort), alloc: Global, point: Point) -> Row {
    let Fixture {
        hub,
        user,
        mut informer,
    } = fixture_of(rt, alloc, &["a"]);
    let mut worker = pass_of(rt, &hub, Role::Worker);
    let edits = [edit(rt, alloc, "a")];
    let (end, user) = disturbed(rt, alloc, &hub, &mut worker, user, &edits, point);
    mem::forget(edits);
    made(rt, &hub, &mut informer, add(rt, alloc, "a"));
    let next_end = synced(rt, alloc, &hub, &mut worker, &OpenGate, FIRST);
    let number = worker.caller().number;
    let sought = [
        Sought::By(user.caller().number, Deed::Edited),
        Sought::By(number, Deed::Claimed),
        Sought::By(number, Deed::Finished),
        Sought::Job("a-28401121"),
    ];
    let passes = vec![in alloc; user, informer, worker].expect(rt, "memory");
    ([end, next_end], counts(rt, hub, passes, sought))
}

const DONE: Row = (["Done", "Done"], [1, 1, 2, 1]);

const RETRIED: Row = (["Conflict", "Done"], [1, 1, 1, 1]);

const ROWS: [Row; 5] = [DONE, RETRIED, RETRIED, DONE, DONE];

// A user edits the CronJob at one of the five points of a sync. At Taken, which is before the
// CronJob is seen, and at Claimed and Made, which are after the claim, the sync is done; at Seen
// and Listed its claim is refused, and the next sync makes the Job. Each time the minute's Job is
// made just once.
// rules: sync-calls, sync-ends, sync-inputs
#[test]
fn edited_at_each_point(rt: HostRuntime) {
    let alloc = rt.alloc();
    let rows = [
        edited_at(&rt, alloc, Point::Taken),
        edited_at(&rt, alloc, Point::Seen),
        edited_at(&rt, alloc, Point::Listed),
        edited_at(&rt, alloc, Point::Claimed),
        edited_at(&rt, alloc, Point::Made),
    ];
    assert!(rt; rows == ROWS);
}
