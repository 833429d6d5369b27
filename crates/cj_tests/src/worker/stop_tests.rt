use crate::calls::{FIRST, SECOND, add};
use crate::worker::clocks::{Moving, clock_between};
use crate::worker::deeds::closed;
use crate::worker::fixtures::{Fixture, fixture_of, made};
use crate::worker::stops::StopsAt;
use crate::worker::worker_ends::{last_of, two_workers};
use cj_calls::Call;
use cj_hub::{Closed, Hub, Pass};
use cj_types::{CronJob, Job, Shared};
use cj_worker::Point;
use std::alloc::Global;
use std::mem;
use std::process::Abort;
use std::sync::Wait;
use std::thread::{self, Threads};

// Moves the workers' clock to the second minute and adds both keys again, once `a` is stopped and
// `b` has a Job; shuts the queue once `b` has two. Answers whether it came to both.
fn is_led(
    rt: &(impl Wait + Abort),
    alloc: Global,
    hub: &Hub,
    informer: &mut Pass,
    gate: &StopsAt,
    clock: &Moving,
) -> bool {
    let has_first = gate.waits_for(1);
    clock.move_on();
    made(rt, hub, informer, add(rt, alloc, "a"));
    made(rt, hub, informer, add(rt, alloc, "b"));
    let has_second = gate.waits_for(2);
    made(rt, hub, informer, Call::Shut);
    has_first && has_second
}

// The last scheduled time of the first CronJob, 0 for none.
fn last_time(crons: &[Shared<CronJob>]) -> u64 {
    match crons.first() {
        Some(cron) => cron
            .get()
            .status
            .last_schedule_time
            .map_or(0, |time| time.get()),
        None => 0,
    }
}

// How many Jobs have a name that begins so.
fn count(jobs: &[Shared<Job>], beginning: &str) -> usize {
    let mut count = 0usize;
    for job in jobs {
        if job.get().key.name().starts_with(beginning) {
            count = count.saturating_add(1);
        }
    }
    count
}

// The last scheduled time of `a`, and how many Jobs `a` and `b` have.
type Left = (u64, [usize; 2]);

fn left(rt: &impl Abort, closed: &Closed) -> Left {
    let (crons, jobs) = closed.objects().ok().expect(rt, "memory");
    let time = last_time(crons.as_slice());
    let counts = [count(jobs.as_slice(), "a-"), count(jobs.as_slice(), "b-")];
    mem::forget(crons);
    mem::forget(jobs);
    (time, counts)
}

// Whether it went on within the polls; how one of the workers ended and with which call, and then
// the other, which found the queue shut; and what is left.
type Row = (bool, [&'static str; 2], [&'static str; 2], Left);

fn stopped_at(rt: &(impl Threads + Wait + Abort + Sync), alloc: Global, point: Point) -> Row {
    let Fixture {
        hub,
        user,
        mut informer,
    } = fixture_of(rt, alloc, &["a", "b"]);
    let gate = StopsAt::new(point);
    let clock = clock_between(rt, FIRST, SECOND);
    let (mut workers, is_led) = thread::join(
        rt,
        || two_workers(rt, alloc, &hub, &gate, &clock),
        || is_led(rt, alloc, &hub, &mut informer, &gate, &clock),
    );
    let mut passes = vec![in alloc; user, informer].expect(rt, "memory");
    let two = last_of(rt, &mut workers, &mut passes);
    let one = last_of(rt, &mut workers, &mut passes);
    mem::forget(workers);
    let closed = closed(rt, hub, passes);
    let left = left(rt, &closed);
    mem::forget(closed);
    let (stopped, other) = if one.end == "ShutDown" {
        (two, one)
    } else {
        (one, two)
    };
    (
        is_led,
        [stopped.end, stopped.call],
        [other.end, other.call],
        left,
    )
}

const OTHER: [&str; 2] = ["ShutDown", "Take"];

const ROWS: [Row; 5] = [
    (true, ["Taken", "Take"], OTHER, (0, [0, 2])),
    (true, ["Seen", "SeeCron"], OTHER, (0, [0, 2])),
    (true, ["Listed", "SeeJobs"], OTHER, (0, [0, 2])),
    (true, ["Claimed", "Claim"], OTHER, (FIRST, [0, 2])),
    (true, ["Made", "MakeNext"], OTHER, (FIRST, [1, 2])),
];

// Two workers on threads, in the first minute and then in the second. The sync of `a` that is
// stopped at one of the five points makes no further call, and its worker none at all: it ends
// there, with that call as its last. `a` has no last time and no Job up to Listed, the first minute
// and no Job at Claimed, one Job at Made. Its key stays held: the other worker never gets it,
// though it is added again, makes both Jobs of `b`, and ends once the queue is shut.
// rules: stopped-sync, worker-ends
#[test]
fn stopped_at_each_point(rt: HostRuntime) {
    let alloc = rt.alloc();
    let rows = [
        stopped_at(&rt, alloc, Point::Taken),
        stopped_at(&rt, alloc, Point::Seen),
        stopped_at(&rt, alloc, Point::Listed),
        stopped_at(&rt, alloc, Point::Claimed),
        stopped_at(&rt, alloc, Point::Made),
    ];
    assert!(rt; rows == ROWS);
}
