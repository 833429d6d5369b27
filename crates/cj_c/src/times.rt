ghost use Rattle.std.specs.Prelude.{◌≡◌, ◌⊎◌, true, false};
ghost use Rattle.cj_c.specs.Status.{closed};
ghost use Rattle.cj_c.specs.Times.{IsNextDue, AreNextDue, IsPreviousDue, IsMissedDue, IsMissedTold};

use crate::held::Held;
use crate::status::{CLOSED, DONE, NONE, RANGE};
use crate::timetable::Timetable;
use cj_base::Seconds;
use cj_due::{DueTimes, Missed, latest_in, missed, next_after};
use std::alloc::Global;

/// How many times were missed, and the latest of them.
#[repr(C)]
#[derive(Clone, Copy, Debug)]
pub struct CronMissed {
    /// From 0 to 100, or 101 where they are more.
    pub count: u64,
    /// The latest, in seconds since 1970-01-01T00:00:00Z; 0 where none was missed.
    pub latest: u64,
}

fn next(t: &Timetable, after: u64, due: &mut u64) -> u32
    ensures { IsNextDue t.now after due.old due.new result }
{
    let Some(after) = Seconds::new(after) else {
        return RANGE;
    };
    match next_after(&t.schedule, &t.zone, after) {
        Some(found) => {
            *due = found.get();
            DONE
        }
        None => NONE,
    }
}

fn next_many(t: &Timetable, lo: u64, hi: u64, times: &mut [u64], count: &mut usize) -> u32
    ensures { AreNextDue t.now lo hi times.old times.new count.old count.new result }
{
    let Some(lo) = Seconds::new(lo) else {
        return RANGE;
    };
    let Some(hi) = Seconds::new(hi) else {
        return RANGE;
    };
    *count = DueTimes::new(&t.schedule, &t.zone, lo, hi).fill(times);
    DONE
}

fn previous(t: &Timetable, lo: u64, hi: u64, due: &mut u64) -> u32
    ensures { IsPreviousDue t.now lo hi due.old due.new result }
{
    let Some(lo) = Seconds::new(lo) else {
        return RANGE;
    };
    let Some(hi) = Seconds::new(hi) else {
        return RANGE;
    };
    match latest_in(&t.schedule, &t.zone, lo, hi) {
        Some(found) => {
            *due = found.get();
            DONE
        }
        None => NONE,
    }
}

// The times missed, as their caller gets them.
fn missed_of(t: &Timetable, lo: Seconds, hi: Seconds) -> CronMissed
    ensures { IsMissedTold t.now lo hi result }
{
    match missed(&t.schedule, &t.zone, lo, hi) {
        Missed::None => CronMissed {
            count: 0,
            latest: 0,
        },
        Missed::Some { count, latest } => CronMissed {
            count: count as u64,
            latest: latest.get(),
        },
        Missed::Many { latest } => CronMissed {
            count: 101,
            latest: latest.get(),
        },
    }
}

fn missed_in(t: &Timetable, lo: u64, hi: u64, told: &mut CronMissed) -> u32
    ensures { IsMissedDue t.now lo hi told.old told.new result }
{
    let Some(lo) = Seconds::new(lo) else {
        return RANGE;
    };
    let Some(hi) = Seconds::new(hi) else {
        return RANGE;
    };
    *told = missed_of(t, lo, hi);
    DONE
}

/// The least due time after an instant and within 3,000 days (259,200,000 seconds).
#[unsafe(no_mangle)]
pub extern "C" fn cronsim_next(alloc: Global, cron: &mut Held, after: u64, due: &mut u64) -> u32
    ensures kept { cron.new.full ≡ cron.old.full }
    ensures stays { cron.old.full ≡ true → cron.new.timetable ≡ cron.old.timetable }
    ensures found { cron.old.full ≡ true →
        IsNextDue cron.old.timetable after due.old due.new result }
    ensures closed { cron.old.full ≡ false → (result ≡ closed) × (due.new ≡ due.old) }
{
    let Some(timetable) = cron.take(alloc) else {
        return CLOSED;
    };
    let status = next(&timetable, after, due);
    cron.put(timetable);
    status
}

/// The due times after one instant and up to another, in order, as many as have room.
#[unsafe(no_mangle)]
pub extern "C" fn cronsim_next_many(
    alloc: Global,
    cron: &mut Held,
    after: u64,
    until: u64,
    times: &mut [u64],
    count: &mut usize,
) -> u32
    ensures kept { cron.new.full ≡ cron.old.full }
    ensures stays { cron.old.full ≡ true → cron.new.timetable ≡ cron.old.timetable }
    ensures found { cron.old.full ≡ true →
        AreNextDue cron.old.timetable after until times.old times.new count.old count.new result }
    ensures closed { cron.old.full ≡ false →
        (result ≡ closed) × (times.new ≡ times.old) × (count.new ≡ count.old) }
{
    let Some(timetable) = cron.take(alloc) else {
        return CLOSED;
    };
    let status = next_many(&timetable, after, until, times, count);
    cron.put(timetable);
    status
}

/// The greatest due time after one instant and up to another.
#[unsafe(no_mangle)]
pub extern "C" fn cronsim_previous(
    alloc: Global,
    cron: &mut Held,
    after: u64,
    until: u64,
    due: &mut u64,
) -> u32
    ensures kept { cron.new.full ≡ cron.old.full }
    ensures stays { cron.old.full ≡ true → cron.new.timetable ≡ cron.old.timetable }
    ensures found { cron.old.full ≡ true →
        IsPreviousDue cron.old.timetable after until due.old due.new result }
    ensures closed { cron.old.full ≡ false → (result ≡ closed) × (due.new ≡ due.old) }
{
    let Some(timetable) = cron.take(alloc) else {
        return CLOSED;
    };
    let status = previous(&timetable, after, until, due);
    cron.put(timetable);
    status
}

/// The times missed after one instant and up to another.
#[unsafe(no_mangle)]
pub extern "C" fn cronsim_missed(
    alloc: Global,
    cron: &mut Held,
    after: u64,
    until: u64,
    told: &mut CronMissed,
) -> u32
    ensures kept { cron.new.full ≡ cron.old.full }
    ensures stays { cron.old.full ≡ true → cron.new.timetable ≡ cron.old.timetable }
    ensures found { cron.old.full ≡ true →
        IsMissedDue cron.old.timetable after until told.old told.new result }
    ensures closed { cron.old.full ≡ false → (result ≡ closed) × (told.new ≡ told.old) }
{
    let Some(timetable) = cron.take(alloc) else {
        return CLOSED;
    };
    let status = missed_in(&timetable, after, until, told);
    cron.put(timetable);
    status
}
