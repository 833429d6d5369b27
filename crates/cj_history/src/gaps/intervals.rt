// The intervals of time that were looked at last, of each CronJob one.
ghost use Rattle.std.specs.Prelude.{◌≡◌, ◌≤◌, ◌<◌, ℕ, None, max, IsTrue, IfErr, OnOk};
ghost use Rattle.cj_base.specs.declared.refusal.Refusal.TheVariants.{OutOfMemory};
ghost use Rattle.cj_history.specs.gaps.reading.Intervals as known;

use cj_schedule::Schedule;
use cj_types::{Refusal, Same, Seconds, Shared, Uid};
use cj_zone::Zone;
use std::alloc::Global;
use std::collections::BTreeMap;

/// An interval of time that was looked at, by a schedule and in a zone.
#[derive(Drop)]
pub(crate) struct Interval {
    pub schedule: Schedule,
    pub zone: Shared<Zone>,
    /// The times after this one were looked at, ..
    pub from: Seconds,
    /// .. and up to this one.
    pub upto: Seconds,
}

/// The interval of each CronJob, by its uid.
#[derive(Drop)]
pub(crate) struct Intervals {
    intervals: BTreeMap<Uid, Interval>,
}

/// The later of two instants.
pub(crate) fn later(a: Seconds, b: Seconds) -> Seconds
    ensures { result ≡ max a b }
{
    a.max(b)
}

impl Interval {
    // Whether it is of that schedule and that zone, and begins no later.
    fn is_of(&self, schedule: &Schedule, zone: &Zone, from: Seconds) -> bool
        ensures { IsTrue result → known.IsIntervalOf schedule.now zone.now from self.now }
    {
        let by = self.schedule == *schedule;
        let within = self.zone.get().same(zone);
        by && within && self.from <= from
    }
}

impl Intervals {
    /// Nothing was looked at.
    pub(crate) fn new(alloc: Global) -> Intervals
        ensures { (u : ℕ) → known.interval_at result u ≡ None }
    {
        Intervals {
            intervals: BTreeMap::new(alloc),
        }
    }

    /// The instant after which the times of the CronJob after `from` weren't looked at yet.
    pub(crate) fn seen_upto(
        &self,
        uid: Uid,
        schedule: &Schedule,
        zone: &Zone,
        from: Seconds,
    ) -> Seconds
        ensures low { from ≤ result }
        ensures seen { from < result →
            known.IsLookedAt self.now uid schedule.now zone.now from result }
    {
        let Some(interval) = self.intervals.get(&uid) else {
            return from;
        };
        if interval.is_of(schedule, zone, from) {
            later(from, interval.upto)
        } else {
            from
        }
    }

    /// The CronJob gets that interval in place of the one that it had.
    pub(crate) fn put(&mut self, uid: Uid, interval: Interval) -> Result<(), Refusal>
        ensures ok { OnOk result (known.PutInterval uid interval self.old self.new) }
        ensures err { IfErr result (λ e. e ≡ OutOfMemory) }
    {
        match self.intervals.insert(uid, interval) {
            Ok(_) => Ok(()),
            Err(_) => Err(Refusal::OutOfMemory),
        }
    }
}
