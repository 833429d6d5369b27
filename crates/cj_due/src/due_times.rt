ghost use Rattle.std.specs.Prelude.{◌≡◌, ◌<◌, ◌≤◌, ◌∷◌, ◌++◌, [], IfSome, IsNone, drop, length, take};
ghost use Rattle.std.specs.Iterator.{YieldsFirst, item_count};
ghost use Rattle.cj_due.specs.DueTimes.{due_times};

use crate::ahead::{base_of, next_ahead};
use crate::calendar::next_minute;
use crate::instant::instant;
use crate::intervals::next_scan;
use crate::span::span_from;
use cj_base::Seconds;
use cj_schedule::Schedule;
use cj_zone::Zone;
use std::marker::Model;

// The last minute of a day.
const LAST_MINUTE: u64 = 1_439;

/// The due times of a schedule in a zone after one instant and up to another, in order. The search
/// for one goes on from where the last one stands: while the clock keeps its offset, the next time
/// on the same day is told by the bits of the minutes and the hours.
///
/// Contracts see the list of the due times that are left.
#[derive(Drop)]
pub struct DueTimes<'a> {
    schedule: &'a Schedule,
    zone: &'a Zone,
    // What is due up to here was given.
    at: u64,
    // The last second that is asked for.
    end: u64,
    // The last second up to which the clock keeps its offset, if it is after `at`. Only then the
    // two below mean something.
    until: u64,
    // What the clock shows in the first minute of 1970, counted from -9999-01-01T00:00.
    base: u64,
    // The minute of the day that it shows at `at`.
    minute: u64,
}

impl<'a> Model for DueTimes<'a> {
    ghost use Rattle.std.specs.Prelude.{List, ℕ};
    ghost use Rattle.cj_due.specs.DueTimes.{due_times, IsCursor};

    ghost Value = { List ℕ };

    ghost view = { λ d. due_times d.schedule.now d.zone.now d.at d.end };

    ghost invariant = { λ d. IsCursor d.schedule.now d.zone.now d.at d.end d.until d.base
        d.minute };
}

impl<'a> DueTimes<'a> {
    /// The due times after one instant and up to another.
    pub fn new(schedule: &'a Schedule, zone: &'a Zone, after: Seconds, end: Seconds) -> DueTimes<'a>
        ensures { result ≡ due_times schedule.now zone.now after end }
    {
        DueTimes {
            schedule,
            zone,
            at: after.get(),
            end: end.get(),
            until: 0,
            base: 0,
            minute: 0,
        }
    }

    // The next due time on the day of the last one, while the clock keeps its offset.
    fn next_on_day(&mut self) -> Option<Seconds>
        ensures some { IfSome result (λ t. self.old ≡ t ∷ self.new) }
        ensures none { IsNone result → self.new ≡ self.old }
    {
        if self.minute >= LAST_MINUTE {
            return None;
        }
        let minute = next_minute(self.schedule, self.minute + 1)?;
        let time = self.at + (minute - self.minute) * 60;
        if self.until < time {
            return None;
        }
        self.at = time;
        self.minute = minute;
        Some(instant(time))
    }

    // The next due time while the clock keeps its offset.
    fn next_in_span(&mut self) -> Option<Seconds>
        ensures some { IfSome result (λ t. self.old ≡ t ∷ self.new) }
        ensures none { IsNone result → self.new ≡ self.old }
    {
        let from = self.at / 60 + 1;
        let last = self.until / 60;
        if last < from {
            return None;
        }
        let found = next_ahead(self.schedule, self.base, from, last);
        if last < found {
            self.at = self.until;
            return None;
        }
        self.at = found * 60;
        self.minute = (self.base + found) % 1_440;
        Some(instant(self.at))
    }

    // The next due time, and the time in which the clock keeps the offset that it has then.
    fn next_by_search(&mut self) -> Option<Seconds>
        ensures some { IfSome result (λ t. self.old ≡ t ∷ self.new) }
        ensures none { IsNone result → (self.old ≡ []) × (self.new ≡ []) }
    {
        let found = next_scan(self.schedule, self.zone, self.at, self.end).found;
        let Some(time) = found else {
            self.at = self.at.max(self.end);
            return None;
        };
        let span = span_from(self.zone, time);
        self.at = time.get();
        self.until = span.last.min(self.end);
        self.base = base_of(span.one);
        self.minute = (self.base + self.at / 60) % 1_440;
        Some(time)
    }

    /// Writes the next due times into the slice, in order, and returns how many there were: fewer
    /// than have room only where no more are left. The rest of the slice stays as it is.
    pub fn fill(&mut self, times: &mut [u64]) -> usize
        ensures room { result ≤ length times.old }
        ensures given { self.old ≡ take result times.new ++ self.new }
        ensures all { result < length times.old → self.new ≡ [] }
        ensures rest { drop result times.new ≡ drop result times.old }
    {
        let mut count = 0;
        while count < times.len() {
            let Some(time) = self.next() else {
                return count;
            };
            times[count] = time.get();
            count += 1;
        }
        count
    }
}

impl<'a> Iterator for DueTimes<'a> {
    type Item = Seconds;

    ghost next_gives = { YieldsFirst (λ left. left) };

    ghost remaining = { item_count (λ left. left) };

    fn next(&mut self) -> Option<Seconds> {
        if let Some(time) = self.next_on_day() {
            return Some(time);
        }
        if let Some(time) = self.next_in_span() {
            return Some(time);
        }
        self.next_by_search()
    }
}
