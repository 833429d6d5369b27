ghost use Rattle.std.specs.Prelude.{◌≡◌, ◌≤◌, ◌<◌, ◌+◌, IfOk, IfErr, OnOk, OnErr, IsTrue, length, option_copied, unwrap_or, min};
ghost use Rattle.std.specs.FinMap as map;
ghost use Rattle.cj_base.specs.declared.refusal.Refusal.TheVariants.{OutOfMemory};
ghost use Rattle.cj_queue.specs.Queue.{new_queue, row_adds, row_end, added, taken, ended, added_after, ticked, closed, failures_of, delay, failed, forgotten, finished_ok, finished_retry, first, has};
ghost use Rattle.cj_queue.specs.Times.{ready, without, waits_for};

use crate::backoff::{delay_after, one_more};
use crate::failures::Failures;
use crate::secret::Secret;
use crate::waits::Waits;
use crate::work::Work;
use cj_types::{Key, Millis, Refusal, TryCopy};
use std::alloc::Global;
use std::marker::Model;

/// Keys to work on, each by one caller at a time.
///
/// An added key is dirty, and is in the line until it is taken. A key that is added while it is
/// worked on goes back into the line when that work is done. Contracts see the line, the dirty
/// keys, the keys that are being worked on, the times for which keys wait, the failures, the
/// greatest tick, and whether the queue is shut.
pub struct Queue {
    alloc: Global,
    work: Work,
    waits: Waits,
    failures: Failures,
    tick: u64,
    shut: bool,
}

impl Drop for Queue {
    fn drop(self) {
        let Queue {
            alloc: _,
            work,
            waits,
            failures,
            tick: _,
            shut: _,
        } = self;
        drop(work);
        drop(waits);
        drop(failures);
    }
}

impl Model for Queue {
    ghost use Rattle.cj_queue.specs.Queue.{Queue, queue_code};

    ghost Value = { Queue };

    ghost coded = { queue_code };

    ghost view = { λ q. record {
      row = q.work.row;
      waiting = q.waits;
      failures = q.failures;
      tick = q.tick;
      shut = q.shut;
    } };
}

impl Queue {
    /// An empty queue, which takes its memory from `alloc`.
    pub fn new(alloc: Global) -> Queue
        ensures { result ≡ new_queue }
    {
        Queue::keyed(alloc, Secret { first: 0, last: 0 })
    }

    /// An empty queue whose hashes have a secret: nobody can choose names that are slow to find.
    pub fn keyed(alloc: Global, secret: Secret) -> Queue
        ensures { result ≡ new_queue }
    {
        Queue {
            alloc,
            work: Work::new(alloc, secret),
            waits: Waits::new(alloc, secret),
            failures: Failures::new(alloc),
            tick: 0,
            shut: false,
        }
    }

    /// Marks the key as dirty, and appends it to the line unless it was dirty or is being worked
    /// on. After `shut` this does nothing.
    pub fn add(&mut self, key: &Key) -> Result<(), Refusal>
        ensures ok { OnOk result (self.new ≡ added self.old key.now) }
        ensures err { OnErr result (self.new ≡ self.old) }
        ensures memory { IfErr result (λ e. e ≡ OutOfMemory) }
    {
        if self.shut {
            return Ok(());
        }
        self.work.add_key(self.alloc, key)
    }

    /// How many keys are in the line (client-go's Len).
    pub fn len(&self) -> usize
        ensures { result ≡ length self.now.row.line }
    {
        self.work.len()
    }

    /// The first key of the line, which the next `take` gives.
    pub fn front(&self) -> Option<&Key>
        ensures { option_copied result ≡ first self.now.row.line }
    {
        self.work.front()
    }

    /// Takes the first key of the line to work on it: it isn't dirty any more. `None` where the
    /// line is empty.
    pub fn take(&mut self) -> Result<Option<Key>, Refusal>
        ensures answer { IfOk result (λ k. k ≡ first self.old.row.line) }
        ensures ok { OnOk result (self.new ≡ taken self.old) }
        ensures err { OnErr result (self.new ≡ self.old) }
        ensures memory { IfErr result (λ e. e ≡ OutOfMemory) }
    {
        self.work.take(self.alloc)
    }

    /// Whether the key was taken, and the work on it isn't done.
    pub fn is_processing(&self, key: &Key) -> bool
        ensures { result ≡ has self.now.row.processing key.now }
    {
        self.work.is_processing(key)
    }

    /// Ends the work on the key, and appends it to the line if it was added meanwhile.
    pub fn done(&mut self, key: &Key) -> Result<(), Refusal>
        requires { IsTrue (has self.old.row.processing key.now) }
        ensures ok { OnOk result (self.new ≡ ended self.old key.now) }
        ensures err { OnErr result (self.new ≡ self.old) }
        ensures memory { IfErr result (λ e. e ≡ OutOfMemory) }
    {
        self.work.reserve(1)?;
        self.work.end(key);
        Ok(())
    }

    /// Adds the key at once where the time, in milliseconds, isn't above the greatest tick so far.
    /// Else the key waits for that time, or for an earlier one for which it waits already. After
    /// `shut` this does nothing.
    pub fn add_after(&mut self, key: &Key, at_ms: u64) -> Result<(), Refusal>
        ensures ok { OnOk result (self.new ≡ added_after self.old key.now at_ms) }
        ensures err { OnErr result (self.new ≡ self.old) }
        ensures memory { IfErr result (λ e. e ≡ OutOfMemory) }
    {
        if self.shut {
            return Ok(());
        }
        if at_ms > self.tick {
            return self.waits.keep(self.alloc, key, at_ms);
        }
        self.work.add_key(self.alloc, key)
    }

    /// Adds each key that waits for a time not above the moment `now_ms`, by time, then key.
    pub fn tick(&mut self, now_ms: Millis) -> Result<(), Refusal>
        ensures ok { OnOk result (self.new ≡ ticked self.old now_ms) }
        ensures err { OnErr result (self.new ≡ self.old) }
        ensures memory { IfErr result (λ e. e ≡ OutOfMemory) }
    {
        let moment = now_ms.get();
        if self.shut {
            self.tick = self.tick.max(moment);
            return Ok(());
        }
        let count = self.waits.count_ready(moment);
        self.work.reserve(count)?;
        add_ready(&mut self.waits, &mut self.work, moment, count);
        self.tick = self.tick.max(moment);
        Ok(())
    }

    /// Drops all waiting keys, and takes no more adds.
    pub fn shut(&mut self)
        ensures { self.new ≡ closed self.old }
    {
        self.waits.clear();
        self.shut = true;
    }

    /// Whether `shut` was called.
    pub fn is_shut(&self) -> bool
        ensures { result ≡ self.now.shut }
    {
        self.shut
    }

    /// The delay after the key's failures in a row so far: 5 ms, doubled for each, and at most
    /// 1,000,000 ms.
    pub fn retry_delay(&self, key: &Key) -> Millis
        ensures value { result ≡ delay (failures_of self.now key.now) }
        ensures bound { result ≤ 1000000 }
    {
        Millis::new(delay_after(self.failures.get(key))).unwrap()
    }

    /// Counts a failure of the key, up to 18.
    pub fn failed(&mut self, key: &Key) -> Result<(), Refusal>
        ensures ok { OnOk result (self.new ≡ failed self.old key.now) }
        ensures err { OnErr result (self.new ≡ self.old) }
        ensures memory { IfErr result (λ e. e ≡ OutOfMemory) }
    {
        let count = self.failures.get(key);
        self.failures.put(self.alloc, key, one_more(count))
    }

    /// Resets the key's count of failures to 0.
    pub fn forget(&mut self, key: &Key)
        ensures { self.new ≡ forgotten self.old key.now }
    {
        self.failures.remove(key);
    }

    /// `done`, `forget` and, where a time is given, `add_after`, in one call.
    pub fn finish_ok(&mut self, key: &Key, at_ms: Option<u64>) -> Result<(), Refusal>
        requires { IsTrue (has self.old.row.processing key.now) }
        ensures ok { OnOk result (self.new ≡ finished_ok self.old key.now at_ms) }
        ensures err { OnErr result (self.new ≡ self.old) }
        ensures memory { IfErr result (λ e. e ≡ OutOfMemory) }
    {
        self.work.reserve(2)?;
        let Some(next) = at_ms else {
            end_well(&mut self.work, &mut self.failures, key);
            return Ok(());
        };
        if self.shut {
            end_well(&mut self.work, &mut self.failures, key);
            return Ok(());
        }
        if next > self.tick {
            self.waits.keep(self.alloc, key, next)?;
            end_well(&mut self.work, &mut self.failures, key);
            return Ok(());
        }
        let copy = key.try_copy(self.alloc)?;
        end_well(&mut self.work, &mut self.failures, key);
        self.work.add(copy);
        Ok(())
    }

    /// `done`, `add_after` by the retry delay from `now_ms` on, and `failed`, in one call.
    pub fn finish_retry(&mut self, key: &Key, now_ms: Millis) -> Result<(), Refusal>
        requires { IsTrue (has self.old.row.processing key.now) }
        ensures ok { OnOk result (self.new ≡ finished_retry self.old key.now now_ms) }
        ensures err { OnErr result (self.new ≡ self.old) }
        ensures memory { IfErr result (λ e. e ≡ OutOfMemory) }
    {
        let count = self.failures.get(key);
        let at = now_ms.get() + delay_after(count);
        self.work.reserve(2)?;
        if self.shut {
            self.failures.put(self.alloc, key, one_more(count))?;
            self.work.end(key);
            return Ok(());
        }
        if at > self.tick {
            put_off(&mut self.waits, &mut self.failures, self.alloc, key, at)?;
            self.work.end(key);
            return Ok(());
        }
        let copy = key.try_copy(self.alloc)?;
        self.failures.put(self.alloc, key, one_more(count))?;
        self.work.end(key);
        self.work.add(copy);
        Ok(())
    }
}

// Adds the keys that wait for a time not above `now`, of which there are `count`, and has them wait
// no more.
fn add_ready(waits: &mut Waits, work: &mut Work, now: u64, count: usize)
    requires count { count ≡ length (ready waits.old now) }
    requires room { count ≤ work.old.room }
    ensures waits { waits.new ≡ without waits.old (ready waits.old now) }
    ensures rows { work.new.row ≡ row_adds work.old.row (ready waits.old now) }
{
    for _ in 0..count {
        let Some((key, _)) = waits.take_ready(now) else {
            return;
        };
        work.add(key);
    }
}

// Ends the work on the key, and forgets its failures.
fn end_well(work: &mut Work, failures: &mut Failures, key: &Key)
    requires room { 0 < work.old.room }
    requires held { IsTrue (has work.old.row.processing key.now) }
    ensures row { work.new.row ≡ row_end work.old.row key.now }
    ensures room { work.old.room ≤ work.new.room + 1 }
    ensures counts { failures.new ≡ map.remove failures.old key.now }
{
    failures.remove(key);
    work.end(key);
}

// The key waits for the time, or for an earlier one for which it waits already, and a failure of it
// is counted.
fn put_off(
    waits: &mut Waits,
    failures: &mut Failures,
    alloc: Global,
    key: &Key,
    at: u64,
) -> Result<(), Refusal>
    ensures times { OnOk result (waits.new ≡ waits_for waits.old key.now at) }
    ensures counts { OnOk result (failures.new ≡ map.insert failures.old key.now
        (min (unwrap_or (map.get failures.old key.now) 0 + 1) 18)) }
    ensures waits { OnErr result (waits.new ≡ waits.old) }
    ensures failures { OnErr result (failures.new ≡ failures.old) }
    ensures memory { IfErr result (λ e. e ≡ OutOfMemory) }
{
    let before = failures.kept(key);
    failures.put(alloc, key, one_more(before.unwrap_or(0)))?;
    let kept = waits.keep(alloc, key, at);
    if kept.is_err() {
        failures.put_back(key, before);
    }
    kept
}
