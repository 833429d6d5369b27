ghost use Rattle.std.specs.Prelude.{◌≡◌, ◌<◌, IfErr, IfSome, IfNone, OnOk, OnErr, None, Some, [], ◌∷◌, length};
ghost use Rattle.std.specs.FinMap as map;
ghost use Rattle.cj_base.specs.declared.refusal.Refusal.TheVariants.{OutOfMemory};
ghost use Rattle.std.specs.BTreeMap.{keys, IsOrdered};
ghost use Rattle.cj_queue.specs.Times.{ready, ready_in, waits_for, earlier, timed_cmp, Agrees, SetsTime, SameTimes, Leaves, time_of};

use crate::copies::two_copies;
use crate::secret::Secret;
use cj_types::{Key, Refusal, TryCopy};
use std::alloc::Global;
use std::collections::{BTreeMap, HashMap};
use std::marker::Model;

/// Waiting keys, each with its time. Contracts see the time of each key.
pub struct Waits {
    // The time of each key.
    times: HashMap<Key, u64, Secret>,
    // The same keys in the order of their times.
    order: BTreeMap<(u64, Key), ()>,
}

impl Drop for Waits {
    fn drop(self) {
        let Waits { times: _, order: _ } = self;
    }
}

impl Model for Waits {
    ghost use Rattle.std.specs.FinMap as map;
    ghost use Rattle.std.specs.Coded.{coded_ℕ};
    ghost use Rattle.cj_types.specs.Keys.{coded_place};
    ghost use Rattle.cj_queue.specs.Times.{Waiting, Agrees};

    ghost Value = { Waiting };

    ghost coded = { map.code coded_place coded_ℕ };

    ghost view = { λ w. map.from_entries w.times.entries };

    ghost invariant = { λ w. Agrees w.times.entries w.order };
}

impl Waits {
    /// No key waits.
    pub fn new(alloc: Global, secret: Secret) -> Waits
        ensures { result ≡ map.empty }
    {
        Waits {
            times: HashMap::with_hasher(alloc, secret),
            order: BTreeMap::new(alloc),
        }
    }

    /// The key waits for the time, or for an earlier one for which it waits already.
    pub fn keep(&mut self, alloc: Global, key: &Key, at: u64) -> Result<(), Refusal>
        ensures ok { OnOk result (self.new ≡ waits_for self.old key.now at) }
        ensures err { OnErr result (self.new ≡ self.old) }
        ensures memory { IfErr result (λ e. e ≡ OutOfMemory) }
    {
        let before = self.times.get(key).copied();
        let time = kept_time(before, at);
        match before {
            None => put_new(&mut self.times, &mut self.order, alloc, key, time),
            Some(before) => {
                if time < before {
                    put_earlier(&mut self.times, &mut self.order, alloc, key, time, before)
                } else {
                    Ok(())
                }
            }
        }
    }

    /// Removes all waiting keys.
    pub fn clear(&mut self)
        ensures { self.new ≡ map.empty }
    {
        self.times.clear();
        self.order.clear();
    }

    /// How many keys have a time that isn't above `now`.
    pub fn count_ready(&self, now: u64) -> usize
        ensures { result ≡ length (ready self.now now) }
    {
        count_until(&self.order, now)
    }

    /// Takes the first key, by time, then key, whose time isn't above `now`. Answers it and a copy.
    pub fn take_ready(&mut self, now: u64) -> Option<(Key, Key)>
        ensures ready { IfSome result (λ p. ready self.old now ≡ p.0 ∷ ready self.new now) }
        ensures copy { IfSome result (λ p. p.1 ≡ p.0) }
        ensures leaves { IfSome result (λ p. self.new ≡ map.remove self.old p.0) }
        ensures none { IfNone result (ready self.old now ≡ []) }
        ensures stays { IfNone result (self.new ≡ self.old) }
    {
        take_first(&mut self.times, &mut self.order, now)
    }
}

// The earlier of the time for which a key waits already, if it does, and a new one.
fn kept_time(before: Option<u64>, at: u64) -> u64
    ensures { result ≡ earlier before at }
{
    match before {
        Some(before) => before.min(at),
        None => at,
    }
}

// How many entries have a time that isn't above `now`.
fn count_until(order: &BTreeMap<(u64, Key), ()>, now: u64) -> usize
    ensures count { result ≡ length (ready_in (keys order.now) now) }
    ensures sorted { IsOrdered timed_cmp order.now }
{
    let mut count = 0;
    for (at, _) in order.keys() {
        if *at > now {
            return count;
        }
        count += 1;
    }
    count
}

// Removes the first entry from both maps, where its time isn't above `now`. Answers both keys.
fn take_first(
    times: &mut HashMap<Key, u64, Secret>,
    order: &mut BTreeMap<(u64, Key), ()>,
    now: u64,
) -> Option<(Key, Key)>
    requires agree { Agrees times.old.entries order.old }
    ensures agree { Agrees times.new.entries order.new }
    ensures ready { IfSome result (λ p.
        ready_in (keys order.old) now ≡ p.0 ∷ ready_in (keys order.new) now) }
    ensures copy { IfSome result (λ p. p.1 ≡ p.0) }
    ensures leaves { IfSome result (λ p. Leaves times.old.entries times.new.entries p.0) }
    ensures none { IfNone result (ready_in (keys order.old) now ≡ []) }
    ensures stays { IfNone result (times.new.entries ≡ times.old.entries) }
    ensures was_sorted { IsOrdered timed_cmp order.old }
    ensures sorted { IsOrdered timed_cmp order.new }
{
    let Some((at, _)) = order.keys().next() else {
        return None;
    };
    if *at > now {
        return None;
    }
    let Some(((_, key), _)) = order.pop_first() else {
        return None;
    };
    let Some((copy, _)) = times.remove_entry(&key) else {
        return None;
    };
    Some((key, copy))
}

// Adds a key that doesn't wait yet.
fn put_new(
    times: &mut HashMap<Key, u64, Secret>,
    order: &mut BTreeMap<(u64, Key), ()>,
    alloc: Global,
    key: &Key,
    at: u64,
) -> Result<(), Refusal>
    requires agree { Agrees times.old.entries order.old }
    requires absent { time_of times.old.entries key.now ≡ None }
    ensures agree { Agrees times.new.entries order.new }
    ensures ok { OnOk result (SetsTime times.old.entries times.new.entries key.now at) }
    ensures err { OnErr result (SameTimes times.old.entries times.new.entries) }
    ensures memory { IfErr result (λ e. e ≡ OutOfMemory) }
{
    let (first, second) = two_copies(alloc, key)?;
    if times.insert(first, at).is_err() {
        return Err(Refusal::OutOfMemory);
    }
    if order.insert((at, second), ()).is_err() {
        times.remove(key);
        return Err(Refusal::OutOfMemory);
    }
    Ok(())
}

// Gives a waiting key an earlier time.
fn put_earlier(
    times: &mut HashMap<Key, u64, Secret>,
    order: &mut BTreeMap<(u64, Key), ()>,
    alloc: Global,
    key: &Key,
    at: u64,
    before: u64,
) -> Result<(), Refusal>
    requires agree { Agrees times.old.entries order.old }
    requires waits { time_of times.old.entries key.now ≡ Some before }
    requires earlier { at < before }
    ensures agree { Agrees times.new.entries order.new }
    ensures ok { OnOk result (SetsTime times.old.entries times.new.entries key.now at) }
    ensures err { OnErr result (SameTimes times.old.entries times.new.entries) }
    ensures memory { IfErr result (λ e. e ≡ OutOfMemory) }
{
    let last = (before, key.try_copy(alloc)?);
    let (first, second) = two_copies(alloc, key)?;
    if order.insert((at, second), ()).is_err() {
        return Err(Refusal::OutOfMemory);
    }
    // The key is there, so this needs no memory.
    let _ = times.insert(first, at);
    order.remove(&last);
    Ok(())
}
