ghost use Rattle.std.specs.Prelude.{◌≡◌, ◌≢◌, ◌+◌, ◌-◌, ◌≤◌, min, nat_lt, length, IfOk, IfErr, Ok, Err};
ghost use Rattle.cj_base.specs.declared.refusal.Refusal.TheVariants.{OutOfMemory};
ghost use Rattle.cj_types.specs.Events.{version_of};
ghost use Rattle.cj_watch.specs.Numbers.{IsNumbered};

use crate::Window;
use crate::ring::{copy_range, put_last};
use circular_buffer::HeapCircularBuffer;
use cj_types::{Event, Listing, Max, Refusal, Version};
use std::alloc::Global;
use std::marker::Model;

/// The latest events of all writes, as many as fit the window. An event's version is the count of
/// events up to it.
///
/// Contracts see the kept events, the count of all events so far, and the window.
pub struct WatchLog {
    events: HeapCircularBuffer<Event>,
    count: u64,
}

impl Drop for WatchLog {
    fn drop(self) {
        let WatchLog {
            events: _,
            count: _,
        } = self;
    }
}

impl Model for WatchLog {
    ghost use Rattle.cj_watch.specs.Log.{Log, IsWindow};

    ghost Value = { Log };

    ghost view = { λ l. record {
      kept = l.events.items;
      count = l.count;
      window = l.events.capacity;
    } };

    ghost invariant = { λ l. IsWindow (record {
      kept = l.events.items;
      count = l.count;
      window = l.events.capacity;
    }) };
}

impl WatchLog {
    ghost use Rattle.cj_watch.specs.Log.{IsWindow, new_log, pushed, since};

    /// A log with no event, and with memory for as many as fit the window.
    pub fn new(alloc: Global, window: Window) -> Result<WatchLog, Refusal>
        ensures ok { IfOk result (λ l. l ≡ new_log window) }
        ensures err { IfErr result (λ e. e ≡ OutOfMemory) }
    {
        let capacity = window.get() as usize;
        let events = HeapCircularBuffer::with_capacity(alloc, capacity).map_err(
            |_| Refusal::OutOfMemory,
        )?;
        Ok(WatchLog { events, count: 0 })
    }

    /// The version of the last event, 0 before the first: the count of events so far.
    pub fn version(&self) -> Version
        ensures value { result ≡ self.now.count }
        ensures window { IsWindow self.now }
    {
        Version::new(self.count)
    }

    /// Reserves room for the next event. `new` took all memory, so this does nothing.
    pub fn make_room(&mut self)
        ensures { self.new ≡ self.old }
    {}

    /// Appends the event of the next write, whose version is the count so far plus 1. Takes no
    /// memory; a full log drops its oldest event.
    pub fn push(&mut self, event: Event)
        requires next { version_of event ≡ self.old.count + 1 }
        ensures { self.new ≡ pushed self.old event }
    {
        self.count = event.version().get();
        put_last(&mut self.events, event);
    }

    // Whether the version is below all that are served.
    fn is_gone(&self, version: Version) -> bool
        ensures { result ≡ nat_lt (version + self.now.window) self.now.count }
    {
        version.get().saturating_add(self.events.capacity() as u64) < self.count
    }

    // The oldest version from which no event is lost.
    fn oldest_served(&self) -> Version
        ensures { result ≡ self.now.count - self.now.window }
    {
        Version::new(self.count.saturating_sub(self.events.capacity() as u64))
    }

    // The place of the first event that is kept and comes after the version, or the end.
    fn place_after(&self, version: Version) -> usize
        ensures { result ≡ min (version - (self.now.count - length self.now.kept))
            (length self.now.kept) }
    {
        let len = self.events.len() as u64;
        let before = self.count - len;
        version.get().saturating_sub(before).min(len) as usize
    }

    // The place `max` events after `start`, or the end.
    fn end_after(&self, start: usize, max: Max) -> usize
        requires { start ≤ length self.now.kept }
        ensures { result ≡ min (length self.now.kept) (start + max) }
    {
        self.events.len().min(start + usize::from(max.get()))
    }

    /// The first `max` events after the version, in order of version; none where the version is the
    /// last one or above it. `Expired` with the oldest version served, where events after the
    /// version were dropped.
    pub fn since(
        &self,
        alloc: Global,
        version: Version,
        max: Max,
    ) -> Result<Listing<Event>, Refusal>
        ensures ok { IfOk result (λ l. since self.now version max ≡ Ok l) }
        ensures numbered { IfOk result (λ l. IsNumbered version l) }
        ensures err { IfErr result (λ e. e ≢ OutOfMemory → since self.now version max ≡ Err e) }
    {
        if self.is_gone(version) {
            return Err(Refusal::Expired(self.oldest_served()));
        }
        let start = self.place_after(version);
        let end = self.end_after(start, max);
        Listing::new(alloc, copy_range(alloc, &self.events, start, end)?)
    }
}
