ghost use Rattle.std.specs.Prelude.{◌≡◌, ◌≢◌, ◌≤◌, ◌↔◌, [], false, IsTrue, IfOk, IfErr, Err, length, is_some, option_copied};
ghost use Rattle.std.specs.FinMap as map;
ghost use mathlib.Core.List.{reverse};
ghost use Rattle.cj_base.specs.declared.refusal.Refusal.TheVariants.{Empty, HistoryFull, OutOfMemory};
ghost use Rattle.cj_types.specs.WorldLimits.{last_history};
ghost use Rattle.cj_queue.specs.Queue.{first};
ghost use Rattle.cj_state.specs.Legal.{IsLegal, IsPlanned, ArePlanned, is_entered};
ghost use Rattle.cj_state.specs.WorkerCalls.{sync_of};
ghost use Rattle.cj_world_laws.specs.legal.Exclusive.{Exclusive};
ghost use Rattle.cj_world_laws.specs.legal.Rest.{IsAtRest};
ghost use Rattle.cj_world_laws.specs.once.Once.{Once, Alone};
ghost use Rattle.cj_world_laws.specs.once.Times.{Timely};
ghost use Rattle.cj_world.specs.Worlds.{Applied, Entered, receipts_of, state_in};

use crate::advance::{Made, advance};
use cj_base::both;
use cj_calls::{Answer, Call, Caller, Entry};
use cj_queue::{Queue, Secret};
use cj_state::{InFlight, InFlightSyncs, State};
use cj_store::Store;
use cj_types::{CronJob, Job, Key, Limits, Listing, Refusal, Shared, TryCopy, Version};
use cj_watch::{Mirror, WatchLog, Window};
use cj_world_laws::{exclusive_law, once_law, time_law};
use std::alloc::Global;
use std::marker::Model;

/// What is stored, told, listed and queued, who works on what, and the history that led to it.
///
/// Contracts see the limits and the history, the newest entry first. Its type keeps that the
/// history is within its limit and legal, and that all that it holds is what the history leaves.
pub struct World {
    alloc: Global,
    limits: Limits,
    state: State,
    entries: Vec<Entry>,
}

impl Model for World {
    ghost use mathlib.Core.List.{reverse};
    ghost use Rattle.cj_world.specs.Worlds.{WorldLog, Stands};

    ghost Value = { WorldLog };

    ghost view = { λ w. record { limits = w.limits; history = reverse w.entries.items } };

    ghost invariant = { λ w. Stands w.limits (reverse w.entries.items) w.state };
}

impl Drop for World {
    fn drop(self) {
        let World {
            alloc: _,
            limits: _,
            state,
            entries: _,
        } = self;
        drop(state);
    }
}

// How many events are kept.
fn window_of(limits: Limits) -> Window
    ensures { result ≡ limits.window }
{
    Window::new(limits.window()).unwrap()
}

// A plan that a call carries is a decision, by its type.
fn is_planned(call: &Shared<Call>)
    ensures { IsPlanned call.now }
{
    if let Call::Claim(plan) = call.get() {
        plan.get().steps();
    }
}

impl World {
    /// A world in which nothing was called. It takes its memory from `alloc`.
    pub fn new(alloc: Global, limits: Limits) -> Result<World, Refusal>
        ensures ok { IfOk result (λ w. w ≡ record { limits = limits; history = [] }) }
        ensures err { IfErr result (λ e. e ≡ OutOfMemory) }
    {
        World::keyed(alloc, limits, Secret { first: 0, last: 0 })
    }

    /// Such a world, the hashes of whose queue have a secret.
    pub fn keyed(alloc: Global, limits: Limits, secret: Secret) -> Result<World, Refusal>
        ensures ok { IfOk result (λ w. w ≡ record { limits = limits; history = [] }) }
        ensures err { IfErr result (λ e. e ≡ OutOfMemory) }
    {
        let watch = WatchLog::new(alloc, window_of(limits))?;
        let state = State {
            store: Store::new(alloc),
            watch,
            mirror: Mirror::new(alloc),
            queue: Queue::keyed(alloc, secret),
            syncs: InFlightSyncs::new(alloc),
        };
        Ok(World {
            alloc,
            limits,
            state,
            entries: Vec::new(alloc),
        })
    }

    /// All entries, the oldest first, with what holds of every history: it is within its limit;
    /// each answer is the one that the entries before it give, and each plan that came in is a
    /// decision; no key is in two workers' hands; no scheduled time of a CronJob got two Jobs; a
    /// Job that was claimed under Forbid or Replace was made alone; and the time of each accepted
    /// claim is the greatest one missed by the CronJob that stood then.
    pub fn history(&self) -> &[Entry]
        ensures entries { reverse result.now ≡ self.now.history }
        ensures short { (length self.now.history ≤ self.now.limits.history)
            × (self.now.limits.history ≤ last_history) }
        ensures legal { IsLegal self.now.limits.window self.now.history }
        ensures planned { ArePlanned self.now.history }
        ensures exclusive { Exclusive self.now.history }
        ensures once { Once self.now.limits.window self.now.history }
        ensures alone { Alone self.now.limits.window self.now.history }
        ensures timely { Timely self.now.limits.window self.now.history }
    {
        exclusive_law();
        once_law();
        time_law();
        self.entries.as_slice()
    }

    fn is_full(&self) -> bool
        ensures { IsTrue result ↔ (self.now.limits.history ≤ length self.now.history) }
    {
        self.entries.as_slice().len() >= self.limits.history() as usize
    }

    // A copy of the call in a place that entries share, unless the history is full.
    fn copied(&self, call: &Call) -> Result<Shared<Call>, Refusal>
        ensures ok { IfOk result (λ c. c ≡ call.now) }
        ensures full { (result ≡ Err HistoryFull)
            ↔ (self.now.limits.history ≤ length self.now.history) }
        ensures unentered { IfErr result (λ e. (is_entered (Err e) ≡ false) × (e ≢ Empty)) }
    {
        if self.is_full() {
            return Err(Refusal::HistoryFull);
        }
        Shared::new(self.alloc, call.try_copy(self.alloc)?)
    }

    // Makes one call, unless the history is full.
    fn make(&mut self, caller: &Caller, call: Shared<Call>) -> Result<Made, Refusal>
        ensures limits { self.new.limits ≡ self.old.limits }
        ensures made { IfOk result (λ m. Applied self.old.limits self.old.history caller.now call
            m.answer self.new.history) }
        ensures receipts { IfOk result (λ m. m.receipts ≡ receipts_of caller.now call m.answer) }
        ensures nothing { IfOk result (λ m. is_entered m.answer ≡ false → m.answer ≡ Err Empty) }
        ensures refused { IfErr result (λ e. Applied self.old.limits self.old.history caller.now
            call (Err e) self.new.history × (is_entered (Err e) ≡ false)) }
    {
        if self.is_full() {
            return Err(Refusal::HistoryFull);
        }
        if self.entries.reserve(1).is_err() {
            return Err(Refusal::OutOfMemory);
        }
        is_planned(&call);
        advance(self.alloc, &mut self.state, &mut self.entries, caller, call)
    }

    /// Makes one call. Its answer is the one that the history gives, and its entry is added; or it
    /// is refused for want of memory, because the history is full, or because there is nothing to
    /// take, and all is as it was.
    pub fn apply(&mut self, caller: &Caller, call: &Call) -> Answer
        ensures limits { self.new.limits ≡ self.old.limits }
        ensures applied { Applied self.old.limits self.old.history caller.now call.now result
            self.new.history }
    {
        let call = self.copied(call)?;
        match self.make(caller, call) {
            Ok(made) => made.answer,
            Err(refusal) => Err(refusal),
        }
    }

    /// Makes one call, as `apply` does, and gives its entry twice where it was entered.
    pub fn enter(&mut self, caller: &Caller, call: &Call) -> Result<(Entry, Entry), Refusal>
        ensures limits { self.new.limits ≡ self.old.limits }
        ensures entered { IfOk result (λ p. Entered self.old.limits self.old.history caller.now
            call.now p self.new.history) }
        ensures refused { IfErr result (λ e. Applied self.old.limits self.old.history caller.now
            call.now (Err e) self.new.history × (is_entered (Err e) ≡ false)) }
    {
        let call = self.copied(call)?;
        self.enter_shared(caller, call)
    }

    /// Makes one call, as `enter` does. The entry shares the call, which isn't copied.
    pub fn enter_shared(
        &mut self,
        caller: &Caller,
        call: Shared<Call>,
    ) -> Result<(Entry, Entry), Refusal>
        ensures limits { self.new.limits ≡ self.old.limits }
        ensures entered { IfOk result (λ p. Entered self.old.limits self.old.history caller.now call
            p self.new.history) }
        ensures refused { IfErr result (λ e. Applied self.old.limits self.old.history caller.now
            call (Err e) self.new.history × (is_entered (Err e) ≡ false)) }
    {
        let Made { receipts, .. } = self.make(caller, call)?;
        match receipts {
            Some(receipts) => Ok(receipts),
            None => Err(Refusal::Empty),
        }
    }

    /// The current CronJobs and Jobs, each in the order of their keys. None is copied.
    pub fn objects(&self) -> Result<(Listing<Shared<CronJob>>, Listing<Shared<Job>>), Refusal>
        ensures crons { IfOk result (λ p. p.0 ≡ map.values (state_in self.now).store.crons) }
        ensures jobs { IfOk result (λ p. p.1 ≡ map.values (state_in self.now).store.jobs) }
        ensures err { IfErr result (λ e. e ≡ OutOfMemory) }
    {
        both(
            self.state.store.list_crons(self.alloc),
            self.state.store.list_jobs(self.alloc),
        )
    }

    /// The Job that stands at the key. It isn't copied.
    pub fn job(&self, key: &Key) -> Option<&Shared<Job>>
        ensures { option_copied result ≡ map.get (state_in self.now).store.jobs key.now }
    {
        self.state.store.get_job(key)
    }

    /// The worker's sync, with how far it has come, if it holds a key. It isn't copied.
    pub fn sync(&self, worker: u64) -> Option<&InFlight>
        ensures { option_copied result ≡ sync_of (state_in self.now) worker }
    {
        self.state.syncs.get(worker)
    }

    /// The version of the last write, 0 before the first.
    pub fn version(&self) -> Version
        ensures { result ≡ (state_in self.now).store.version }
    {
        self.state.store.version()
    }

    /// How many writes the lists know of.
    pub fn fed(&self) -> Version
        ensures { result ≡ (state_in self.now).mirror.fed }
    {
        self.state.mirror.version()
    }

    /// Whether a key is in the line.
    pub fn has_next(&self) -> bool
        ensures { result ≡ is_some (first (state_in self.now).queue.row.line) }
    {
        self.state.queue.front().is_some()
    }

    /// Whether no key is in the line, and nobody holds one. By the history alone: no key is queued
    /// and none is held (`rest_law` of cj_history).
    pub fn at_rest(&self) -> bool
        ensures { IsTrue result ↔ IsAtRest (state_in self.now) }
    {
        let no_line = self.state.queue.front().is_none();
        let no_sync = self.state.syncs.is_empty();
        no_line && no_sync
    }
}
