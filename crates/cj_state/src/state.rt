ghost use Rattle.std.specs.Prelude.{◌≡◌, ◌+◌, IfOk, IfErr, OnOk, OnErr, IsSome};
ghost use Rattle.std.specs.FinMap as map;
ghost use Rattle.cj_store.specs.Content.{HasRoom};
ghost use Rattle.cj_base.specs.declared.refusal.Refusal.TheVariants.{OutOfMemory};
ghost use Rattle.cj_store.specs.Change.{IsFor};
ghost use Rattle.cj_types.specs.Events.{version_of};

use crate::phases::{InFlight, InFlightSyncs};
use cj_calls::Answered;
use cj_queue::Queue;
use cj_store::{Change, Store};
use cj_types::{Heap, Refusal, TryCopy};
use cj_watch::{Mirror, WatchLog};
use std::alloc::Global;

/// What a world holds beside its history: the objects, the events of the latest writes, the Jobs as
/// lists have them, the queue of keys, and how far each worker's sync has come.
pub struct State {
    pub store: Store,
    pub watch: WatchLog,
    pub mirror: Mirror,
    pub queue: Queue,
    pub syncs: InFlightSyncs,
}

impl Drop for State {
    fn drop(self) {
        let State {
            store,
            watch,
            mirror,
            queue,
            syncs,
        } = self;
        drop(store);
        drop(watch);
        drop(mirror);
        drop(queue);
        drop(syncs);
    }
}

impl State {
    ghost use Rattle.cj_state.specs.WorkerCalls.{written};

    /// Makes a write that was planned, and tells its event. Where there is no memory all is as it
    /// was.
    pub fn write(&mut self, alloc: Global, change: Change) -> Result<(), Refusal>
        requires room { HasRoom self.old.store }
        requires planned { IsFor self.old.store change }
        requires numbered { version_of change.event ≡ self.old.watch.count + 1 }
        ensures ok { OnOk result (self.new ≡ written self.old change.event) }
        ensures err { OnErr result (self.new ≡ self.old) }
        ensures memory { IfErr result (λ e. e ≡ OutOfMemory) }
    {
        let event = change.event().try_copy(alloc)?;
        self.store.commit(alloc, change)?;
        self.watch.push(event);
        Ok(())
    }

    /// Makes a write that was planned, tells its event, and gives the answer. Where there is no
    /// memory all is as it was.
    pub fn write_answered(
        &mut self,
        alloc: Global,
        change: Change,
        answer: Answered,
    ) -> Result<Answered, Refusal>
        requires room { HasRoom self.old.store }
        requires planned { IsFor self.old.store change }
        requires numbered { version_of change.event ≡ self.old.watch.count + 1 }
        ensures same { IfOk result (λ t. t ≡ answer) }
        ensures ok { OnOk result (self.new ≡ written self.old change.event) }
        ensures err { OnErr result (self.new ≡ self.old) }
        ensures memory { IfErr result (λ e. e ≡ OutOfMemory) }
    {
        self.write(alloc, change)?;
        Ok(answer)
    }

    /// Makes a write of a worker, by which its sync comes further. Where there is no memory all is
    /// as it was.
    pub fn write_with_sync(
        &mut self,
        alloc: Global,
        worker: u64,
        change: Change,
        answer: Answered,
        sync: Heap<InFlight>,
    ) -> Result<Answered, Refusal>
        requires room { HasRoom self.old.store }
        requires planned { IsFor self.old.store change }
        requires numbered { version_of change.event ≡ self.old.watch.count + 1 }
        requires there { IsSome (map.get self.old.syncs worker) }
        ensures same { IfOk result (λ t. t ≡ answer) }
        ensures ok { OnOk result (self.new ≡ record (written self.old change.event) {
          syncs = map.insert self.old.syncs worker sync;
        }) }
        ensures err { OnErr result (self.new ≡ self.old) }
        ensures memory { IfErr result (λ e. e ≡ OutOfMemory) }
    {
        self.write(alloc, change)?;
        self.put_sync(worker, sync);
        Ok(answer)
    }

    /// Puts the worker's sync in its next phase.
    pub fn put_sync(&mut self, worker: u64, sync: Heap<InFlight>)
        requires there { IsSome (map.get self.old.syncs worker) }
        ensures { self.new ≡ record self.old { syncs = map.insert self.old.syncs worker sync } }
    {
        self.syncs.replace(worker, sync.into_inner());
    }
}
