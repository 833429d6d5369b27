ghost use Rattle.std.specs.Prelude.{◌≡◌, IfOk, IfErr};
ghost use Rattle.cj_base.specs.declared.refusal.Refusal.TheVariants.{OutOfMemory};

use crate::Store;
use cj_types::{Event, Heap, Refusal};
use std::alloc::Global;
use std::marker::Model;
use std::snapshot::Snapshot;

/// A write that was planned and not yet made. Only the plans of a store create one.
///
/// Contracts see the content of the store that it was planned on, and the write's watch event: the
/// object as the write leaves it, or its last state with the version of the deletion. Its type
/// keeps that the write can come next on that content. The content is there for contracts alone,
/// and has no bytes.
pub struct Change {
    event: Heap<Event>,
    before: Snapshot<Store>,
}

impl Drop for Change {
    fn drop(self) {
        let Change { event, before: _ } = self;
        drop(event);
    }
}

impl Model for Change {
    ghost use Rattle.cj_store.specs.Change.{PlannedWrite, coded_write, IsNext};

    ghost Value = { PlannedWrite };

    ghost coded = { coded_write };

    ghost view = { λ c. record { before = c.before.value; event = c.event } };

    ghost invariant = { λ c. IsNext c.before.value c.event };
}

impl Change {
    ghost use Rattle.cj_store.specs.Change.{IsFor, IsNext};

    // The write of the event, planned on the store's present content.
    pub(crate) fn of(alloc: Global, store: &Store, event: Event) -> Result<Change, Refusal>
        requires { IsNext store.now event }
        ensures ok { IfOk result (λ c. c.event ≡ event) }
        ensures planned { IfOk result (λ c. IsFor store.now c) }
        ensures err { IfErr result (λ e. e ≡ OutOfMemory) }
    {
        let event = Heap::new(alloc, event)?;
        Ok(Change {
            event,
            before: Snapshot::of(store),
        })
    }

    /// The watch event of the write.
    pub fn event(&self) -> &Event
        ensures { result.now ≡ self.now.event }
    {
        self.event.get()
    }

    pub(crate) fn into_event(self) -> Event
        ensures event { result ≡ self.event }
        ensures next { IsNext self.before result }
    {
        let Change { event, before: _ } = self;
        event.into_inner()
    }
}
