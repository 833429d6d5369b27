ghost use Rattle.std.specs.Prelude.{◌≡◌, ◌↔◌, IsTrue, IfErr, IfOk};
ghost use Rattle.std.specs.FinMap as map;
ghost use mathlib.Core.List.{reverse};
ghost use Rattle.cj_base.specs.declared.refusal.Refusal.TheVariants.{OutOfMemory};
ghost use Rattle.cj_state.specs.Legal.{IsLegal, ArePlanned};
ghost use Rattle.cj_world_laws.specs.legal.Exclusive.{Exclusive};
ghost use Rattle.cj_world_laws.specs.once.Once.{Once, Alone};
ghost use Rattle.cj_world_laws.specs.once.Times.{Timely};
ghost use Rattle.cj_world.specs.Worlds.{state_in};
ghost use Rattle.cj_hub.specs.Receipts.{Stands};

use crate::book::Book;
use crate::exact::stands;
use crate::pass::Pass;
use crate::receipt::Receipt;
use cj_calls::Entry;
use cj_types::{CronJob, Job, Listing, Refusal, Shared};
use cj_world::World;
use std::marker::Model;

/// The final history of a book, with the objects that it left.
///
/// Contracts see its limits and its history, the newest entry first.
pub struct Closed {
    world: World,
}

impl Model for Closed {
    ghost use Rattle.cj_world.specs.Worlds.{WorldLog};

    ghost Value = { WorldLog };

    ghost view = { λ c. c.world };
}

impl Drop for Closed {
    fn drop(self) {
        let Closed { world: _ } = self;
    }
}

impl Closed {
    pub(crate) fn new(world: World) -> Closed
        ensures { result ≡ world }
    {
        Closed { world }
    }

    /// All entries, the oldest first, with what holds of every history. Each answer is the one that
    /// the entries before it give, and each plan that came in is a decision. No key is in two
    /// workers' hands. No scheduled time of a CronJob got two Jobs. A Job that was claimed under
    /// Forbid or Replace was made alone. The time of each accepted claim is the greatest one missed
    /// by the CronJob of that moment.
    pub fn history(&self) -> &[Entry]
        ensures entries { reverse result.now ≡ self.now.history }
        ensures legal { IsLegal self.now.limits.window self.now.history }
        ensures planned { ArePlanned self.now.history }
        ensures exclusive { Exclusive self.now.history }
        ensures once { Once self.now.limits.window self.now.history }
        ensures alone { Alone self.now.limits.window self.now.history }
        ensures timely { Timely self.now.limits.window self.now.history }
    {
        self.world.history()
    }

    // All entries, the oldest first.
    fn entries(&self) -> &[Entry]
        ensures { result.now ≡ reverse self.now.history }
    {
        self.world.history()
    }

    /// Whether the history has the receipt's entry at its place.
    pub fn has(&self, receipt: &Receipt) -> bool
        ensures { IsTrue result ↔ Stands self.now.history receipt.now }
    {
        stands(self.entries(), receipt)
    }

    /// The CronJobs and Jobs that the history left, each in the order of their keys. No object is
    /// copied.
    pub fn objects(&self) -> Result<(Listing<Shared<CronJob>>, Listing<Shared<Job>>), Refusal>
        ensures crons { IfOk result (λ p. p.0 ≡ map.values (state_in self.now).store.crons) }
        ensures jobs { IfOk result (λ p. p.1 ≡ map.values (state_in self.now).store.jobs) }
        ensures err { IfErr result (λ e. e ≡ OutOfMemory) }
    {
        self.world.objects()
    }
}

/// What was to be closed, where the passes don't fit the book: both as they were, and the refusal.
#[derive(Drop)]
pub struct NotClosed {
    pub book: Book,
    pub passes: Vec<Pass>,
    pub refusal: Refusal,
}
