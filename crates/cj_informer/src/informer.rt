ghost use Rattle.std.specs.Prelude.{◌≡◌, None, IfErr, unwrap_or, IsTrue};
ghost use Rattle.cj_hub.specs.Runs.{Adds, FoundFull, IsFullHistory, IsTurnedAway, TellsFull};
ghost use Rattle.cj_informer.specs.Outcomes.{HasLooked, HasStepped, IsStepRefusal};

use crate::asking::tick;
use crate::listing::list;
use crate::watching::watch;
use cj_hub::{Desk, Pass};
use cj_types::{Max, Millis, Refusal, Version};
use std::alloc::Global;
use std::marker::Model;

/// Follows what is written to the store, as client-go's reflectors do, and adds the keys that are
/// concerned to the work queue.
///
/// Contracts see how many events it asks for at once, and the version that it has seen.
#[derive(Drop)]
pub struct Informer {
    alloc: Global,
    max: Max,
    // The version seen; none before the first listing.
    seen: Option<Version>,
}

impl Model for Informer {
    ghost use Rattle.cj_informer.specs.Informs.{Follower};

    ghost Value = { Follower };

    ghost view = { λ i. record { max = i.max; seen = i.seen } };
}

impl Informer {
    /// An informer that has seen nothing, and asks for at most `max` events at once.
    pub fn new(alloc: Global, max: Max) -> Informer
        ensures { result ≡ record { max = max; seen = None } }
    {
        Informer {
            alloc,
            max,
            seen: None,
        }
    }

    /// The version seen; 0 before the first listing.
    pub fn seen(&self) -> Version
        ensures { result ≡ unwrap_or self.now.seen 0 }
    {
        self.seen.unwrap_or(Version::new(0))
    }

    /// One step at the moment: a Tick of the queue, and then what came since the last step.
    ///
    /// That is a Watch of the events after the version seen, a Feed of the listings, and an Add for
    /// each event that concerns a CronJob: for an event of a CronJob its key, for one of a Job the
    /// key that its controller reference names, if it names one.
    ///
    /// At the start in place of the Watch, and where the Watch answers `Expired`, both kinds are
    /// listed. The listings are then fed until they know of the writes up to the first of the two,
    /// or a Feed brings nothing more. The key of each CronJob and of each Job's owner is added.
    ///
    /// After the step the version seen is that of the last event, or of the first listing.
    ///
    /// The step ends at the first other refusal, and the informer is then as it was. It is
    /// HistoryFull only where the step's last call was answered so.
    pub fn step<D: Desk>(
        &mut self,
        desk: &mut D,
        pass: &mut Pass,
        now: Millis,
    ) -> Result<(), Refusal>
        ensures adds { Adds D.tells (D.history desk.old) (D.history desk.new) pass.old pass.new
            (HasStepped self.old now self.new result) }
        ensures which { IfErr result IsStepRefusal }
        ensures full { TellsFull result
            (FoundFull D.tells (D.history desk.new) (D.refused_full desk.new)) }
        ensures no_room { IsTrue D.tells → IsFullHistory (D.history desk.old) →
            IsTurnedAway result }
    {
        let seen = look(self, desk, pass, now)?;
        self.seen = Some(seen);
        Ok(())
    }
}

// Makes the calls of a step. It answers with the version that is seen then.
fn look<D: Desk>(
    informer: &Informer,
    desk: &mut D,
    pass: &mut Pass,
    now: Millis,
) -> Result<Version, Refusal>
    ensures adds { Adds D.tells (D.history desk.old) (D.history desk.new) pass.old pass.new
        (HasLooked informer.now now result) }
    ensures which { IfErr result IsStepRefusal }
    ensures full { TellsFull result
        (FoundFull D.tells (D.history desk.new) (D.refused_full desk.new)) }
    ensures no_room { IsTrue D.tells → IsFullHistory (D.history desk.old) →
        IsTurnedAway result }
{
    tick(desk, pass, now)?;
    match informer.seen {
        Some(from) => watch(desk, informer.alloc, pass, informer.max, from),
        None => list(desk, informer.alloc, pass, informer.max),
    }
}
