//! Following what came since the last step, by events.
ghost use Rattle.std.specs.Prelude.{◌≡◌, Some, IfErr};
ghost use Rattle.cj_hub.specs.Runs.{Adds, FoundFull, TellsFull};
ghost use Rattle.cj_informer.specs.Informs.{last_version};
ghost use Rattle.cj_informer.specs.Outcomes.{HasFollowed, HasGoneOn, IsStepRefusal};

use crate::adding::add_all;
use crate::asking::{ask_events, feed};
use crate::listing::list;
use cj_calls::Reply;
use cj_hub::{Desk, Pass};
use cj_types::{Event, Max, Refusal, Version};
use std::alloc::Global;

fn last_seen(seen: Version, events: &[Event]) -> Version
    ensures { result ≡ last_version seen events.now }
{
    match events.last() {
        Some(event) => event.version(),
        None => seen,
    }
}

// Feeds, and adds the key of each event that concerns a CronJob.
fn follow<D: Desk>(
    desk: &mut D,
    alloc: Global,
    pass: &mut Pass,
    max: Max,
    from: Version,
    events: &[Event],
) -> Result<Version, Refusal>
    ensures adds { Adds D.tells (D.history desk.old) (D.history desk.new) pass.old pass.new
        (HasFollowed max from events.now result) }
    ensures which { IfErr result IsStepRefusal }
    ensures full { TellsFull result
        (FoundFull D.tells (D.history desk.new) (D.refused_full desk.new)) }
{
    let _fed = feed(desk, pass, max)?;
    add_all(desk, alloc, pass, events)?;
    Ok(last_seen(from, events))
}

// Watches from the version seen; lists where the events after it have expired.
pub(crate) fn watch<D: Desk>(
    desk: &mut D,
    alloc: Global,
    pass: &mut Pass,
    max: Max,
    from: Version,
) -> Result<Version, Refusal>
    ensures adds { Adds D.tells (D.history desk.old) (D.history desk.new) pass.old pass.new
        (HasGoneOn (record { max = max; seen = Some from }) result) }
    ensures which { IfErr result IsStepRefusal }
    ensures full { TellsFull result
        (FoundFull D.tells (D.history desk.new) (D.refused_full desk.new)) }
{
    match ask_events(desk, pass, from, max) {
        Ok(receipt) => match receipt.answer() {
            Ok(Reply::Events(events)) => { follow(desk, alloc, pass, max, from, events.as_slice()) }
            _ => unreachable!(),
        },
        Err(Refusal::Expired(_)) => list(desk, alloc, pass, max),
        Err(refusal) => Err(refusal),
    }
}
