ghost use Rattle.std.specs.Prelude.{◌≡◌, IsTrue};
ghost use Rattle.cj_calls.specs.declared.call.Call.TheVariants as Of;
ghost use Rattle.cj_world.specs.Worlds.{state_in};
ghost use Rattle.cj_hub.specs.Books.{FindsNothing};
ghost use Rattle.cj_hub.specs.Runs.{Adds, FoundFull, IsFullHistory};
ghost use Rattle.cj_worker.specs.Ends.{EndsFull, IsBrokenFull, IsShown};
ghost use Rattle.cj_worker.specs.Syncs.{IsSync};

use crate::context::SyncContext;
use crate::ending::SyncEnd;
use crate::error::end_of;
use crate::gate::{Clock, Gate, Point, Turn};
use crate::states::Held;
use cj_calls::Call;
use cj_hub::{Desk, Pass, ask};
use cj_zone::ZoneTable;
use std::alloc::Global;

// One sync, of which the clauses say what it adds to the history; `sync_once` says also what the
// pass shows of it.
fn sync_one<D: Desk, G: Gate, C: Clock>(
    context: SyncContext<'_, G, C>,
    desk: &mut D,
    pass: &mut Pass,
) -> SyncEnd
    ensures entries { Adds D.tells (D.history desk.old) (D.history desk.new) pass.old pass.new
        (λ es. IsSync (C.gives context.entry.clock.now) (G.may_stop context.entry.gate.now)
        context.entry.zones.now es result) }
    ensures idle { IsTrue D.tells → result ≡ SyncEnd.Idle →
        FindsNothing (state_in (D.history desk.old)) Of.Take }
    ensures full { EndsFull result
        (FoundFull D.tells (D.history desk.new) (D.refused_full desk.new)) }
    ensures no_room { IsTrue D.tells → IsFullHistory (D.history desk.old) → IsBrokenFull result }
{
    match ask(desk, pass, Call::Take) {
        Ok(receipt) => {
            let held = Held::new(receipt);
            match context.gate.at(Point::Taken, held.key()) {
                Turn::Go => held.see_cron(context, desk, pass),
                Turn::Stop => held.abandon(Point::Taken),
            }
        }
        Err(error) => end_of(error),
    }
}

/// One sync of the first key of the line, if there is one, through a pass of a worker.
///
/// Its calls are Take, SeeCron, SeeJobs, SeeActive, the Claim of the one plan of these three
/// answers at a reading of the clock after them, the plan's steps in order, and Finish. It makes
/// them up to the first refusal, and then asks for another try. The gate is passed after Take,
/// SeeCron, SeeJobs, Claim and the making; where it stops, no further call is made. The sync is
/// Broken by HistoryFull only where its last call was answered so.
pub fn sync_once<D: Desk, G: Gate, C: Clock>(
    alloc: Global,
    desk: &mut D,
    pass: &mut Pass,
    gate: &G,
    clock: &C,
    zones: &ZoneTable,
) -> SyncEnd
    ensures shown { IsShown pass.old pass.new result }
    ensures entries { Adds D.tells (D.history desk.old) (D.history desk.new) pass.old pass.new
        (λ es. IsSync (C.gives clock.now) (G.may_stop gate.now) zones.now es result) }
    ensures idle { IsTrue D.tells → result ≡ SyncEnd.Idle →
        FindsNothing (state_in (D.history desk.old)) Of.Take }
    ensures full { EndsFull result
        (FoundFull D.tells (D.history desk.new) (D.refused_full desk.new)) }
    ensures no_room { IsTrue D.tells → IsFullHistory (D.history desk.old) → IsBrokenFull result }
{
    let context = SyncContext {
        alloc,
        gate,
        clock,
        zones,
    };
    sync_one(context, desk, pass)
}
