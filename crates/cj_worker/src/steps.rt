//! The steps of a claimed plan.
ghost use Rattle.std.specs.Prelude.{[], ◌∷◌, map, IfErr};
ghost use Rattle.cj_hub.specs.Runs.{Adds, FoundFull};
ghost use Rattle.cj_worker.specs.Outlines.{call_by};
ghost use Rattle.cj_worker.specs.Errors.{HasStepped, ErrorFull};

use crate::asking::make;
use crate::error::SyncError;
use crate::gate::{Gate, Point, Turn};
use crate::outline::Next;
use cj_calls::Call;
use cj_hub::{Desk, Pass};
use cj_types::Key;

fn take_step<D: Desk, G: Gate>(
    desk: &mut D,
    pass: &mut Pass,
    gate: &G,
    key: &Key,
    step: Next,
) -> Result<Turn, SyncError>
    ensures adds { Adds D.tells (D.history desk.old) (D.history desk.new) pass.old pass.new
        (HasStepped (G.may_stop gate.now Point.Made key.now) (call_by step ∷ []) result) }
    ensures full { IfErr result (λ e. ErrorFull e
        (FoundFull D.tells (D.history desk.new) (D.refused_full desk.new))) }
{
    match step {
        Next::Drop => {
            make(desk, pass, Call::DropNext)?;
            Ok(Turn::Go)
        }
        Next::Make => {
            make(desk, pass, Call::MakeNext)?;
            Ok(gate.at(Point::Made, key))
        }
        Next::Status => {
            make(desk, pass, Call::SetStatus)?;
            Ok(Turn::Go)
        }
    }
}

/// Makes the steps in order, up to the first that isn't accepted, or to the making at which the
/// gate stops.
pub(crate) fn take_steps<D: Desk, G: Gate>(
    desk: &mut D,
    pass: &mut Pass,
    gate: &G,
    key: &Key,
    steps: &[Next],
) -> Result<Turn, SyncError>
    ensures adds { Adds D.tells (D.history desk.old) (D.history desk.new) pass.old pass.new
        (HasStepped (G.may_stop gate.now Point.Made key.now) (map call_by steps.now) result) }
    ensures full { IfErr result (λ e. ErrorFull e
        (FoundFull D.tells (D.history desk.new) (D.refused_full desk.new))) }
{
    for step in steps {
        match take_step(desk, pass, gate, key, *step) {
            Ok(Turn::Go) => {}
            Ok(Turn::Stop) => return Ok(Turn::Stop),
            Err(error) => return Err(error),
        }
    }
    Ok(Turn::Go)
}
