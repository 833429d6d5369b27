//! One call through a desk, by what came of it.
ghost use Rattle.std.specs.Prelude.{◌≡◌, IsTrue, Err};
ghost use Rattle.cj_world.specs.Worlds.{state_in};
ghost use Rattle.cj_hub.specs.Books.{FindsNothing};
ghost use Rattle.cj_hub.specs.Runs.{at_desk, Adds, FoundFull, IsAsked, IsFullHistory, IsTurnedAway, TellsFull};

use crate::desk::Desk;
use crate::pass::Pass;
use crate::receipt::Receipt;
use cj_calls::Call;
use cj_types::Refusal;

/// Why a call wasn't accepted.
#[derive(Drop)]
pub enum CallError {
    /// It was entered and refused: the receipt has the refusal.
    Refused(Receipt),
    /// It wasn't entered.
    Unentered(Refusal),
}

/// Makes one call. Where it is accepted its receipt has the reply.
pub fn ask<D: Desk>(desk: &mut D, pass: &mut Pass, call: Call) -> Result<Receipt, CallError>
    ensures adds { Adds D.tells (D.history desk.old) (D.history desk.new) pass.old pass.new
        (IsAsked call result) }
    ensures empty { IsTrue D.tells → result ≡ Err (CallError.Unentered Refusal.Empty) →
        FindsNothing (state_in (D.history desk.old)) call }
    ensures full { TellsFull (at_desk result)
        (FoundFull D.tells (D.history desk.new) (D.refused_full desk.new)) }
    ensures no_room { IsTrue D.tells → IsFullHistory (D.history desk.old) →
        IsTurnedAway (at_desk result) }
{
    match desk.call(pass, call) {
        Ok(receipt) => {
            if receipt.answer().is_ok() {
                Ok(receipt)
            } else {
                Err(CallError::Refused(receipt))
            }
        }
        Err(refusal) => Err(CallError::Unentered(refusal)),
    }
}
