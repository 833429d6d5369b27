// A desk that moves the clock on.
ghost use Rattle.std.specs.Prelude.{◌≡◌, true, false, []};
ghost use Rattle.cj_types.specs.WorldLimits.{kept};

use crate::worker::clocks::Moving;
use cj_calls::Call;
use cj_hub::{Desk, HubDesk, Pass, Receipt};
use cj_types::Refusal;
use std::sync::Wait;

/// Moves the clock on once it is answered what the active Jobs are by now.
#[derive(Drop)]
pub struct Moves<'a, R: Wait> {
    pub desk: HubDesk<'a, R>,
    pub clock: &'a Moving,
}

impl<'a, R: Wait> Desk for Moves<'a, R> {
    ghost tells = { false };

    ghost history = { λ _. record { limits = kept 0 0; history = [] } };

    ghost refused_full = { λ m. m.desk.full ≡ true };

    fn call(&mut self, pass: &mut Pass, call: Call) -> Result<Receipt, Refusal> {
        let is_last = matches!(&call, Call::SeeActive);
        let answered = self.desk.call(pass, call);
        if is_last {
            self.clock.move_on();
        }
        answered
    }
}
