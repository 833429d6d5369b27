//! Calls in a row under the hub's lock.
ghost use Rattle.std.specs.Prelude.{◌≡◌, [], true, false};
ghost use Rattle.cj_types.specs.WorldLimits.{kept};

use crate::desk::{Desk, is_full};
use crate::guarded::Guarded;
use crate::hub::Hub;
use crate::pass::Pass;
use crate::receipt::Receipt;
use cj_calls::Call;
use cj_types::Refusal;
use std::sync::MutexGuard;

/// A hub whose lock is held: between its calls nobody else makes any. A Take waits for nothing.
///
/// When it is dropped the lock is free again, and those are woken whom the calls concern.
pub struct HeldDesk<'a> {
    hub: &'a Hub,
    guarded: MutexGuard<'a, Guarded>,
    // Whether the queue was shut.
    shut: bool,
    // Whether the last call was answered HistoryFull.
    full: bool,
}

impl Drop for HeldDesk<'_> {
    fn drop(self) {
        let HeldDesk {
            hub,
            mut guarded,
            shut,
            full: _,
        } = self;
        let wake = guarded.after_calls(shut);
        drop(guarded);
        hub.wake(wake);
    }
}

impl<'a> HeldDesk<'a> {
    /// Calls go to the book that the lock guards.
    pub(crate) fn new(hub: &'a Hub, guarded: MutexGuard<'a, Guarded>) -> HeldDesk<'a> {
        HeldDesk {
            hub,
            guarded,
            shut: false,
            full: false,
        }
    }
}

impl Desk for HeldDesk<'_> {
    ghost tells = { false };

    ghost history = { λ _. record { limits = kept 0 0; history = [] } };

    ghost refused_full = { λ d. d.full ≡ true };

    fn call(&mut self, pass: &mut Pass, call: Call) -> Result<Receipt, Refusal> {
        let shuts = matches!(call, Call::Shut);
        let result = self.guarded.step(pass, call);
        self.shut = self.shut || shuts;
        self.full = is_full(&result);
        result
    }
}
