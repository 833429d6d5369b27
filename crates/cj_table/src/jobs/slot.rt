ghost use Rattle.std.specs.Prelude.{◌≡◌, ℕ};

use cj_types::{Refusal, TryCopy};
use std::alloc::Global;
use std::marker::Model;

// The number of a place that may hold a Job. Contracts see the number.
#[derive(Clone, Copy)]
pub(crate) struct Slot {
    number: usize,
}

impl Model for Slot {
    ghost Value = { ℕ };

    ghost view = { λ s. s.number };

    ghost inverse = { λ n. record { number = n } };
}

impl Slot {
    // The slot of this number.
    pub(crate) fn new(number: usize) -> Slot
        ensures { result ≡ number }
    {
        Slot { number }
    }

    // The number of the slot.
    pub(crate) fn number(self) -> usize
        ensures { result ≡ self }
    {
        self.number
    }
}

impl TryCopy for Slot {
    fn try_copy(&self, _alloc: Global) -> Result<Slot, Refusal> {
        Ok(*self)
    }
}
