ghost use Rattle.std.specs.Prelude.{◌≡◌, ℕ, ◌≤◌, IfSome, IsSome, ◌↔◌};
ghost use Rattle.cj_types.specs.WorldLimits.{last_window};

use std::marker::Model;

/// How many of the latest events are kept, from 1 to 100,000.
///
/// Contracts see the number.
#[derive(Clone, Copy, Debug, PartialEq, Eq, PartialOrd, Ord, Hash)]
pub struct Window {
    count: u32,
}

impl Model for Window {
    ghost Value = { ℕ };

    ghost view = { λ w. w.count };

    ghost invariant = { λ w. (1 ≤ w.count) × (w.count ≤ last_window) };

    ghost inverse = { λ n. record { count = n } };
}

impl Window {
    /// The most events.
    pub const LAST: u32 = 100_000;

    /// A window of `count` events, where that is 1 to 100,000.
    pub fn new(count: u32) -> Option<Window>
        ensures in_range { IsSome result ↔ ((1 ≤ count) × (count ≤ last_window)) }
        ensures value { IfSome result (λ w. w ≡ count) }
    {
        if count >= 1 && count <= Self::LAST {
            Some(Window { count })
        } else {
            None
        }
    }

    /// The number of events.
    pub fn get(self) -> u32
        ensures value { result ≡ self }
        ensures in_range { (1 ≤ result) × (result ≤ last_window) }
    {
        self.count
    }
}
