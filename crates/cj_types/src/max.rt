ghost use Rattle.std.specs.Prelude.{◌≡◌, ℕ, ◌≤◌, IfSome, IsSome, ◌↔◌};

use std::marker::Model;

/// The most events that one watch may answer, from 1 to 500.
///
/// Contracts see the number.
#[derive(Clone, Copy, Debug, PartialEq, Eq, PartialOrd, Ord, Hash)]
pub struct Max {
    count: u16,
}

impl Model for Max {
    ghost Value = { ℕ };

    ghost view = { λ m. m.count };

    ghost invariant = { λ m. (1 ≤ m.count) × (m.count ≤ 500) };

    ghost inverse = { λ n. record { count = n } };
}

impl Max {
    /// At most `count` events, where that is 1 to 500.
    pub fn new(count: u16) -> Option<Max>
        ensures in_range { IsSome result ↔ ((1 ≤ count) × (count ≤ 500)) }
        ensures value { IfSome result (λ m. m ≡ count) }
    {
        if count >= 1 && count <= 500 {
            Some(Max { count })
        } else {
            None
        }
    }

    /// The number of events.
    pub fn get(self) -> u16
        ensures value { result ≡ self }
        ensures in_range { (1 ≤ result) × (result ≤ 500) }
    {
        self.count
    }
}
