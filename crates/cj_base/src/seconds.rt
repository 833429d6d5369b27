ghost use Rattle.std.specs.Prelude.{◌≡◌, ℕ, ◌≤◌, IfSome, IsSome, ◌↔◌};
ghost use Rattle.cj_base.specs.Instant.{last_second};

use std::marker::Model;

/// An instant: whole seconds since 1970-01-01T00:00:00Z, up to the last one of the year 9998.
///
/// Contracts see the number of seconds.
#[derive(Clone, Copy, Debug, PartialEq, Eq, PartialOrd, Ord, Hash)]
pub struct Seconds {
    count: u64,
}

impl Model for Seconds {
    ghost Value = { ℕ };

    ghost view = { λ s. s.count };

    ghost invariant = { λ s. s.count ≤ last_second };

    ghost inverse = { λ n. record { count = n } };
}

impl Seconds {
    /// The seconds of 9998-12-31T23:59:59Z.
    pub const LAST: u64 = 253_370_764_799;

    /// The instant `count` seconds after 1970 began, unless it is after the year 9998.
    pub fn new(count: u64) -> Option<Seconds>
        ensures in_range { IsSome result ↔ (count ≤ last_second) }
        ensures value { IfSome result (λ s. s ≡ count) }
    {
        if count <= Self::LAST {
            Some(Seconds { count })
        } else {
            None
        }
    }

    /// The number of seconds.
    pub fn get(self) -> u64
        ensures value { result ≡ self }
        ensures in_range { result ≤ last_second }
    {
        self.count
    }
}
