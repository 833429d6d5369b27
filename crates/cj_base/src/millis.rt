ghost use Rattle.std.specs.Prelude.{◌≡◌, ℕ, ◌≤◌, ◌*◌, IfSome, IsSome, ◌↔◌};
ghost use Rattle.cj_base.specs.Instant.{last_milli};

use crate::Seconds;
use std::marker::Model;

/// An instant of the work queue: whole milliseconds since 1970-01-01T00:00:00Z, up to the last one
/// of the year 9998.
///
/// Contracts see the number of milliseconds.
#[derive(Clone, Copy, Debug, PartialEq, Eq, PartialOrd, Ord, Hash)]
pub struct Millis {
    count: u64,
}

impl Model for Millis {
    ghost Value = { ℕ };

    ghost view = { λ m. m.count };

    ghost invariant = { λ m. m.count ≤ last_milli };

    ghost inverse = { λ n. record { count = n } };
}

impl Millis {
    /// The milliseconds of 9998-12-31T23:59:59.999Z.
    pub const LAST: u64 = 253_370_764_799_999;

    /// The instant `count` milliseconds after 1970 began, unless it is after the year 9998.
    pub fn new(count: u64) -> Option<Millis>
        ensures in_range { IsSome result ↔ (count ≤ last_milli) }
        ensures value { IfSome result (λ m. m ≡ count) }
    {
        if count <= Self::LAST {
            Some(Millis { count })
        } else {
            None
        }
    }

    /// The number of milliseconds.
    pub fn get(self) -> u64
        ensures value { result ≡ self }
        ensures in_range { result ≤ last_milli }
    {
        self.count
    }
}

impl From<Seconds> for Millis {
    ghost from_gives = { λ s m. m ≡ s * 1000 };

    fn from(at: Seconds) -> Millis {
        Millis {
            count: at.get() * 1000,
        }
    }
}
