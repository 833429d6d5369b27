ghost use Rattle.std.specs.Prelude.{◌≡◌, ℕ};

use std::marker::Model;

/// A resource version: the count of accepted writes up to the one that it names, 0 before the
/// first.
///
/// Contracts see the number.
#[derive(Clone, Copy, Debug, PartialEq, Eq, PartialOrd, Ord, Hash)]
pub struct Version {
    count: u64,
}

impl Model for Version {
    ghost Value = { ℕ };

    ghost view = { λ v. v.count };

    ghost inverse = { λ n. record { count = n } };
}

impl Version {
    /// The version after `count` writes.
    pub fn new(count: u64) -> Version
        ensures { result ≡ count }
    {
        Version { count }
    }

    /// The number of writes.
    pub fn get(self) -> u64
        ensures { result ≡ self }
    {
        self.count
    }
}
