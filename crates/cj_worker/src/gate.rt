ghost use Rattle.std.specs.Prelude.{◌≡◌};

use cj_types::{Key, Millis, Seconds};

/// A place between two calls of a sync: the one after the call that it names.
#[derive(Clone, Copy, PartialEq, Eq, Debug)]
pub enum Point {
    /// The key is taken.
    Taken,
    /// The CronJob is seen.
    Seen,
    /// Its Jobs are listed; what its active names are by now isn't yet asked.
    Listed,
    /// The plan is claimed.
    Claimed,
    /// The Job is made.
    Made,
}

/// Whether a sync goes on.
#[derive(Clone, Copy, PartialEq, Eq, Debug)]
pub enum Turn {
    Go,
    Stop,
}

/// What a sync passes between its calls, with no lock held. It may wait there, or be stopped for
/// good.
pub trait Gate {
    ghost use Rattle.cj_types.specs.Keys.{Place};
    ghost use Rattle.cj_worker.specs.declared.gate.Point.{Point};

    /// At which points the gate may stop the sync of which keys.
    ghost may_stop: { Self → Point → Place → Type 0 };

    /// Whether the sync of the key goes on at the point.
    fn at(&self, point: Point, key: &Key) -> Turn
        ensures { result ≡ Turn.Stop → may_stop self.now point key.now };
}

/// A gate that always lets go on.
#[derive(Clone, Copy, Debug)]
pub struct OpenGate;

impl Gate for OpenGate {
    ghost may_stop = { λ _ _ _. ⊥ };

    fn at(&self, _point: Point, _key: &Key) -> Turn {
        Turn::Go
    }
}

/// What a clock shows: the moment in seconds, and in milliseconds.
#[derive(Clone, Copy, PartialEq, Eq, Debug)]
pub struct Reading {
    pub seconds: Seconds,
    pub millis: Millis,
}

/// A clock, which may go wrong as far as its contract lets it.
pub trait Clock {
    ghost use Rattle.cj_worker.specs.declared.gate.Reading.{Reading};

    /// The readings that the clock may give.
    ghost gives: { Self → Reading → Type 0 };

    /// One reading.
    fn now(&self) -> Reading
        ensures { gives self.now result };
}
