ghost use Rattle.std.specs.Prelude.{◌≡◌, ◌≤◌, ◌+◌, ◌↔◌, IfSome, IsSome};
ghost use Rattle.cj_base.specs.Instant.{last_second};
ghost use Rattle.cj_due.specs.Due.{reach};

use cj_base::Seconds;
use std::marker::Model;

// As many seconds as the definition says.
const REACH: u64 = 259_200_000;

/// A window of time: the instants from one on and before another, which is at most 3,000 days
/// later.
///
/// Contracts see the two instants.
pub struct Window {
    from: Seconds,
    end: Seconds,
}

impl Drop for Window {
    fn drop(self) {
        let Window { from: _, end: _ } = self;
    }
}

impl Model for Window {
    ghost use Rattle.std.specs.Prelude.{◌≤◌, ◌+◌};
    ghost use Rattle.cj_due.specs.Due.{reach};
    ghost use Rattle.cj_upcoming.specs.Window.{Span};

    ghost Value = { Span };

    ghost view = { λ w. record { from = w.from; end = w.end } };

    ghost invariant = { λ w. w.end ≤ w.from + reach };
}

impl Window {
    /// The window that begins with an instant and lasts `length` seconds; `None` where it would
    /// last longer than 3,000 days or end after the year 9998.
    pub fn new(from: Seconds, length: u64) -> Option<Window>
        ensures in_range { IsSome result ↔ ((length ≤ reach) × (from + length ≤ last_second)) }
        ensures from { IfSome result (λ w. w.from ≡ from) }
        ensures end { IfSome result (λ w. w.end ≡ from + length) }
    {
        if length > REACH {
            return None;
        }
        let end = Seconds::new(from.get() + length)?;
        Some(Window { from, end })
    }

    /// Its first instant.
    pub fn from(&self) -> Seconds
        ensures { result ≡ self.now.from }
    {
        self.from
    }

    /// The instant that it ends before.
    pub fn end(&self) -> Seconds
        ensures value { result ≡ self.now.end }
        ensures near { self.now.end ≤ self.now.from + reach }
    {
        self.end
    }
}
