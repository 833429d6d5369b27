ghost use Rattle.std.specs.Prelude.{◌≡◌};
ghost use Rattle.cj_run.specs.Readings.{HasInstant};

use cj_hub::AtRest;
use cj_script::Span;
use cj_types::{Millis, Seconds};
use cj_worker::{Clock, Reading};
use std::sync::atomic::{AtomicU64, Ordering};

/// The clock of a run. It shows one of its instants.
#[derive(Drop)]
pub(crate) struct RunClock {
    span: Span,
    // The number of the instant, from 0.
    number: AtomicU64,
}

impl RunClock {
    /// A clock at the first instant.
    pub(crate) fn new(span: Span) -> RunClock
        ensures { result.span ≡ span }
    {
        RunClock {
            span,
            number: AtomicU64::new(0),
        }
    }

    // The instant of that number, or the first one where there is none.
    fn instant(&self, number: u64) -> Seconds
        ensures { HasInstant self.now.span result }
    {
        match self.span.instant(number) {
            Some(at) => at,
            None => self.span.start(),
        }
    }

    /// Moves on to the next instant, which only a hub at rest allows.
    pub(crate) fn advance(&self, _rest: AtRest) {
        self.number.fetch_add(1, Ordering::SeqCst);
    }
}

impl Clock for RunClock {
    ghost use Rattle.cj_run.specs.Readings.{Shows};

    ghost gives = { λ c r. Shows c.span r.seconds r.millis };

    fn now(&self) -> Reading {
        let number = self.number.load(Ordering::SeqCst);
        let seconds = self.instant(number);
        Reading {
            seconds,
            millis: Millis::from(seconds),
        }
    }
}
