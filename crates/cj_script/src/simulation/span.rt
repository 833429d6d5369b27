// The instants of a run's clock.
ghost use Rattle.std.specs.Prelude.{◌≡◌, ◌+◌, ◌≤◌, ◌<◌, ◌↔◌, ℕ, IsSome, IfSome, IsTrue};
ghost use Rattle.cj_base.specs.Instant.{last_second};
ghost use Rattle.cj_script.specs.simulation.Spans as clock;
ghost use Rattle.cj_script.specs.simulation.Spans.{IsInstant};

use cj_types::Seconds;
use std::marker::Model;

/// The clock of a run: its first instant is the start, each next one is a step later, and none is
/// after the end.
///
/// Contracts see the start, the end and the step.
#[derive(Clone, Copy, Debug, PartialEq, Eq)]
pub struct Span {
    start: Seconds,
    end: Seconds,
    step: u64,
}

impl Model for Span {
    ghost use Rattle.std.specs.Prelude.{◌≤◌};
    ghost use Rattle.cj_script.specs.simulation.Spans.{SpanView, last_step, span};

    ghost Value = { SpanView };

    ghost view = { λ s. span s.start s.end s.step };

    ghost invariant = { λ s. (s.start ≤ s.end) × (1 ≤ s.step) × (s.step ≤ last_step) };

    ghost inverse = { λ s. record { start = s.start; end = s.end; step = s.step } };
}

impl Span {
    /// The most seconds from one instant to the next.
    pub const LAST_STEP: u64 = 3_600;

    /// The clock from a start to an end that isn't before it, by a step of 1 to 3,600 seconds.
    pub fn new(start: Seconds, end: Seconds, step: u64) -> Option<Span>
        ensures { result ≡ clock.span_of start end step }
    {
        if start <= end && step >= 1 && step <= Self::LAST_STEP {
            Some(Span { start, end, step })
        } else {
            None
        }
    }

    /// The first instant.
    pub fn start(&self) -> Seconds
        ensures value { result ≡ self.now.start }
        ensures within { IsInstant self.now 0 }
    {
        self.start
    }

    // How many seconds the clock goes from its start.
    fn length(&self) -> u64
        ensures value { self.now.start + result ≡ self.now.end }
        ensures in_range { result ≤ last_second }
    {
        self.end.get() - self.start.get()
    }

    /// How many instants there are.
    pub fn count(&self) -> u64
        ensures { (n : ℕ) → (n < result) ↔ IsInstant self.now n }
    {
        self.length() / self.step + 1
    }

    /// The instant of that number, from 0 on.
    pub fn instant(&self, n: u64) -> Option<Seconds>
        ensures within { IsSome result ↔ IsInstant self.now n }
        ensures value { IfSome result (λ at. at ≡ clock.instant self.now n) }
    {
        let end = self.end.get();
        let offset = n.checked_mul(self.step)?;
        let moment = self.start.get().checked_add(offset)?;
        if moment <= end {
            Seconds::new(moment)
        } else {
            None
        }
    }

    /// Whether that is an instant.
    pub fn has(&self, at: Seconds) -> bool
        ensures value { result ≡ clock.is_instant self.now at }
        ensures exact { IsTrue result ↔ ((n : ℕ) × IsInstant self.now n
            × (clock.instant self.now n ≡ at)) }
    {
        let (start, end, moment) = (self.start.get(), self.end.get(), at.get());
        start <= moment && moment <= end && (moment - start) % self.step == 0
    }
}
