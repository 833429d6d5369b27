// Where a moment stands.
ghost use Rattle.std.specs.Prelude.{◌≡◌, IfErr};
ghost use Rattle.cj_base.specs.declared.refusal.Refusal.TheVariants.{OutOfMemory};

use cj_types::{Refusal, Seconds};
use cj_zone::time_text;
use std::alloc::Global;

/// The moments of a picture, from left to right.
#[derive(Clone, Copy, Debug)]
pub(crate) struct Axis {
    pub(crate) start: u64,
    pub(crate) end: u64,
}

// Where the lanes begin and end, in tenths.
const LEFT: u64 = 2_300;

const WIDE: u64 = 7_100;

const MINUTE: u64 = 60;

impl Axis {
    /// No moment yet.
    pub(crate) fn empty() -> Axis {
        Axis {
            start: Seconds::LAST,
            end: 0,
        }
    }

    /// With a moment more, if there is one.
    pub(crate) fn with(self, at: Option<Seconds>) -> Axis {
        match at {
            Some(at) => Axis {
                start: self.start.min(at.get()),
                end: self.end.max(at.get()),
            },
            None => self,
        }
    }

    /// With the start not after the end, also where there is no moment.
    pub(crate) fn whole(self) -> Axis {
        Axis {
            start: self.start.min(self.end),
            end: self.end,
        }
    }

    /// From that moment on, where somebody says one; from the end if it is later.
    pub(crate) fn since(self, first: Option<Seconds>) -> Axis {
        match first {
            Some(first) => Axis {
                start: first.get().min(self.end),
                end: self.end,
            },
            None => self,
        }
    }

    /// Whether there is no moment.
    pub(crate) fn is_empty(self) -> bool {
        self.end == 0
    }

    /// How long they take, or a minute if that is longer.
    pub(crate) fn span(self) -> u64 {
        self.end.saturating_sub(self.start).max(MINUTE)
    }

    /// The place of a moment, in tenths; one before the first or after the last is at the edge.
    pub(crate) fn x(self, at: u64) -> u64 {
        let past = at.saturating_sub(self.start).min(self.span());
        let x = past.saturating_mul(WIDE).checked_div(self.span());
        LEFT.saturating_add(x.unwrap_or(0))
    }
}

/// A moment as it is printed.
pub(crate) fn moment_text(alloc: Global, at: u64) -> Result<String, Refusal>
    ensures err { IfErr result (λ e. e ≡ OutOfMemory) }
{
    match Seconds::new(at) {
        Some(at) => time_text(alloc, at),
        None => Ok(String::new(alloc)),
    }
}
