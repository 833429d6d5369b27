// When a feed asks.

/// When the next request may be asked, and how often in a row asking was in vain.
#[derive(Clone, Copy, Debug)]
pub(crate) struct Pace {
    /// The second, since 1970, from which a request may be asked.
    at: u64,
    misses: u64,
}

/// 1, 2, 4, .. seconds, at most 32.
fn delay(misses: u64) -> u64 {
    match misses {
        0 => 1,
        1 => 2,
        2 => 4,
        3 => 8,
        4 => 16,
        _ => 32,
    }
}

impl Pace {
    pub(crate) fn new() -> Pace {
        Pace { at: 0, misses: 0 }
    }

    /// Whether a request may be asked.
    pub(crate) fn is_due(self, now: u64) -> bool {
        self.at <= now
    }

    /// After a success: at once.
    pub(crate) fn at_once(now: u64) -> Pace {
        Pace { at: now, misses: 0 }
    }

    /// The same misses, and so many seconds later.
    pub(crate) fn after(self, now: u64, seconds: u64) -> Pace {
        Pace {
            at: now.saturating_add(seconds),
            misses: self.misses,
        }
    }

    /// How many seconds are waited after a request that is in vain now.
    pub(crate) fn wait(self) -> u64 {
        delay(self.misses)
    }

    /// The last request was in vain.
    pub(crate) fn missed(self, now: u64) -> Pace {
        Pace {
            at: now.saturating_add(delay(self.misses)),
            misses: self.misses.saturating_add(1),
        }
    }

    /// The request had its answer: no misses any more.
    pub(crate) fn met(self) -> Pace {
        Pace {
            at: self.at,
            misses: 0,
        }
    }
}
