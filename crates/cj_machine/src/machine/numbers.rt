// What a controller counts, for whoever watches over it.

/// From the due time of a Job to its start at most so many seconds: the bounds of a histogram.
pub(crate) const BOUNDS: [u64; 8] = [1, 2, 4, 8, 16, 32, 64, 128];

/// What a controller has counted since it began.
#[derive(Clone, Copy)]
pub(crate) struct Numbers {
    /// Syncs that began.
    pub syncs: u64,
    /// Jobs that were started.
    pub starts: u64,
    /// Claims that were refused by a conflict (409).
    pub conflicts: u64,
    /// Creations of Jobs that were refused otherwise.
    pub refused_creates: u64,
    /// Times that nobody claimed within a minute.
    pub missed: u64,
    /// When a Job was started last, in seconds since 1970; 0 before.
    pub last_start: u64,
    /// How many starts came within each of the bounds, and all their delays in seconds.
    pub delays: [u64; 8],
    pub delay_sum: u64,
    /// The conflicts and the starts of the minute before this one, and of this one.
    pub last_minute: Minute,
    pub this_minute: Minute,
}

/// What a minute had.
#[derive(Clone, Copy)]
pub(crate) struct Minute {
    pub conflicts: u64,
    pub starts: u64,
}

const NOTHING: Minute = Minute {
    conflicts: 0,
    starts: 0,
};

impl Numbers {
    pub(crate) fn new() -> Numbers {
        Numbers {
            syncs: 0,
            starts: 0,
            conflicts: 0,
            refused_creates: 0,
            missed: 0,
            last_start: 0,
            delays: [0; 8],
            delay_sum: 0,
            last_minute: NOTHING,
            this_minute: NOTHING,
        }
    }

    /// A minute ends.
    pub(crate) fn end_minute(&mut self) {
        self.last_minute = self.this_minute;
        self.this_minute = NOTHING;
    }

    /// A sync began.
    pub(crate) fn began(&mut self) {
        self.syncs = self.syncs.saturating_add(1);
    }

    /// A claim was refused by a conflict.
    pub(crate) fn conflicted(&mut self) {
        self.conflicts = self.conflicts.saturating_add(1);
        self.this_minute.conflicts = self.this_minute.conflicts.saturating_add(1);
    }

    /// A Job of this time was started at this moment.
    pub(crate) fn started(&mut self, time: Option<u64>, now: u64) {
        self.starts = self.starts.saturating_add(1);
        self.this_minute.starts = self.this_minute.starts.saturating_add(1);
        self.last_start = now;
        let delay = now.saturating_sub(time.unwrap_or(now));
        self.delay_sum = self.delay_sum.saturating_add(delay);
        self.delays = counted(self.delays, delay);
    }

    /// Whether claims met conflicts all the last minute, and no Job was started.
    pub(crate) fn is_storm(&self) -> bool {
        self.last_minute.conflicts >= 100 && self.last_minute.starts == 0
    }
}

// The histogram with one delay more.
fn counted(delays: [u64; 8], delay: u64) -> [u64; 8] {
    let mut delays = delays;
    for (count, bound) in delays.iter_mut().zip(BOUNDS.iter()) {
        if delay <= *bound {
            *count = count.saturating_add(1);
        }
    }
    delays
}
