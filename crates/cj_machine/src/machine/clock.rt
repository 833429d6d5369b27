// The clock of this machine, held against the API server's.

// By how many seconds the two may differ, and by how many more than one the clock may go on from
// line to line, before the server's is asked for.
const TOLERANCE: u64 = 5;

// For how many seconds the two have to differ before people are told.
const PATIENCE: u64 = 3;

// How often people are told that they differ, in seconds.
const TOLD_EACH: u64 = 3_600;

/// By how many seconds a clock differs from the server's.
#[derive(Clone, Copy, Debug, PartialEq, Eq)]
pub(crate) enum Difference {
    Ahead(u64),
    Behind(u64),
}

/// The clock of this machine, held against the API server's. What is due goes by the earlier of the
/// two, and never back.
#[derive(Clone, Copy)]
pub(crate) struct Clock {
    /// What the last line of the clock said, in seconds since 1970; 0 before the first.
    local: u64,
    /// What the server's clock said last, and what this one said then; 0 before.
    server: u64,
    at: u64,
    /// Whether the server answered since the clock began, or since it jumped.
    is_trusted: bool,
    /// The moment that all goes by.
    now: u64,
    /// Since when the two differ, by this clock; 0 where they don't.
    differs_since: u64,
    /// When people were told so last; 0 before.
    told_at: u64,
}

impl Clock {
    pub(crate) fn new() -> Clock {
        Clock {
            local: 0,
            server: 0,
            at: 0,
            is_trusted: false,
            now: 0,
            differs_since: 0,
            told_at: 0,
        }
    }

    /// The moment by which Jobs are due: that of this clock or of the server's, whichever is
    /// earlier; 0 until the server has answered.
    pub(crate) fn now(&self) -> u64 {
        self.now
    }

    /// What the last line of the clock said; 0 before the first.
    pub(crate) fn local(&self) -> u64 {
        self.local
    }

    /// Whether the server's clock is to be asked for, since this one jumped.
    pub(crate) fn is_in_doubt(&self) -> bool {
        !self.is_trusted
    }

    // What the server's clock says now, as far as is known.
    fn server_now(&self) -> u64 {
        self.server
            .saturating_add(self.local.saturating_sub(self.at))
    }

    // The earlier of the two clocks, where they differ by more than may be.
    fn earlier(&self) -> u64 {
        let server = self.server_now();
        if self.at != 0 && server.saturating_add(TOLERANCE) < self.local {
            server
        } else {
            self.local
        }
    }

    fn go_on(&mut self) {
        if self.is_trusted {
            self.now = self.now.max(self.earlier());
        }
    }

    // Whether the clock went on by some seconds at most, and not back.
    fn is_steady(&self, local: u64) -> bool {
        let least = self.local.saturating_sub(TOLERANCE);
        let most = self.local.saturating_add(TOLERANCE).saturating_add(1);
        least <= local && local <= most
    }

    /// A line of the clock. One that jumps isn't believed before the server's clock is known anew,
    /// if it was ever told.
    pub(crate) fn tick(&mut self, local: u64) {
        if self.at != 0 && !self.is_steady(local) {
            self.is_trusted = false;
        }
        self.local = local;
        self.go_on();
    }

    /// The server answered, and told its clock, or didn't.
    pub(crate) fn heard(&mut self, date: Option<u64>) {
        if let Some(date) = date {
            self.server = date;
            self.at = self.local;
            self.is_trusted = true;
            self.note();
        } else if self.at == 0 {
            self.is_trusted = true;
        }
        self.go_on();
    }

    /// By how much this clock differs from the server's, where it does.
    pub(crate) fn difference(&self) -> Option<Difference> {
        let ahead = self.at.saturating_sub(self.server);
        let behind = self.server.saturating_sub(self.at);
        if self.at == 0 {
            None
        } else if ahead > TOLERANCE {
            Some(Difference::Ahead(ahead))
        } else if behind > TOLERANCE {
            Some(Difference::Behind(behind))
        } else {
            None
        }
    }

    // Since when the two differ.
    fn note(&mut self) {
        if self.difference().is_none() {
            self.differs_since = 0;
        } else if self.differs_since == 0 {
            self.differs_since = self.local;
        }
    }

    /// By how much the clocks differ, where people are to be told now: once it has lasted for some
    /// seconds, and then once an hour.
    pub(crate) fn to_tell(&mut self) -> Option<Difference> {
        let difference = self.difference()?;
        let lasts = self.differs_since.saturating_add(PATIENCE) <= self.local;
        let is_due = self.told_at == 0 || self.told_at.saturating_add(TOLD_EACH) <= self.local;
        if lasts && is_due {
            self.told_at = self.local;
            Some(difference)
        } else {
            None
        }
    }
}
