// Where the minutes of a window stand: a row an hour, a column a minute.
use crate::clock::{offset_at, past_of};
use cj_upcoming::Window;
use cj_zone::Zone;

const HOUR: u64 = 3_600;

/// No more hours are drawn.
const MOST_ROWS: u64 = 400;

// Where the first minute begins, from the left and from above.
const LEFT: u64 = 132;

const TOP: u64 = 74;

/// How wide a minute is, and how high an hour.
const WIDE: u64 = 14;

const HIGH: u64 = 16;

/// The hours that are drawn.
#[derive(Clone, Copy, Debug)]
pub(crate) struct Grid {
    /// When the first hour begins, and how many there are.
    pub(crate) first: u64,
    pub(crate) rows: u64,
    /// The starts of the fullest minute.
    pub(crate) most: u64,
}

impl Grid {
    /// The hours of the window, of which the first begins where the clock shows a full one; `most`
    /// starts are in its fullest minute.
    pub(crate) fn new(window: &Window, clock: Option<&Zone>, most: u64) -> Grid {
        let from = window.from().get();
        let past = past_of(offset_at(clock, from), HOUR, from);
        let first = from.saturating_sub(past);
        let last = window.end().get().saturating_sub(1);
        let rows = (last.saturating_sub(first) / HOUR).saturating_add(1);
        Grid {
            first,
            rows: rows.min(MOST_ROWS),
            most,
        }
    }

    /// The row of an instant, where it is drawn.
    pub(crate) fn row(self, at: u64) -> Option<u64> {
        let row = at.checked_sub(self.first)? / HOUR;
        if row < self.rows { Some(row) } else { None }
    }

    /// The minute of an instant in its row.
    pub(crate) fn minute(self, at: u64) -> u64 {
        at.saturating_sub(self.first) / 60 % 60
    }

    /// The first second of a row.
    pub(crate) fn start(self, row: u64) -> u64 {
        self.first.saturating_add(row.saturating_mul(HOUR))
    }

    /// Where a row begins, from above.
    pub(crate) fn y(self, row: u64) -> u64 {
        TOP.saturating_add(row.saturating_mul(HIGH))
    }

    /// Where a minute of the hour begins, from the left.
    pub(crate) fn x(self, minute: u64) -> u64 {
        LEFT.saturating_add(minute.saturating_mul(WIDE))
    }

    /// Where the last row ends.
    pub(crate) fn bottom(self) -> u64 {
        self.y(self.rows)
    }
}
