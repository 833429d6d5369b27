ghost use Rattle.std.specs.Prelude.{◌≡◌, ℕ, ◌≤◌, IfSome, IsSome, ◌↔◌};
ghost use Rattle.cj_types.specs.WorldLimits.{Kept, kept, last_history, last_window};

use std::marker::Model;

/// How much is kept: the most entries of the history, from 1 to 16,777,216, and the number of
/// latest events in the watch window, from 1 to 100,000.
///
/// Contracts see the two numbers.
#[derive(Clone, Copy, Debug, PartialEq, Eq, Hash)]
pub struct Limits {
    history: u32,
    window: u32,
}

impl Model for Limits {
    ghost Value = { Kept };

    ghost view = { λ l. kept l.history l.window };

    ghost invariant = { λ l. (1 ≤ l.history) × (l.history ≤ last_history) × (1 ≤ l.window)
        × (l.window ≤ last_window) };

    ghost inverse = { λ k. record { history = k.history; window = k.window } };
}

impl Limits {
    /// The most entries of a history.
    pub const LAST_HISTORY: u32 = 16_777_216;

    /// The most events of a window.
    pub const LAST_WINDOW: u32 = 100_000;

    /// The limits with these two numbers, where they are 1 to 16,777,216 and 1 to 100,000.
    pub fn new(history: u32, window: u32) -> Option<Limits>
        ensures in_range { IsSome result ↔ ((1 ≤ history) × (history ≤ last_history) × (1 ≤ window)
            × (window ≤ last_window)) }
        ensures value { IfSome result (λ l. l ≡ kept history window) }
    {
        let history_fits = history >= 1 && history <= Self::LAST_HISTORY;
        let window_fits = window >= 1 && window <= Self::LAST_WINDOW;
        if history_fits && window_fits {
            Some(Limits { history, window })
        } else {
            None
        }
    }

    /// The most entries of the history.
    pub fn history(self) -> u32
        ensures value { result ≡ self.history }
        ensures in_range { (1 ≤ result) × (result ≤ last_history) }
    {
        self.history
    }

    /// The number of events in the window.
    pub fn window(self) -> u32
        ensures value { result ≡ self.window }
        ensures in_range { (1 ≤ result) × (result ≤ last_window) }
    {
        self.window
    }
}
