ghost use Rattle.std.specs.Prelude.{◌≡◌, ℕ, ◌≤◌, IfSome, IsSome, ◌↔◌};
ghost use Rattle.cj_types.specs.Limits.{last_deadline, last_history_limit};

use std::marker::Model;

/// How late a Job of a CronJob may still be started, in seconds, from 0 to 2^63-1 (batch/v1,
/// `startingDeadlineSeconds`).
///
/// Contracts see the number of seconds.
#[derive(Clone, Copy, Debug, PartialEq, Eq, PartialOrd, Ord, Hash)]
pub struct Deadline {
    seconds: u64,
}

impl Model for Deadline {
    ghost Value = { ℕ };

    ghost view = { λ d. d.seconds };

    ghost invariant = { λ d. d.seconds ≤ last_deadline };

    ghost inverse = { λ n. record { seconds = n } };
}

impl Deadline {
    /// The greatest number of seconds.
    pub const LAST: u64 = 9_223_372_036_854_775_807;

    /// The deadline of `count` seconds, where that is at most 2^63-1.
    pub fn new(seconds: u64) -> Option<Deadline>
        ensures in_range { IsSome result ↔ (seconds ≤ last_deadline) }
        ensures value { IfSome result (λ d. d ≡ seconds) }
    {
        if seconds <= Self::LAST {
            Some(Deadline { seconds })
        } else {
            None
        }
    }

    /// The number of seconds.
    pub fn get(self) -> u64
        ensures value { result ≡ self }
        ensures in_range { result ≤ last_deadline }
    {
        self.seconds
    }
}

impl From<u32> for Deadline {
    ghost from_gives = { λ n d. d ≡ n };

    fn from(seconds: u32) -> Deadline {
        Deadline {
            seconds: u64::from(seconds),
        }
    }
}

/// How many finished Jobs of one outcome a CronJob keeps, from 0 to 2,147,483,647 (batch/v1,
/// `successfulJobsHistoryLimit` and `failedJobsHistoryLimit`).
///
/// Contracts see the number of Jobs.
#[derive(Clone, Copy, Debug, PartialEq, Eq, PartialOrd, Ord, Hash)]
pub struct HistoryLimit {
    count: u32,
}

impl Model for HistoryLimit {
    ghost Value = { ℕ };

    ghost view = { λ l. l.count };

    ghost invariant = { λ l. l.count ≤ last_history_limit };

    ghost inverse = { λ n. record { count = n } };
}

impl HistoryLimit {
    /// The greatest number of Jobs.
    pub const LAST: u64 = 2_147_483_647;

    /// The limit of `count` Jobs, where that is at most 2,147,483,647.
    pub fn new(count: u64) -> Option<HistoryLimit>
        ensures in_range { IsSome result ↔ (count ≤ last_history_limit) }
        ensures value { IfSome result (λ l. l ≡ count) }
    {
        if count <= Self::LAST {
            Some(HistoryLimit {
                count: count as u32,
            })
        } else {
            None
        }
    }

    /// The number of Jobs.
    pub fn get(self) -> u32
        ensures value { result ≡ self }
        ensures in_range { result ≤ last_history_limit }
    {
        self.count
    }
}

impl From<u16> for HistoryLimit {
    ghost from_gives = { λ n l. l ≡ n };

    fn from(count: u16) -> HistoryLimit {
        HistoryLimit {
            count: u32::from(count),
        }
    }
}
