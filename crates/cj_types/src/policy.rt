ghost use Rattle.std.specs.Prelude.{◌≡◌};
ghost use Rattle.cj_types.specs.Printed.{policy_name, reason_name};

use cj_base::{Same, Seconds};

/// How a CronJob treats a new Job while an earlier one runs (batch/v1, `concurrencyPolicy`).
#[derive(Clone, Copy, Debug, PartialEq, Eq)]
pub enum Policy {
    /// Both run.
    Allow,
    /// The new one is skipped.
    Forbid,
    /// The new one takes the earlier one's place.
    Replace,
}

impl Policy {
    /// `Allow`, `Forbid` or `Replace`.
    pub fn name(self) -> &'static str
        ensures { result.now ≡ policy_name self }
    {
        match self {
            Policy::Allow => "Allow",
            Policy::Forbid => "Forbid",
            Policy::Replace => "Replace",
        }
    }
}

/// How a Job ended.
#[derive(Clone, Copy, Debug, PartialEq, Eq)]
pub enum Outcome {
    /// It succeeded, at this time.
    Complete(Seconds),
    /// It failed; no time is kept.
    Failed,
}

impl Same for Outcome {
    fn same(&self, other: &Outcome) -> bool {
        self == other
    }
}

/// Why a sync of a CronJob started no Job.
#[derive(Clone, Copy, Debug, PartialEq, Eq)]
pub enum Reason {
    /// `timeZone` names no zone of the table.
    UnknownTimeZone,
    /// More than 100 times were missed.
    TooManyMissedTimes,
    /// Under `Forbid`, an earlier Job hasn't finished.
    JobAlreadyActive,
    /// The Job could not be made, since its name is taken.
    FailedCreate,
}

impl Reason {
    /// The printed name of the reason.
    pub fn name(self) -> &'static str
        ensures { result.now ≡ reason_name self }
    {
        match self {
            Reason::UnknownTimeZone => "UnknownTimeZone",
            Reason::TooManyMissedTimes => "TooManyMissedTimes",
            Reason::JobAlreadyActive => "JobAlreadyActive",
            Reason::FailedCreate => "FailedCreate",
        }
    }
}

impl Same for Reason {
    fn same(&self, other: &Reason) -> bool {
        self == other
    }
}
