ghost use Rattle.std.specs.Prelude.{◌≡◌};
ghost use Rattle.cj_audit.specs.Kinds.{exclusive_of};

use cj_types::Policy;

/// A policy under which no two Jobs of a CronJob run at once.
#[derive(Clone, Copy, Debug, PartialEq, Eq, PartialOrd, Ord)]
pub enum Exclusive {
    /// `Forbid`.
    UnderForbid,
    /// `Replace`.
    UnderReplace,
}

impl Exclusive {
    /// The policy, where it is one of these.
    pub fn of(policy: Policy) -> Option<Exclusive>
        ensures { result ≡ exclusive_of policy }
    {
        match policy {
            Policy::Allow => None,
            Policy::Forbid => Some(Exclusive::UnderForbid),
            Policy::Replace => Some(Exclusive::UnderReplace),
        }
    }
}

/// What is wrong with a Job, with two, with a time that has none, or with a CronJob.
///
/// The printed words are `twice` for duplicate Jobs, `beside` for overlapping Jobs, `undue` for a
/// Job that is not due, `early` for one made before its time, `missing` for a missed run, `stray`
/// for an orphan, a Job without its CronJob, and `stuck` for a CronJob whose controller fails at
/// each sync.
#[derive(Clone, Copy, Debug, PartialEq, Eq, PartialOrd, Ord)]
pub enum FindingKind {
    /// Two Jobs of one CronJob were made for one scheduled time.
    Twice,
    /// Two Jobs of one CronJob ran at once, though its policy is one that allows no two.
    Beside(Exclusive),
    /// The schedule of the CronJob isn't due at the scheduled time of the Job.
    Undue,
    /// The Job was created before its scheduled time.
    Early,
    /// A time at which the schedule of the CronJob is due has no Job, though later times have.
    Missing,
    /// The Job is controlled by a CronJob that isn't there.
    Stray,
    /// A reference in the CronJob's `status.active` names no Job, so that it starts nothing.
    Stuck,
}
