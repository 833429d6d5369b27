ghost use Rattle.std.specs.Prelude.{◌≡◌};

use crate::gaps::mark::Start;
use cj_types::{CronJob, Seconds, Shared};

/// Why a due time of a CronJob got no Job.
#[derive(Clone, Copy, Debug, PartialEq, Eq, PartialOrd, Ord)]
pub enum Why {
    /// The first sync that counted it saw that the CronJob is suspended.
    Suspended,
    /// At the moment of that sync the starting deadline was over.
    TooLate,
    /// That sync told `JobAlreadyActive`: the policy is Forbid, and a Job of the CronJob ran.
    Forbidden,
    /// None of these: a sync that claims starts the latest time missed, and passes over those
    /// before it.
    Earlier,
    /// It was claimed, and the name of its Job was taken.
    NameTaken,
    /// It was claimed, and its worker made no Job.
    NotMade,
    /// No sync came since.
    NeverSynced,
}

/// A due time of a CronJob that got no Job.
#[derive(Drop)]
pub struct Gap {
    /// The CronJob, as the first sync that counted the time saw it, or as it stands where none did.
    pub cron: Shared<CronJob>,
    /// The due time.
    pub time: Seconds,
    /// Why there is no Job.
    pub why: Why,
}

impl Gap {
    /// The CronJob, by its uid, and the time.
    pub(crate) fn start(&self) -> Start
        ensures { result ≡ record { uid = self.now.cron.meta.uid; time = self.now.time } }
    {
        Start {
            uid: self.cron.get().meta.uid,
            time: self.time,
        }
    }
}
