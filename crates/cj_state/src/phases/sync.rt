use cj_decide::Plan;
use cj_types::{CronJob, Job, Key, Listing, Refusal, Shared, TryCopy, Version};
use std::alloc::Global;

/// A plan that was claimed, and how far it has come.
pub struct Work {
    pub plan: Shared<Plan>,
    /// The version that the claim wrote, or the one that was seen where nothing was claimed.
    pub version: Version,
    /// How many of the plan's steps are made.
    pub place: usize,
}

impl Drop for Work {
    fn drop(self) {
        let Work {
            plan,
            version: _,
            place: _,
        } = self;
        drop(plan);
    }
}

/// How far a worker's sync has come, with the answers that it got.
pub enum Phase {
    /// The key is taken.
    Held,
    /// The CronJob is seen, if there is one.
    Seen(Option<Shared<CronJob>>),
    /// The CronJob is seen and its Jobs are listed.
    Listed(Option<Shared<CronJob>>, Listing<Shared<Job>>),
    /// Beside these it is seen what the active Jobs are by now.
    Checked(Option<Shared<CronJob>>, Listing<Shared<Job>>, Listing<Option<Shared<Job>>>),
    /// A plan that rests on these three answers is claimed.
    Works(Work),
}

impl Drop for Phase {
    fn drop(self) {
        match self {
            Phase::Held => {}
            Phase::Seen(_) => {}
            Phase::Listed(_, jobs) => drop(jobs),
            Phase::Checked(_, jobs, active) => {
                drop(jobs);
                drop(active);
            }
            Phase::Works(work) => drop(work),
        }
    }
}

/// A sync in flight: the key that its worker holds, and how far it has come. A worker that holds no
/// key has none.
pub struct InFlight {
    pub key: Key,
    pub phase: Phase,
}

impl Drop for InFlight {
    fn drop(self) {
        let InFlight { key: _, phase } = self;
        drop(phase);
    }
}

impl TryCopy for Work {
    fn try_copy(&self, alloc: Global) -> Result<Work, Refusal> {
        Ok(Work {
            plan: self.plan.try_copy(alloc)?,
            version: self.version,
            place: self.place,
        })
    }
}
