ghost use Rattle.std.specs.Prelude.{◌≡◌};
ghost use Rattle.cj_types.specs.Owners.{controller_of};
ghost use Rattle.cj_table.specs.jobs.Owners.{is_job_of};
ghost use Rattle.cj_cluster.specs.Content.{has_uid, is_halted, is_of};

use cj_base::both;
use cj_types::{CronJob, Job, Refusal, Shared, Text, TryCopy};
use std::alloc::Global;

/// What a server says of a CronJob that keeps its controller from starting Jobs, whatever its spec
/// says.
#[derive(Clone, Copy, Debug, PartialEq, Eq)]
pub struct CronMarks {
    /// Its deletion was asked for: it has a `metadata.deletionTimestamp`.
    pub is_deleting: bool,
    /// A reference in its `status.active` names no Job, so that each sync of Kubernetes' controller
    /// fails.
    pub is_stuck: bool,
}

impl CronMarks {
    /// Whether its controller starts nothing, whatever its spec says.
    pub fn is_halted(self) -> bool
        ensures { result ≡ is_halted self }
    {
        self.is_deleting || self.is_stuck
    }
}

/// A CronJob as a cluster has it.
#[derive(Debug)]
pub struct ClusterCron {
    /// The uid that the server gave it: any text.
    pub uid: Text,
    /// What the server says of it that keeps its controller from starting Jobs.
    pub marks: CronMarks,
    /// The CronJob, with a number for its uid.
    pub cron: Shared<CronJob>,
}

impl Drop for ClusterCron {
    fn drop(self) {
        let ClusterCron {
            uid,
            marks: _,
            cron,
        } = self;
        drop(uid);
        drop(cron);
    }
}

impl TryCopy for ClusterCron {
    fn try_copy(&self, alloc: Global) -> Result<ClusterCron, Refusal> {
        let (uid, cron) = both(self.uid.try_copy(alloc), self.cron.share())?;
        Ok(ClusterCron {
            uid,
            marks: self.marks,
            cron,
        })
    }
}

/// Whether the Job's controller reference has this uid.
pub(crate) fn has_uid(uid: &str, job: &Job) -> bool
    ensures { result ≡ has_uid uid.now (controller_of job.now.owners) }
{
    match job.owners.controller() {
        Some(owner) => owner.uid.as_str() == uid,
        None => false,
    }
}

// Whether the Job's controller is a CronJob of this one's name in this one's namespace.
fn is_named(cron: &CronJob, job: &Job) -> bool
    ensures { result ≡ is_job_of cron.now.key job.now }
{
    let key = cron.key.key();
    let is_beside = job.key.namespace() == key.namespace();
    match job.cron_name() {
        Some(name) => is_beside && name.as_str() == key.name(),
        None => false,
    }
}

impl ClusterCron {
    /// Whether the Job's controller is this CronJob, by its name in the Job's namespace and by its
    /// uid.
    pub fn controls(&self, job: &Job) -> bool
        ensures { result ≡ is_of self.now job.now }
    {
        let named = is_named(self.cron.get(), job);
        let has_uid = has_uid(self.uid.as_str(), job);
        named && has_uid
    }
}
