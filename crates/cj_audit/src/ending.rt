ghost use Rattle.std.specs.Prelude.{◌≡◌};
ghost use Rattle.cj_audit.specs.Missing.{ended_count, ends, is_ended};

use cj_cluster::ClusterCron;
use cj_types::{Job, Outcome, Shared};

/// How a Job ended; a CronJob has a limit for each kind (batch/v1, `successfulJobsHistoryLimit` and
/// `failedJobsHistoryLimit`).
#[derive(Clone, Copy, Debug, PartialEq, Eq)]
pub(crate) enum Ending {
    /// With success.
    Success,
    /// Without.
    Failure,
}

impl Ending {
    /// Whether the Job ended so.
    pub fn is_of(self, job: &Job) -> bool
        ensures { result ≡ ends self job.now }
    {
        match self {
            Ending::Success => matches!(job.outcome, Some(Outcome::Complete(_))),
            Ending::Failure => matches!(job.outcome, Some(Outcome::Failed)),
        }
    }

    fn is_ended(self, cron: &ClusterCron, job: &Job) -> bool
        ensures { result ≡ is_ended self cron.now job.now }
    {
        let controls = cron.controls(job);
        controls && self.is_of(job)
    }

    /// How many of the Jobs are the CronJob's and ended so.
    pub fn count(self, cron: &ClusterCron, jobs: &[Shared<Job>]) -> usize
        ensures { result ≡ ended_count self cron.now jobs.now }
    {
        let mut count = 0;
        for job in jobs {
            if self.is_ended(cron, job.get()) {
                count += 1;
            }
        }
        count
    }
}
