// What lists and watches told of a cluster.
ghost use Rattle.std.specs.Prelude.{◌≡◌, IfErr, option_map};
ghost use Rattle.cj_base.specs.declared.refusal.Refusal.TheVariants.{OutOfMemory};
ghost use Rattle.cj_machine.specs.Mirror.{no_rows, text_of};

mod by_cron;
mod entry;
mod kept;
mod orphan;
mod own_keys;
mod owner;
mod shelf;

use cj_base::Refusal;
use cj_types::Key;
pub(crate) use entry::Entry;
pub(crate) use kept::{Kept, kept_of};
pub(crate) use orphan::is_orphan;
pub(crate) use owner::{cron_of, key_in};
pub(crate) use shelf::Shelf;
use std::alloc::Global;

/// What lists and watches told of a cluster: each CronJob and each Job, as JSON text, by its key.
///
/// A text has what a sync reads of the object. Of a CronJob: its spec and status, and of its
/// metadata what tells it from others; one that is larger than 64 KiB is kept without its
/// jobTemplate. Of a Job: its marks, its controller, and of its status how it ended.
pub struct Mirror {
    pub(crate) crons: Shelf,
    pub(crate) jobs: Shelf,
}

impl Drop for Mirror {
    fn drop(self) {
        let Mirror { crons, jobs } = self;
        drop(crons);
        drop(jobs);
    }
}

impl Mirror {
    pub(crate) fn new(alloc: Global) -> Mirror
        ensures crons { result.crons ≡ no_rows }
        ensures jobs { result.jobs ≡ no_rows }
    {
        Mirror {
            crons: Shelf::new(alloc),
            jobs: Shelf::new(alloc),
        }
    }

    /// The text of the CronJob.
    pub fn cron(&self, key: &Key) -> Option<&str>
        ensures { option_map (λ s. s.now) result ≡ text_of self.now.crons key.now }
    {
        self.crons.text(key)
    }

    /// Whether the text of the CronJob lacks its jobTemplate, since it is too large.
    pub fn is_cut(&self, key: &Key) -> bool {
        self.crons.is_cut(key)
    }

    /// The text of the Job.
    pub fn job(&self, key: &Key) -> Option<&str>
        ensures { option_map (λ s. s.now) result ≡ text_of self.now.jobs key.now }
    {
        self.jobs.text(key)
    }

    /// The Jobs of the key's namespace whose controller reference names a CronJob of the group
    /// `batch` and of the key's name, whatever its version and its uid, in the order of their keys.
    ///
    /// # Errors
    ///
    /// `OutOfMemory` alone.
    pub fn jobs_of(&self, alloc: Global, cron: &Key) -> Result<Vec<Key>, Refusal>
        ensures err { IfErr result (λ e. e ≡ OutOfMemory) }
    {
        self.jobs.of_cron(alloc, cron)
    }

    /// How many CronJobs there are.
    pub fn cron_count(&self) -> u64 {
        self.crons.count()
    }

    /// How many Jobs there are.
    pub fn job_count(&self) -> u64 {
        self.jobs.count()
    }
}
