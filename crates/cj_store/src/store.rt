ghost use Rattle.std.specs.Prelude.{◌≡◌, ◌≤◌, ◌↔◌, IsTrue, IfOk, IfErr, IfSome, option_copied};
ghost use Rattle.std.specs.FinMap as map;
ghost use Rattle.cj_base.specs.declared.refusal.Refusal.TheVariants.{OutOfMemory};
ghost use Rattle.cj_store.specs.Content.{HasRoom, nothing, IsSound};

use cj_table::{Jobs, Table};
use cj_types::{CronJob, Job, Key, Listing, Refusal, Shared, Version};
use std::alloc::Global;
use std::marker::Model;

/// The current objects of both kinds by key, the count of writes and the count of creations.
pub struct Store {
    pub(crate) crons: Table<Shared<CronJob>>,
    pub(crate) jobs: Jobs,
    pub(crate) writes: u64,
    pub(crate) creations: u64,
}

impl Drop for Store {
    fn drop(self) {
        let Store {
            crons,
            jobs,
            writes: _,
            creations: _,
        } = self;
        drop(crons);
        drop(jobs);
    }
}

impl Model for Store {
    ghost use Rattle.cj_store.specs.Content.{Content, coded_content, IsSound};

    ghost Value = { Content };

    ghost coded = { coded_content };

    ghost view = { λ s. record {
      crons = s.crons;
      jobs = s.jobs;
      version = s.writes;
      uids = s.creations;
    } };

    ghost invariant = { λ s. IsSound (record {
      crons = s.crons;
      jobs = s.jobs;
      version = s.writes;
      uids = s.creations;
    }) };
}

impl Store {
    /// The most writes that a store makes, 2^40.
    pub const MOST_WRITES: u64 = 1_099_511_627_776;

    /// An empty store.
    pub fn new(alloc: Global) -> Store
        ensures { result ≡ nothing }
    {
        Store {
            crons: Table::new(alloc),
            jobs: Jobs::new(alloc),
            writes: 0,
            creations: 0,
        }
    }

    /// Whether another write is possible: fewer than 2^40 were made.
    pub fn has_room(&self) -> bool
        ensures { IsTrue result ↔ HasRoom self.now }
    {
        self.writes < Self::MOST_WRITES
    }

    /// The version of the last write, 0 before the first.
    pub fn version(&self) -> Version
        ensures value { result ≡ self.now.version }
        ensures sound { IsSound self.now }
    {
        Version::new(self.writes)
    }

    /// The CronJob at the key.
    pub fn get_cron(&self, key: &Key) -> Option<&Shared<CronJob>>
        ensures value { option_copied result ≡ map.get self.now.crons key.now }
        ensures keyed { IfSome result (λ c. c.now.key ≡ key.now) }
        ensures dated { IfSome result (λ c. c.now.meta.generation ≤ self.now.version) }
    {
        self.crons.get(key)
    }

    /// The CronJobs in the order of their keys, as shared values.
    pub fn list_crons(&self, alloc: Global) -> Result<Listing<Shared<CronJob>>, Refusal>
        ensures ok { IfOk result (λ l. l ≡ map.values self.now.crons) }
        ensures err { IfErr result (λ e. e ≡ OutOfMemory) }
    {
        Listing::new(alloc, self.crons.list(alloc)?)
    }

    /// The Job at the key.
    pub fn get_job(&self, key: &Key) -> Option<&Shared<Job>>
        ensures value { option_copied result ≡ map.get self.now.jobs key.now }
        ensures keyed { IfSome result (λ j. j.now.key ≡ key.now) }
        ensures dated { IfSome result (λ j. j.now.meta.generation ≤ self.now.version) }
    {
        self.jobs.get(key)
    }

    /// The Jobs in the order of their keys, as shared values.
    pub fn list_jobs(&self, alloc: Global) -> Result<Listing<Shared<Job>>, Refusal>
        ensures ok { IfOk result (λ l. l ≡ map.values self.now.jobs) }
        ensures err { IfErr result (λ e. e ≡ OutOfMemory) }
    {
        self.jobs.list(alloc)
    }
}
