ghost use Rattle.std.specs.Prelude.{◌≡◌, None, IfOk, IfErr, IfSome, OnOk, OnErr, option_copied};
ghost use Rattle.std.specs.FinMap as map;
ghost use Rattle.cj_base.specs.declared.refusal.Refusal.TheVariants.{OutOfMemory};
ghost use Rattle.cj_table.specs.jobs.Owners.{owned_by};
ghost use Rattle.cj_cluster.specs.Content.{nothing, with_cron, with_job};

use crate::cron::ClusterCron;
use crate::times::JobTimes;
use cj_base::both;
use cj_table::{Jobs, Table};
use cj_types::{Job, Key, Listing, Refusal, Shared, TryCopy};
use std::alloc::Global;
use std::marker::Model;

/// The CronJobs and the Jobs of a cluster, each at its key. Contracts see the objects by key.
pub struct Cluster {
    crons: Table<Shared<ClusterCron>>,
    jobs: Jobs,
    times: Table<Shared<JobTimes>>,
}

impl Drop for Cluster {
    fn drop(self) {
        let Cluster { crons, jobs, times } = self;
        drop(crons);
        drop(jobs);
        drop(times);
    }
}

impl Model for Cluster {
    ghost use Rattle.cj_cluster.specs.Content.{Content, coded_content, IsSound};

    ghost Value = { Content };

    ghost coded = { coded_content };

    ghost view = { λ c. record { crons = c.crons; jobs = c.jobs; times = c.times } };

    ghost invariant = { λ c. IsSound (record { crons = c.crons; jobs = c.jobs; times = c.times }) };
}

impl Cluster {
    ghost use Rattle.cj_cluster.specs.Content.{IsSound};

    /// No object.
    pub fn new(alloc: Global) -> Cluster
        ensures { result ≡ nothing }
    {
        Cluster {
            crons: Table::new(alloc),
            jobs: Jobs::new(alloc),
            times: Table::new(alloc),
        }
    }

    /// The CronJob at the key.
    pub fn cron(&self, key: &Key) -> Option<&Shared<ClusterCron>>
        ensures value { option_copied result ≡ map.get self.now.crons key.now }
        ensures sound { IsSound self.now }
    {
        self.crons.get(key)
    }

    /// The Job at the key.
    pub fn job(&self, key: &Key) -> Option<&Shared<Job>>
        ensures value { option_copied result ≡ map.get self.now.jobs key.now }
        ensures keyed { IfSome result (λ j. j.now.key ≡ key.now) }
    {
        self.jobs.get(key)
    }

    /// The times of the Job at the key.
    pub fn times(&self, key: &Key) -> Option<&Shared<JobTimes>>
        ensures value { option_copied result ≡ map.get self.now.times key.now }
        ensures sound { IsSound self.now }
    {
        self.times.get(key)
    }

    /// The CronJobs in the order of their keys.
    pub fn crons(&self, alloc: Global) -> Result<Listing<Shared<ClusterCron>>, Refusal>
        ensures ok { IfOk result (λ l. l ≡ map.values self.now.crons) }
        ensures sound { IsSound self.now }
        ensures memory { IfErr result (λ e. e ≡ OutOfMemory) }
    {
        Listing::new(alloc, self.crons.list(alloc)?)
    }

    /// The Jobs in the order of their keys.
    pub fn jobs(&self, alloc: Global) -> Result<Listing<Shared<Job>>, Refusal>
        ensures ok { IfOk result (λ l. l ≡ map.values self.now.jobs) }
        ensures memory { IfErr result (λ e. e ≡ OutOfMemory) }
    {
        self.jobs.list(alloc)
    }

    /// The Jobs whose controller names a CronJob at the key, whatever its uid, in the order of
    /// their names.
    pub fn jobs_naming(&self, alloc: Global, key: &Key) -> Result<Listing<Shared<Job>>, Refusal>
        ensures ok { IfOk result (λ l. l ≡ owned_by self.now.jobs key.now) }
        ensures memory { IfErr result (λ e. e ≡ OutOfMemory) }
    {
        self.jobs.owned_by(alloc, key)
    }

    /// One CronJob more; unchanged where there is no memory.
    pub fn add_cron(&mut self, alloc: Global, cron: ClusterCron) -> Result<(), Refusal>
        requires { map.get self.old.crons cron.cron.key ≡ None }
        ensures ok { OnOk result (self.new ≡ with_cron cron self.old) }
        ensures err { OnErr result (self.new ≡ self.old) }
        ensures memory { IfErr result (λ e. e ≡ OutOfMemory) }
    {
        let key = cron.cron.key.key().try_copy(alloc)?;
        let cron = Shared::new(alloc, cron)?;
        self.crons.insert(key, cron)?;
        Ok(())
    }

    /// One Job more, with its times; unchanged where there is no memory.
    pub fn add_job(
        &mut self,
        alloc: Global,
        job: Shared<Job>,
        times: Shared<JobTimes>,
    ) -> Result<(), Refusal>
        requires { map.get self.old.jobs job.key ≡ None }
        ensures ok { OnOk result (self.new ≡ with_job job times self.old) }
        ensures err { OnErr result (self.new ≡ self.old) }
        ensures memory { IfErr result (λ e. e ≡ OutOfMemory) }
    {
        let (key, undone) = both(job.key.try_copy(alloc), job.key.try_copy(alloc))?;
        self.times.insert(key, times)?;
        match self.jobs.add(alloc, job) {
            Ok(()) => Ok(()),
            Err(refusal) => {
                self.times.remove(&undone);
                Err(refusal)
            }
        }
    }
}
