ghost use Rattle.std.specs.Prelude.{◌≡◌, [], IfOk, IfErr};
ghost use Rattle.std.specs.Option.{option_copied};
ghost use Rattle.cj_base.specs.declared.refusal.Refusal.TheVariants.{OutOfMemory};
ghost use Rattle.cj_fence.specs.Tables.{find};
ghost use Rattle.cj_fence.specs.Objects.{look};
ghost use Rattle.cj_fence.specs.Server.{says, puts_cron, puts_job, create, claim, tidy, start, mark, delete, delete_where, expire_where, served, written};

use crate::texts::{has_name, is_same};
use crate::writing::{
    cron_claimed, cron_put, cron_tidied, job_made, job_marked, job_put, job_released, takes,
};
use crate::{Answer, Call, Claim, Cron, Job, Ref, Stamp, Table, Tidy, Write};
use cj_base::{Refusal, Text, TryCopy};
use std::alloc::Global;

/// What the API server keeps of CronJobs and Jobs.
#[derive(Drop)]
pub struct Cluster {
    pub crons: Table<Cron>,
    pub jobs: Table<Job>,
}

/// What a call is answered, and what the server keeps after it.
#[derive(Drop)]
pub struct Served {
    pub answer: Answer,
    pub cluster: Cluster,
}

impl Cluster {
    /// No object.
    pub fn new(alloc: Global) -> Cluster
        ensures crons { result.crons ≡ [] }
        ensures jobs { result.jobs ≡ [] }
    {
        Cluster {
            crons: Table::new(alloc),
            jobs: Table::new(alloc),
        }
    }

    /// What a controller's call is answered and what it leaves, where a write gets this stamp.
    pub fn serve(&self, alloc: Global, stamp: &Stamp, call: &Call) -> Result<Served, Refusal>
        ensures ok { IfOk result (λ r. r ≡ served self.now stamp.now call.now) }
        ensures err { IfErr result (λ e. e ≡ OutOfMemory) }
    {
        match call {
            Call::GetCron(name) => self.get_cron(alloc, name),
            Call::CacheCron(name) => self.get_cron(alloc, name),
            Call::GetJob(name) => self.get_job(alloc, name),
            Call::CacheJob(name) => self.get_job(alloc, name),
            Call::ListJobs => self.list_jobs(alloc),
            Call::Create(name, job) => self.create(alloc, stamp, name, job),
            Call::Claim(claim) => self.claim(alloc, stamp, claim),
            Call::Tidy(tidy) => self.tidy(alloc, stamp, tidy),
            Call::Start(job) => self.start(alloc, stamp, job),
            Call::Delete(job) => self.delete(alloc, stamp, job),
            Call::Expire(job, version, _now) => self.expire(alloc, stamp, job, version),
        }
    }

    /// What somebody else's write leaves, where it gets this stamp.
    pub fn write(&self, alloc: Global, stamp: &Stamp, write: &Write) -> Result<Cluster, Refusal>
        ensures ok { IfOk result (λ s. s ≡ written self.now stamp.now write.now) }
        ensures err { IfErr result (λ e. e ≡ OutOfMemory) }
    {
        match write {
            Write::PutCron(name, cron) => {
                let cron = cron_put(alloc, stamp, cron, self.crons.find(name))?;
                let crons = self.crons.put(alloc, name, cron)?;
                with_crons(alloc, self, crons)
            }
            Write::DropCron(name) => {
                let crons = self.crons.without(alloc, name)?;
                with_crons(alloc, self, crons)
            }
            Write::PutJob(name, job) => {
                if !has_name(name) {
                    return self.try_copy(alloc);
                }
                let job = job_put(alloc, stamp, job, self.jobs.find(name))?;
                let jobs = self.jobs.put(alloc, name, job)?;
                with_jobs(alloc, self, jobs)
            }
            Write::DropJob(name) => {
                let jobs = self.jobs.without(alloc, name)?;
                with_jobs(alloc, self, jobs)
            }
        }
    }

    fn says(&self, alloc: Global, answer: Answer) -> Result<Served, Refusal>
        ensures ok { IfOk result (λ r. r ≡ says self.now answer) }
        ensures err { IfErr result (λ e. e ≡ OutOfMemory) }
    {
        let cluster = self.try_copy(alloc)?;
        Ok(Served { answer, cluster })
    }

    fn puts_cron(
        &self,
        alloc: Global,
        answer: Answer,
        name: &Text,
        cron: Cron,
    ) -> Result<Served, Refusal>
        ensures ok { IfOk result (λ r. r ≡ puts_cron self.now answer name.now cron) }
        ensures err { IfErr result (λ e. e ≡ OutOfMemory) }
    {
        let crons = self.crons.put(alloc, name, cron)?;
        let cluster = with_crons(alloc, self, crons)?;
        Ok(Served { answer, cluster })
    }

    fn puts_job(
        &self,
        alloc: Global,
        answer: Answer,
        name: &Text,
        job: Job,
    ) -> Result<Served, Refusal>
        ensures ok { IfOk result (λ r. r ≡ puts_job self.now answer name.now job) }
        ensures err { IfErr result (λ e. e ≡ OutOfMemory) }
    {
        let jobs = self.jobs.put(alloc, name, job)?;
        let cluster = with_jobs(alloc, self, jobs)?;
        Ok(Served { answer, cluster })
    }

    fn get_cron(&self, alloc: Global, name: &Text) -> Result<Served, Refusal>
        ensures ok { IfOk result (λ r.
            r ≡ says self.now (Answer.Cron (find name.now self.now.crons))) }
        ensures err { IfErr result (λ e. e ≡ OutOfMemory) }
    {
        match self.crons.find(name) {
            Some(cron) => {
                let found = cron.try_copy(alloc)?;
                self.says(alloc, Answer::Cron(Some(found)))
            }
            None => self.says(alloc, Answer::Cron(None)),
        }
    }

    fn get_job(&self, alloc: Global, name: &Text) -> Result<Served, Refusal>
        ensures ok { IfOk result (λ r.
            r ≡ says self.now (Answer.Job (find name.now self.now.jobs))) }
        ensures err { IfErr result (λ e. e ≡ OutOfMemory) }
    {
        match self.jobs.find(name) {
            Some(job) => {
                let found = job.try_copy(alloc)?;
                self.says(alloc, Answer::Job(Some(found)))
            }
            None => self.says(alloc, Answer::Job(None)),
        }
    }

    fn list_jobs(&self, alloc: Global) -> Result<Served, Refusal>
        ensures ok { IfOk result (λ r. r ≡ says self.now (Answer.Jobs self.now.jobs)) }
        ensures err { IfErr result (λ e. e ≡ OutOfMemory) }
    {
        let jobs = self.jobs.try_copy(alloc)?;
        self.says(alloc, Answer::Jobs(jobs))
    }

    fn create(
        &self,
        alloc: Global,
        stamp: &Stamp,
        name: &Text,
        job: &Job,
    ) -> Result<Served, Refusal>
        ensures ok { IfOk result (λ r.
            r ≡ create self.now stamp.now name.now job.now (find name.now self.now.jobs)) }
        ensures err { IfErr result (λ e. e ≡ OutOfMemory) }
    {
        if self.jobs.find(name).is_some() || !has_name(name) {
            return self.says(alloc, Answer::Refused);
        }
        let made = job_made(alloc, stamp, job)?;
        let given = stamp.try_copy(alloc)?;
        self.puts_job(alloc, Answer::Created(given), name, made)
    }

    fn claim(&self, alloc: Global, stamp: &Stamp, sent: &Claim) -> Result<Served, Refusal>
        ensures ok { IfOk result (λ r.
            r ≡ claim self.now stamp.now sent.now (find sent.now.name self.now.crons)) }
        ensures err { IfErr result (λ e. e ≡ OutOfMemory) }
    {
        match self.crons.find(&sent.name) {
            Some(cron) if takes(&sent.uid, &sent.version, cron) => {
                let version = stamp.version.try_copy(alloc)?;
                let cron = cron_claimed(alloc, stamp, sent, cron)?;
                self.puts_cron(alloc, Answer::Written(version), &sent.name, cron)
            }
            _ => self.says(alloc, Answer::Refused),
        }
    }

    fn tidy(&self, alloc: Global, stamp: &Stamp, sent: &Tidy) -> Result<Served, Refusal>
        ensures ok { IfOk result (λ r.
            r ≡ tidy self.now stamp.now sent.now (find sent.now.name self.now.crons)) }
        ensures err { IfErr result (λ e. e ≡ OutOfMemory) }
    {
        match self.crons.find(&sent.name) {
            Some(cron) if takes(&sent.uid, &sent.version, cron) => {
                let version = stamp.version.try_copy(alloc)?;
                let cron = cron_tidied(alloc, stamp, sent, cron)?;
                self.puts_cron(alloc, Answer::Written(version), &sent.name, cron)
            }
            _ => self.says(alloc, Answer::Refused),
        }
    }

    fn start(&self, alloc: Global, stamp: &Stamp, job: &Ref) -> Result<Served, Refusal>
        ensures ok { IfOk result (λ r.
            r ≡ start self.now stamp.now job.now (look self.now.jobs job.now)) }
        ensures err { IfErr result (λ e. e ≡ OutOfMemory) }
    {
        match look(&self.jobs, job) {
            Some(found) if found.held => {
                let version = stamp.version.try_copy(alloc)?;
                let released = job_released(alloc, stamp, found)?;
                self.puts_job(alloc, Answer::Written(version), &job.name, released)
            }
            _ => self.says(alloc, Answer::Refused),
        }
    }

    // A Job that stands is marked to go.
    fn mark(&self, alloc: Global, stamp: &Stamp, job: &Ref, found: &Job) -> Result<Served, Refusal>
        ensures ok { IfOk result (λ r. r ≡ mark self.now stamp.now job.now found.now) }
        ensures err { IfErr result (λ e. e ≡ OutOfMemory) }
    {
        if found.deleting {
            return self.says(alloc, Answer::Deleted);
        }
        let marked = job_marked(alloc, stamp, found)?;
        self.puts_job(alloc, Answer::Deleted, &job.name, marked)
    }

    // A Job that stands goes, or is marked.
    fn take_away(
        &self,
        alloc: Global,
        stamp: &Stamp,
        job: &Ref,
        found: &Job,
    ) -> Result<Served, Refusal>
        ensures ok { IfOk result (λ r. r ≡ delete self.now stamp.now job.now found.now) }
        ensures err { IfErr result (λ e. e ≡ OutOfMemory) }
    {
        if found.pinned {
            return self.mark(alloc, stamp, job, found);
        }
        let jobs = self.jobs.without(alloc, &job.name)?;
        let cluster = with_jobs(alloc, self, jobs)?;
        Ok(Served {
            answer: Answer::Deleted,
            cluster,
        })
    }

    fn delete(&self, alloc: Global, stamp: &Stamp, job: &Ref) -> Result<Served, Refusal>
        ensures ok { IfOk result (λ r.
            r ≡ delete_where self.now stamp.now job.now (look self.now.jobs job.now)) }
        ensures err { IfErr result (λ e. e ≡ OutOfMemory) }
    {
        match look(&self.jobs, job) {
            Some(found) => self.take_away(alloc, stamp, job, found),
            None => self.says(alloc, Answer::Refused),
        }
    }

    fn expire(
        &self,
        alloc: Global,
        stamp: &Stamp,
        job: &Ref,
        version: &Text,
    ) -> Result<Served, Refusal>
        ensures ok { IfOk result (λ r.
            r ≡ expire_where self.now stamp.now job.now version.now (look self.now.jobs job.now)) }
        ensures err { IfErr result (λ e. e ≡ OutOfMemory) }
    {
        match look(&self.jobs, job) {
            Some(found) if is_same(&found.version, version) => {
                self.take_away(alloc, stamp, job, found)
            }
            _ => self.says(alloc, Answer::Refused),
        }
    }
}

impl TryCopy for Cluster {
    fn try_copy(&self, alloc: Global) -> Result<Cluster, Refusal> {
        Ok(Cluster {
            crons: self.crons.try_copy(alloc)?,
            jobs: self.jobs.try_copy(alloc)?,
        })
    }
}

// The cluster with other CronJobs.
fn with_crons(alloc: Global, cluster: &Cluster, crons: Table<Cron>) -> Result<Cluster, Refusal>
    ensures ok { IfOk result (λ s. s ≡ record cluster.now { crons = crons }) }
    ensures err { IfErr result (λ e. e ≡ OutOfMemory) }
{
    let jobs = cluster.jobs.try_copy(alloc)?;
    Ok(Cluster { crons, jobs })
}

// The cluster with other Jobs.
fn with_jobs(alloc: Global, cluster: &Cluster, jobs: Table<Job>) -> Result<Cluster, Refusal>
    ensures ok { IfOk result (λ s. s ≡ record cluster.now { jobs = jobs }) }
    ensures err { IfErr result (λ e. e ≡ OutOfMemory) }
{
    let crons = cluster.crons.try_copy(alloc)?;
    Ok(Cluster { crons, jobs })
}

// The Job of a reference, if it stands.
fn look<'a>(jobs: &'a Table<Job>, job: &Ref) -> Option<&'a Job>
    ensures { option_copied result ≡ look jobs.now job.now }
{
    match jobs.find(&job.name) {
        Some(found) if is_same(&found.uid, &job.uid) => Some(found),
        _ => None,
    }
}
