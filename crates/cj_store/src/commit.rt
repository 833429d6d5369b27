ghost use Rattle.std.specs.Prelude.{◌≡◌, ◌+◌, IfErr, OnOk, OnErr};
ghost use Rattle.cj_base.specs.declared.refusal.Refusal.TheVariants.{OutOfMemory};
ghost use Rattle.cj_store.specs.Content.{HasRoom};
ghost use Rattle.cj_store.specs.Change.{after, IsFor, IsNext, cron_added, cron_modified, cron_gone, job_added, job_modified, job_gone};

use crate::{Change, Store};
use cj_types::{CronJob, Event, Job, Key, Object, Refusal, Shared, TryCopy};
use std::alloc::Global;

fn key_of(cron: &Shared<CronJob>) -> &Key
    ensures { result.now ≡ cron.now.key }
{
    cron.key.key()
}

impl Store {
    /// Makes a planned write, on the content that it was planned on and no other. Unchanged where
    /// there is no memory.
    pub fn commit(&mut self, alloc: Global, change: Change) -> Result<(), Refusal>
        requires room { HasRoom self.old }
        requires planned { IsFor self.old change }
        ensures ok { OnOk result (self.new ≡ after self.old change.event) }
        ensures err { OnErr result (self.new ≡ self.old) }
        ensures memory { IfErr result (λ e. e ≡ OutOfMemory) }
    {
        self.apply(alloc, change.into_event())
    }

    // Makes the write of the event.
    pub(crate) fn apply(&mut self, alloc: Global, event: Event) -> Result<(), Refusal>
        requires room { HasRoom self.old }
        requires planned { IsNext self.old event }
        ensures ok { OnOk result (self.new ≡ after self.old event) }
        ensures err { OnErr result (self.new ≡ self.old) }
        ensures memory { IfErr result (λ e. e ≡ OutOfMemory) }
    {
        match event {
            Event::Added(Object::Cron(cron)) => self.add_cron(alloc, cron),
            Event::Modified(Object::Cron(cron)) => self.put_cron(alloc, cron),
            Event::Deleted(Object::Cron(cron)) => {
                self.remove_cron(cron);
                Ok(())
            }
            Event::Added(Object::Job(job)) => self.add_job(alloc, job),
            Event::Modified(Object::Job(job)) => {
                self.put_job(job);
                Ok(())
            }
            Event::Deleted(Object::Job(job)) => self.remove_job(alloc, job),
        }
    }

    fn put_cron(&mut self, alloc: Global, cron: Shared<CronJob>) -> Result<(), Refusal>
        requires room { HasRoom self.old }
        requires planned { IsNext self.old (cron_modified cron) }
        ensures ok { OnOk result (self.new ≡ after self.old (cron_modified cron)) }
        ensures err { OnErr result (self.new ≡ self.old) }
        ensures memory { IfErr result (λ e. e ≡ OutOfMemory) }
    {
        let key = key_of(&cron).try_copy(alloc)?;
        self.crons.insert(key, cron)?;
        self.writes += 1;
        Ok(())
    }

    fn add_cron(&mut self, alloc: Global, cron: Shared<CronJob>) -> Result<(), Refusal>
        requires room { HasRoom self.old }
        requires planned { IsNext self.old (cron_added cron) }
        ensures ok { OnOk result (self.new ≡ after self.old (cron_added cron)) }
        ensures err { OnErr result (self.new ≡ self.old) }
        ensures memory { IfErr result (λ e. e ≡ OutOfMemory) }
    {
        let key = key_of(&cron).try_copy(alloc)?;
        self.crons.insert(key, cron)?;
        self.writes += 1;
        self.creations += 1;
        Ok(())
    }

    fn remove_cron(&mut self, cron: Shared<CronJob>)
        requires { HasRoom self.old }
        ensures { self.new ≡ after self.old (cron_gone cron) }
    {
        self.crons.remove(key_of(&cron));
        self.writes += 1;
    }

    fn put_job(&mut self, job: Shared<Job>)
        requires room { HasRoom self.old }
        requires planned { IsNext self.old (job_modified job) }
        ensures { self.new ≡ after self.old (job_modified job) }
    {
        self.jobs.replace(job);
        self.writes += 1;
    }

    fn add_job(&mut self, alloc: Global, job: Shared<Job>) -> Result<(), Refusal>
        requires room { HasRoom self.old }
        requires planned { IsNext self.old (job_added job) }
        ensures ok { OnOk result (self.new ≡ after self.old (job_added job)) }
        ensures err { OnErr result (self.new ≡ self.old) }
        ensures memory { IfErr result (λ e. e ≡ OutOfMemory) }
    {
        self.jobs.add(alloc, job)?;
        self.writes += 1;
        self.creations += 1;
        Ok(())
    }

    fn remove_job(&mut self, alloc: Global, job: Shared<Job>) -> Result<(), Refusal>
        requires room { HasRoom self.old }
        requires planned { IsNext self.old (job_gone job) }
        ensures ok { OnOk result (self.new ≡ after self.old (job_gone job)) }
        ensures err { OnErr result (self.new ≡ self.old) }
        ensures memory { IfErr result (λ e. e ≡ OutOfMemory) }
    {
        self.jobs.remove(alloc, &job.key)?;
        self.writes += 1;
        Ok(())
    }
}
