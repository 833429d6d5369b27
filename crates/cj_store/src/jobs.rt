ghost use Rattle.std.specs.Prelude.{◌≡◌, ◌≢◌, IfOk, IfErr, OnOk, OnErr, Ok, Err};
ghost use Rattle.cj_base.specs.declared.refusal.Refusal.TheVariants.{OutOfMemory};
ghost use Rattle.cj_store.specs.Content.{HasRoom};
ghost use Rattle.cj_store.specs.Jobs.{job_created, job_made, job_updated, job_deleted, job_ended};
ghost use Rattle.cj_store.specs.Change.{after, map_ok, job_added, job_modified, job_gone};

use crate::Store;
use crate::placed::placed;
use cj_types::{
    Event, Job, JobDraft, Key, Object, Outcome, Refusal, Seconds, Shared, Uid, Version,
};
use std::alloc::Global;

fn version_of(job: &Shared<Job>) -> Version
    ensures { result ≡ job.now.meta.version }
{
    job.meta.version
}

impl Store {
    /// Creates a Job for a user, and answers it. Refused, in this order: `NotPermitted` with a
    /// controller reference, `Invalid` with a version in the draft, `AlreadyExists`.
    pub fn create_job(
        &mut self,
        alloc: Global,
        draft: JobDraft,
        now: Seconds,
    ) -> Result<Shared<Job>, Refusal>
        requires { HasRoom self.old }
        ensures ok { IfOk result (λ j. job_created self.old draft now ≡ Ok j) }
        ensures err { IfErr result (λ e. e ≢ OutOfMemory → job_created self.old draft now ≡ Err e) }
        ensures after { IfOk result (λ j. self.new ≡ after self.old (job_added j)) }
        ensures unchanged { OnErr result (self.new ≡ self.old) }
    {
        let (job, answer) = placed(alloc, self.job_created(alloc, draft, now))?;
        self.apply(alloc, Event::Added(Object::Job(job)))?;
        Ok(answer)
    }

    /// Creates a Job for a controller, and answers it. Refused: `AlreadyExists`.
    pub fn make_job(
        &mut self,
        alloc: Global,
        draft: JobDraft,
        now: Seconds,
    ) -> Result<Shared<Job>, Refusal>
        requires { HasRoom self.old }
        ensures ok { IfOk result (λ j. job_made self.old draft now ≡ Ok j) }
        ensures err { IfErr result (λ e. e ≢ OutOfMemory → job_made self.old draft now ≡ Err e) }
        ensures after { IfOk result (λ j. self.new ≡ after self.old (job_added j)) }
        ensures unchanged { OnErr result (self.new ≡ self.old) }
    {
        let (job, answer) = placed(alloc, self.job_made(draft, now))?;
        self.apply(alloc, Event::Added(Object::Job(job)))?;
        Ok(answer)
    }

    /// Replaces labels, annotations and spec of a Job, and answers it. Refused: `NotFound`,
    /// `Conflict` where the draft gives a version or uid that isn't the current one, `NotPermitted`
    /// where its owner references differ.
    pub fn update_job(&mut self, alloc: Global, draft: JobDraft) -> Result<Shared<Job>, Refusal>
        requires { HasRoom self.old }
        ensures ok { IfOk result (λ j. job_updated self.old draft ≡ Ok j) }
        ensures err { IfErr result (λ e. e ≢ OutOfMemory → job_updated self.old draft ≡ Err e) }
        ensures after { IfOk result (λ j. self.new ≡ after self.old (job_modified j)) }
        ensures unchanged { OnErr result (self.new ≡ self.old) }
    {
        let (job, answer) = placed(alloc, self.job_updated(alloc, draft))?;
        self.apply(alloc, Event::Modified(Object::Job(job)))?;
        Ok(answer)
    }

    /// Deletes a Job, and answers the version of the deletion. Refused: `NotFound`, also where a
    /// uid is given and the Job at the key has another.
    pub fn delete_job(
        &mut self,
        alloc: Global,
        key: &Key,
        uid: Option<Uid>,
    ) -> Result<Version, Refusal>
        requires { HasRoom self.old }
        ensures ok { IfOk result (λ v. map_ok
            (λ j. j.meta.version) (job_deleted self.old key.now uid) ≡ Ok v) }
        ensures err { IfErr result (λ e. e ≢ OutOfMemory →
            job_deleted self.old key.now uid ≡ Err e) }
        ensures after { OnOk result (map_ok (λ j. after self.old (job_gone j))
            (job_deleted self.old key.now uid) ≡ Ok self.new) }
        ensures unchanged { OnErr result (self.new ≡ self.old) }
    {
        let job = Shared::new(alloc, self.job_deleted(alloc, key, uid)?)?;
        let version = version_of(&job);
        self.apply(alloc, Event::Deleted(Object::Job(job)))?;
        Ok(version)
    }

    /// Finishes a Job, and answers it; `Complete` gets the present moment as its completion time.
    /// Refused: `NotFound`, also where the Job at the key has another uid, and `AlreadyFinished`.
    pub fn end_job(
        &mut self,
        alloc: Global,
        key: &Key,
        uid: Uid,
        outcome: Outcome,
        now: Seconds,
    ) -> Result<Shared<Job>, Refusal>
        requires { HasRoom self.old }
        ensures ok { IfOk result (λ j. job_ended self.old key.now uid outcome now ≡ Ok j) }
        ensures err { IfErr result (λ e. e ≢ OutOfMemory →
            job_ended self.old key.now uid outcome now ≡ Err e) }
        ensures after { IfOk result (λ j. self.new ≡ after self.old (job_modified j)) }
        ensures unchanged { OnErr result (self.new ≡ self.old) }
    {
        let (job, answer) = placed(alloc, self.job_ended(alloc, key, uid, outcome, now))?;
        self.apply(alloc, Event::Modified(Object::Job(job)))?;
        Ok(answer)
    }
}
