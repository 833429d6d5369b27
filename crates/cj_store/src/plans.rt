ghost use Rattle.std.specs.Prelude.{◌≡◌, ◌≢◌, IfOk, IfErr, Ok, Err};
ghost use Rattle.cj_base.specs.declared.refusal.Refusal.TheVariants.{OutOfMemory};
ghost use Rattle.cj_store.specs.Content.{HasRoom};
ghost use Rattle.cj_store.specs.Crons.{cron_created, cron_updated, status_set, cron_deleted};
ghost use Rattle.cj_store.specs.Jobs.{job_created, job_made, job_updated, job_deleted, job_ended};
ghost use Rattle.cj_store.specs.Change.{map_ok, IsFor, cron_added, cron_modified, cron_gone, job_added, job_modified, job_gone};

use crate::{Change, Store};
use cj_types::{
    CronJobDraft, CronStatus, Event, JobDraft, Key, Object, Outcome, Refusal, Seconds, Shared, Uid,
    Version,
};
use std::alloc::Global;

/// Each write as a plan: the change that the call of the same name would make, or its refusal. The
/// store changes only when the change is committed.
impl Store {
    /// The change of `create_cron`.
    pub fn plan_create_cron(
        &self,
        alloc: Global,
        draft: CronJobDraft,
        now: Seconds,
    ) -> Result<Change, Refusal>
        requires { HasRoom self.now }
        ensures ok { IfOk result (λ change. map_ok cron_added (cron_created self.now draft now)
            ≡ Ok change.event) }
        ensures err { IfErr result (λ e. e ≢ OutOfMemory →
            cron_created self.now draft now ≡ Err e) }
        ensures planned { IfOk result (λ change. IsFor self.now change) }
    {
        let cron = self.cron_created(alloc, draft, now)?;
        let cron = Shared::new(alloc, cron)?;
        Change::of(alloc, self, Event::Added(Object::Cron(cron)))
    }

    /// The change of `update_cron`.
    pub fn plan_update_cron(&self, alloc: Global, draft: CronJobDraft) -> Result<Change, Refusal>
        requires { HasRoom self.now }
        ensures ok { IfOk result (λ change. map_ok cron_modified (cron_updated self.now draft)
            ≡ Ok change.event) }
        ensures err { IfErr result (λ e. e ≢ OutOfMemory → cron_updated self.now draft ≡ Err e) }
        ensures planned { IfOk result (λ change. IsFor self.now change) }
    {
        let cron = self.cron_updated(alloc, draft)?;
        let cron = Shared::new(alloc, cron)?;
        Change::of(alloc, self, Event::Modified(Object::Cron(cron)))
    }

    /// The change of `set_status`.
    pub fn plan_set_status(
        &self,
        alloc: Global,
        key: &Key,
        uid: Uid,
        version: Version,
        status: CronStatus,
    ) -> Result<Change, Refusal>
        requires { HasRoom self.now }
        ensures ok { IfOk result (λ change. map_ok cron_modified
            (status_set self.now key.now uid version status) ≡ Ok change.event) }
        ensures err { IfErr result (λ e. e ≢ OutOfMemory →
            status_set self.now key.now uid version status ≡ Err e) }
        ensures planned { IfOk result (λ change. IsFor self.now change) }
    {
        let cron = self.status_set(alloc, key, uid, version, status)?;
        let cron = Shared::new(alloc, cron)?;
        Change::of(alloc, self, Event::Modified(Object::Cron(cron)))
    }

    /// The change of `delete_cron`.
    pub fn plan_delete_cron(&self, alloc: Global, key: &Key) -> Result<Change, Refusal>
        requires { HasRoom self.now }
        ensures ok { IfOk result (λ change. map_ok cron_gone (cron_deleted self.now key.now)
            ≡ Ok change.event) }
        ensures err { IfErr result (λ e. e ≢ OutOfMemory → cron_deleted self.now key.now ≡ Err e) }
        ensures planned { IfOk result (λ change. IsFor self.now change) }
    {
        let cron = self.cron_deleted(alloc, key)?;
        let cron = Shared::new(alloc, cron)?;
        Change::of(alloc, self, Event::Deleted(Object::Cron(cron)))
    }

    /// The change of `create_job`.
    pub fn plan_create_job(
        &self,
        alloc: Global,
        draft: JobDraft,
        now: Seconds,
    ) -> Result<Change, Refusal>
        requires { HasRoom self.now }
        ensures ok { IfOk result (λ change. map_ok job_added (job_created self.now draft now)
            ≡ Ok change.event) }
        ensures err { IfErr result (λ e. e ≢ OutOfMemory → job_created self.now draft now ≡ Err e) }
        ensures planned { IfOk result (λ change. IsFor self.now change) }
    {
        let job = self.job_created(alloc, draft, now)?;
        let job = Shared::new(alloc, job)?;
        Change::of(alloc, self, Event::Added(Object::Job(job)))
    }

    /// The change of `make_job`.
    pub fn plan_make_job(
        &self,
        alloc: Global,
        draft: JobDraft,
        now: Seconds,
    ) -> Result<Change, Refusal>
        requires { HasRoom self.now }
        ensures ok { IfOk result (λ change. map_ok job_added (job_made self.now draft now)
            ≡ Ok change.event) }
        ensures err { IfErr result (λ e. e ≢ OutOfMemory → job_made self.now draft now ≡ Err e) }
        ensures planned { IfOk result (λ change. IsFor self.now change) }
    {
        let job = self.job_made(draft, now)?;
        let job = Shared::new(alloc, job)?;
        Change::of(alloc, self, Event::Added(Object::Job(job)))
    }

    /// The change of `update_job`.
    pub fn plan_update_job(&self, alloc: Global, draft: JobDraft) -> Result<Change, Refusal>
        requires { HasRoom self.now }
        ensures ok { IfOk result (λ change. map_ok job_modified (job_updated self.now draft)
            ≡ Ok change.event) }
        ensures err { IfErr result (λ e. e ≢ OutOfMemory → job_updated self.now draft ≡ Err e) }
        ensures planned { IfOk result (λ change. IsFor self.now change) }
    {
        let job = self.job_updated(alloc, draft)?;
        let job = Shared::new(alloc, job)?;
        Change::of(alloc, self, Event::Modified(Object::Job(job)))
    }

    /// The change of `delete_job`.
    pub fn plan_delete_job(
        &self,
        alloc: Global,
        key: &Key,
        uid: Option<Uid>,
    ) -> Result<Change, Refusal>
        requires { HasRoom self.now }
        ensures ok { IfOk result (λ change. map_ok job_gone (job_deleted self.now key.now uid)
            ≡ Ok change.event) }
        ensures err { IfErr result (λ e. e ≢ OutOfMemory →
            job_deleted self.now key.now uid ≡ Err e) }
        ensures planned { IfOk result (λ change. IsFor self.now change) }
    {
        let job = self.job_deleted(alloc, key, uid)?;
        let job = Shared::new(alloc, job)?;
        Change::of(alloc, self, Event::Deleted(Object::Job(job)))
    }

    /// The change of `end_job`.
    pub fn plan_end_job(
        &self,
        alloc: Global,
        key: &Key,
        uid: Uid,
        outcome: Outcome,
        now: Seconds,
    ) -> Result<Change, Refusal>
        requires { HasRoom self.now }
        ensures ok { IfOk result (λ change. map_ok job_modified
            (job_ended self.now key.now uid outcome now) ≡ Ok change.event) }
        ensures err { IfErr result (λ e. e ≢ OutOfMemory →
            job_ended self.now key.now uid outcome now ≡ Err e) }
        ensures planned { IfOk result (λ change. IsFor self.now change) }
    {
        let job = self.job_ended(alloc, key, uid, outcome, now)?;
        let job = Shared::new(alloc, job)?;
        Change::of(alloc, self, Event::Modified(Object::Job(job)))
    }
}
