ghost use Rattle.std.specs.Prelude.{◌≡◌, ◌≢◌, ◌≤◌, ℕ, true, false, is_some, Some, None, IfOk, IfErr, OnOk, Ok, Err};
ghost use Rattle.std.specs.FinMap as map;
ghost use Rattle.cj_types.specs.Current.{is_current};
ghost use Rattle.cj_base.specs.declared.refusal.Refusal.TheVariants.{OutOfMemory};
ghost use Rattle.cj_store.specs.Content.{HasRoom};
ghost use Rattle.cj_store.specs.Change.{IsNext, cron_added, cron_modified, cron_gone};
ghost use Rattle.cj_store.specs.Crons.{new_cron, cron_created, cron_updated, with_status, status_set, last_cron, cron_deleted};

use crate::Store;
use crate::equal::is_same_cron_spec;
use crate::meta::version_not_allowed;
use cj_base::all_three;
use cj_types::{
    CronJob, CronJobDraft, CronStatus, Key, Names, Refusal, Seconds, Shared, TryCopy, Uid, Version,
};
use std::alloc::Global;

// The CronJobs that writes would store, or the refusals of these writes. Nothing changes here.
impl Store {
    fn new_cron(&self, alloc: Global, draft: CronJobDraft, now: Seconds) -> CronJob
        requires { HasRoom self.now }
        ensures { result ≡ new_cron self.now draft now }
    {
        let CronJobDraft { key, meta, spec } = draft;
        CronJob {
            key,
            meta: self.new_meta(meta, now),
            spec,
            status: CronStatus {
                active: Names::new(alloc),
                last_schedule_time: None,
                last_successful_time: None,
            },
        }
    }

    // The name of the draft is free, and the draft gives no version.
    fn is_new_cron(&self, alloc: Global, draft: &CronJobDraft) -> Result<(), Refusal>
        ensures ok { OnOk result ((is_some draft.now.meta.version ≡ false)
            × (map.get self.now.crons draft.now.key ≡ None)) }
        ensures err { IfErr result (λ e. e ≢ OutOfMemory →
            (now : ℕ) → cron_created self.now draft.now now ≡ Err e) }
    {
        if draft.meta.version.is_some() {
            return Err(version_not_allowed(alloc));
        }
        if self.get_cron(draft.key.key()).is_some() {
            return Err(Refusal::AlreadyExists);
        }
        Ok(())
    }

    pub(crate) fn cron_created(
        &self,
        alloc: Global,
        draft: CronJobDraft,
        now: Seconds,
    ) -> Result<CronJob, Refusal>
        requires { HasRoom self.now }
        ensures ok { IfOk result (λ c. cron_created self.now draft now ≡ Ok c) }
        ensures err { IfErr result (λ e. e ≢ OutOfMemory →
            cron_created self.now draft now ≡ Err e) }
        ensures planned { IfOk result (λ c. IsNext self.now (cron_added c)) }
    {
        self.is_new_cron(alloc, &draft)?;
        Ok(self.new_cron(alloc, draft, now))
    }

    // The CronJob that the draft would update, with a copy of its status.
    fn replaced_cron(
        &self,
        alloc: Global,
        draft: &CronJobDraft,
    ) -> Result<(&Shared<CronJob>, CronStatus), Refusal>
        ensures ok { IfOk result (λ c. map.get self.now.crons draft.now.key ≡ Some c.0.now) }
        ensures status { IfOk result (λ c. c.1 ≡ c.0.now.status) }
        ensures current { IfOk result (λ c. is_current draft.now.meta c.0.now.meta ≡ true) }
        ensures keyed { IfOk result (λ c. c.0.now.key ≡ draft.now.key) }
        ensures dated { IfOk result (λ c. c.0.now.meta.generation ≤ self.now.version) }
        ensures err { IfErr result (λ e. e ≢ OutOfMemory →
            cron_updated self.now draft.now ≡ Err e) }
    {
        let Some(found) = self.get_cron(draft.key.key()) else {
            return Err(Refusal::NotFound);
        };
        if !draft.meta.is_current(alloc, &found.meta)? {
            return Err(Refusal::Conflict(found.meta.version));
        }
        let status = found.status.try_copy(alloc)?;
        Ok((found, status))
    }

    #[tactic(auto, using(crate::proofs::Kept::updated_generation, crate::proofs::Kept::cron_uid_there))]
    pub(crate) fn cron_updated(
        &self,
        alloc: Global,
        draft: CronJobDraft,
    ) -> Result<CronJob, Refusal>
        requires { HasRoom self.now }
        ensures ok { IfOk result (λ c. cron_updated self.now draft ≡ Ok c) }
        ensures err { IfErr result (λ e. e ≢ OutOfMemory → cron_updated self.now draft ≡ Err e) }
        ensures planned { IfOk result (λ c. IsNext self.now (cron_modified c)) }
    {
        let (found, status) = self.replaced_cron(alloc, &draft)?;
        let is_same = is_same_cron_spec(&draft.spec, &found.spec);
        let CronJobDraft { key, meta, spec } = draft;
        Ok(CronJob {
            key,
            meta: self.updated(meta, is_same, &found.meta),
            spec,
            status,
        })
    }

    fn with_status(
        &self,
        alloc: Global,
        status: CronStatus,
        found: &CronJob,
    ) -> Result<CronJob, Refusal>
        requires { HasRoom self.now }
        ensures ok { IfOk result (λ c. c ≡ with_status self.now status found.now) }
        ensures err { IfErr result (λ e. e ≡ OutOfMemory) }
    {
        let (key, meta, spec) = all_three(
            found.key.try_copy(alloc),
            self.touched(alloc, &found.meta),
            found.spec.try_copy(alloc),
        )?;
        Ok(CronJob {
            key,
            meta,
            spec,
            status,
        })
    }

    #[tactic(auto, using(crate::proofs::Kept::cron_uid_there))]
    pub(crate) fn status_set(
        &self,
        alloc: Global,
        key: &Key,
        uid: Uid,
        version: Version,
        status: CronStatus,
    ) -> Result<CronJob, Refusal>
        requires { HasRoom self.now }
        ensures ok { IfOk result (λ c. status_set self.now key.now uid version status ≡ Ok c) }
        ensures err { IfErr result (λ e. e ≢ OutOfMemory →
            status_set self.now key.now uid version status ≡ Err e) }
        ensures planned { IfOk result (λ c. IsNext self.now (cron_modified c)) }
    {
        let Some(found) = self.get_cron(key) else {
            return Err(Refusal::NotFound);
        };
        if found.meta.uid != uid {
            return Err(Refusal::NotFound);
        }
        if found.meta.version != version {
            return Err(Refusal::Conflict(found.meta.version));
        }
        self.with_status(alloc, status, found)
    }

    fn last_cron(&self, alloc: Global, found: &CronJob) -> Result<CronJob, Refusal>
        requires { HasRoom self.now }
        ensures ok { IfOk result (λ c. c ≡ last_cron self.now found.now) }
        ensures err { IfErr result (λ e. e ≡ OutOfMemory) }
    {
        let standing = found.status.try_copy(alloc)?;
        self.with_status(alloc, standing, found)
    }

    #[tactic(auto, using(crate::proofs::Kept::cron_uid_there))]
    pub(crate) fn cron_deleted(&self, alloc: Global, key: &Key) -> Result<CronJob, Refusal>
        requires { HasRoom self.now }
        ensures ok { IfOk result (λ c. cron_deleted self.now key.now ≡ Ok c) }
        ensures err { IfErr result (λ e. e ≢ OutOfMemory → cron_deleted self.now key.now ≡ Err e) }
        ensures planned { IfOk result (λ c. IsNext self.now (cron_gone c)) }
    {
        match self.get_cron(key) {
            Some(found) => self.last_cron(alloc, found),
            None => Err(Refusal::NotFound),
        }
    }
}
