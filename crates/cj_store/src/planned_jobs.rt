ghost use Rattle.std.specs.Prelude.{◌≡◌, ◌≢◌, ◌≤◌, ℕ, true, false, is_some, Some, IfOk, IfErr, OnOk, Ok, Err};
ghost use Rattle.std.specs.FinMap as map;
ghost use Rattle.cj_types.specs.Current.{is_current};
ghost use Rattle.cj_types.specs.Owners.{controller_of};
ghost use Rattle.cj_store.specs.Equal.{same_owners};
ghost use Rattle.cj_base.specs.declared.refusal.Refusal.TheVariants.{OutOfMemory};
ghost use Rattle.cj_store.specs.Content.{Content, HasRoom};
ghost use Rattle.cj_store.specs.Jobs.{new_job, job_made, job_created, job_updated, is_asked, last_job, job_deleted, ended_at, job_ended};
ghost use Rattle.cj_store.specs.Change.{IsNext, job_added, job_modified, job_gone};

use crate::Store;
use crate::equal::{are_same_owners, is_same_job_spec};
use crate::meta::version_not_allowed;
use cj_base::all_four;
use cj_types::{Job, JobDraft, Key, Outcome, OwnerRefs, Refusal, Seconds, Shared, TryCopy, Uid};
use std::alloc::Global;

fn is_asked(asked: Option<Uid>, uid: Uid) -> bool
    ensures { result ≡ is_asked asked uid }
{
    match asked {
        Some(asked) => uid == asked,
        None => true,
    }
}

// The outcome of a Job that finishes now.
fn ended_at(now: Seconds, outcome: Outcome) -> Outcome
    ensures { result ≡ ended_at now outcome }
{
    match outcome {
        Outcome::Complete(_) => Outcome::Complete(now),
        Outcome::Failed => Outcome::Failed,
    }
}

// The draft gives no controller and no version.
fn is_of_a_user(alloc: Global, draft: &JobDraft) -> Result<(), Refusal>
    ensures ok { OnOk result ((is_some (controller_of draft.now.owners) ≡ false)
        × (is_some draft.now.meta.version ≡ false)) }
    ensures err { IfErr result (λ e. e ≢ OutOfMemory →
        (s : Content) → (now : ℕ) → job_created s draft.now now ≡ Err e) }
{
    if draft.owners.controller().is_some() {
        return Err(Refusal::NotPermitted);
    }
    if draft.meta.version.is_some() {
        return Err(version_not_allowed(alloc));
    }
    Ok(())
}

// The Jobs that writes would store, or the refusals of these writes. Nothing changes here.
impl Store {
    fn new_job(&self, draft: JobDraft, now: Seconds) -> Job
        requires { HasRoom self.now }
        ensures { result ≡ new_job self.now draft now }
    {
        let JobDraft {
            key,
            meta,
            owners,
            spec,
        } = draft;
        Job {
            key,
            meta: self.new_meta(meta, now),
            owners,
            spec,
            outcome: None,
        }
    }

    pub(crate) fn job_made(&self, draft: JobDraft, now: Seconds) -> Result<Job, Refusal>
        requires { HasRoom self.now }
        ensures answer { job_made self.now draft now ≡ result }
        ensures planned { IfOk result (λ j. IsNext self.now (job_added j)) }
    {
        if self.get_job(&draft.key).is_some() {
            return Err(Refusal::AlreadyExists);
        }
        Ok(self.new_job(draft, now))
    }

    pub(crate) fn job_created(
        &self,
        alloc: Global,
        draft: JobDraft,
        now: Seconds,
    ) -> Result<Job, Refusal>
        requires { HasRoom self.now }
        ensures ok { IfOk result (λ j. job_created self.now draft now ≡ Ok j) }
        ensures err { IfErr result (λ e. e ≢ OutOfMemory → job_created self.now draft now ≡ Err e) }
        ensures planned { IfOk result (λ j. IsNext self.now (job_added j)) }
    {
        is_of_a_user(alloc, &draft)?;
        self.job_made(draft, now)
    }

    // The Job that the draft would update, with a copy of its owners.
    fn replaced_job(
        &self,
        alloc: Global,
        draft: &JobDraft,
    ) -> Result<(&Shared<Job>, OwnerRefs), Refusal>
        ensures ok { IfOk result (λ j. map.get self.now.jobs draft.now.key ≡ Some j.0.now) }
        ensures owners { IfOk result (λ j. j.1 ≡ j.0.now.owners) }
        ensures current { IfOk result (λ j. is_current draft.now.meta j.0.now.meta ≡ true) }
        ensures owned { IfOk result (λ j. same_owners draft.now.owners j.0.now.owners ≡ true) }
        ensures keyed { IfOk result (λ j. j.0.now.key ≡ draft.now.key) }
        ensures dated { IfOk result (λ j. j.0.now.meta.generation ≤ self.now.version) }
        ensures err { IfErr result (λ e. e ≢ OutOfMemory → job_updated self.now draft.now ≡ Err e) }
    {
        let Some(found) = self.get_job(&draft.key) else {
            return Err(Refusal::NotFound);
        };
        if !draft.meta.is_current(alloc, &found.meta)? {
            return Err(Refusal::Conflict(found.meta.version));
        }
        if !are_same_owners(&draft.owners, &found.owners) {
            return Err(Refusal::NotPermitted);
        }
        let owners = found.owners.try_copy(alloc)?;
        Ok((found, owners))
    }

    #[tactic(auto, using(crate::proofs::Kept::updated_generation, crate::proofs::Kept::owners_there, crate::proofs::Kept::job_uid_there))]
    pub(crate) fn job_updated(&self, alloc: Global, draft: JobDraft) -> Result<Job, Refusal>
        requires { HasRoom self.now }
        ensures ok { IfOk result (λ j. job_updated self.now draft ≡ Ok j) }
        ensures err { IfErr result (λ e. e ≢ OutOfMemory → job_updated self.now draft ≡ Err e) }
        ensures planned { IfOk result (λ j. IsNext self.now (job_modified j)) }
    {
        let (found, owners) = self.replaced_job(alloc, &draft)?;
        let is_same = is_same_job_spec(&draft.spec, &found.spec);
        let JobDraft {
            key,
            meta,
            owners: _,
            spec,
        } = draft;
        Ok(Job {
            key,
            meta: self.updated(meta, is_same, &found.meta),
            owners,
            spec,
            outcome: found.outcome,
        })
    }

    fn with_outcome(
        &self,
        alloc: Global,
        outcome: Option<Outcome>,
        found: &Job,
    ) -> Result<Job, Refusal>
        requires { HasRoom self.now }
        ensures ok { IfOk result (λ j. j ≡ record (last_job self.now found.now) {
          outcome = outcome;
        }) }
        ensures err { IfErr result (λ e. e ≡ OutOfMemory) }
    {
        let (key, meta, owners, spec) = all_four(
            found.key.try_copy(alloc),
            self.touched(alloc, &found.meta),
            found.owners.try_copy(alloc),
            found.spec.try_copy(alloc),
        )?;
        Ok(Job {
            key,
            meta,
            owners,
            spec,
            outcome,
        })
    }

    #[tactic(auto, using(crate::proofs::Kept::owners_there, crate::proofs::Kept::job_uid_there))]
    pub(crate) fn job_deleted(
        &self,
        alloc: Global,
        key: &Key,
        uid: Option<Uid>,
    ) -> Result<Job, Refusal>
        requires { HasRoom self.now }
        ensures ok { IfOk result (λ j. job_deleted self.now key.now uid ≡ Ok j) }
        ensures err { IfErr result (λ e. e ≢ OutOfMemory →
            job_deleted self.now key.now uid ≡ Err e) }
        ensures planned { IfOk result (λ j. IsNext self.now (job_gone j)) }
    {
        let Some(found) = self.get_job(key) else {
            return Err(Refusal::NotFound);
        };
        if !is_asked(uid, found.meta.uid) {
            return Err(Refusal::NotFound);
        }
        self.with_outcome(alloc, found.outcome, found)
    }

    #[tactic(auto, using(crate::proofs::Kept::owners_there, crate::proofs::Kept::job_uid_there))]
    pub(crate) fn job_ended(
        &self,
        alloc: Global,
        key: &Key,
        uid: Uid,
        outcome: Outcome,
        now: Seconds,
    ) -> Result<Job, Refusal>
        requires { HasRoom self.now }
        ensures ok { IfOk result (λ j. job_ended self.now key.now uid outcome now ≡ Ok j) }
        ensures err { IfErr result (λ e. e ≢ OutOfMemory →
            job_ended self.now key.now uid outcome now ≡ Err e) }
        ensures planned { IfOk result (λ j. IsNext self.now (job_modified j)) }
    {
        let Some(found) = self.get_job(key) else {
            return Err(Refusal::NotFound);
        };
        if found.meta.uid != uid {
            return Err(Refusal::NotFound);
        }
        if found.outcome.is_some() {
            return Err(Refusal::AlreadyFinished);
        }
        self.with_outcome(alloc, Some(ended_at(now, outcome)), found)
    }
}
