ghost use Rattle.std.specs.Prelude.{◌≡◌, None, IfOk, IfErr, OnErr};
ghost use Rattle.cj_store.specs.Content.{HasRoom};
ghost use Rattle.cj_base.specs.declared.refusal.Refusal.TheVariants.{OutOfMemory};
ghost use Rattle.cj_store.specs.Change.{map_ok, job_added, job_modified, job_gone};
ghost use Rattle.cj_store.specs.Jobs.{job_created, job_updated, job_deleted, job_ended};
ghost use Rattle.cj_state.specs.Sound.{IsSound};
ghost use Rattle.cj_state.specs.WorkerCalls.{handled, event_reply, version_reply};
ghost use Rattle.cj_state.specs.Step.{writes};

use crate::api::writing::{write_deletion, write_object};
use cj_calls::Answered;
use cj_state::{State, refused};
use cj_types::{JobDraft, Key, Outcome, Refusal, Seconds, TryCopy, Uid};
use std::alloc::Global;

/// Creates a Job for a user.
#[tactic(auto, using(cj_state::proofs::Numbers::job_numbered))]
pub fn create_job(
    alloc: Global,
    state: &mut State,
    draft: &JobDraft,
    now: Seconds,
) -> Result<Answered, Refusal>
    requires room { HasRoom state.old.store }
    requires sound { IsSound state.old }
    ensures ok { IfOk result (λ t. writes state.old event_reply
        (map_ok job_added (job_created state.old.store draft.now now)) ≡ handled t state.new) }
    ensures err { OnErr result (state.new ≡ state.old) }
    ensures memory { IfErr result (λ e. e ≡ OutOfMemory) }
{
    match state
        .store
        .plan_create_job(alloc, draft.try_copy(alloc)?, now)
    {
        Ok(change) => write_object(alloc, state, change),
        Err(refusal) => refused(alloc, refusal),
    }
}

/// Replaces labels, annotations and spec of a Job.
#[tactic(auto, using(cj_state::proofs::Numbers::changed_numbered))]
pub fn update_job(alloc: Global, state: &mut State, draft: &JobDraft) -> Result<Answered, Refusal>
    requires room { HasRoom state.old.store }
    requires sound { IsSound state.old }
    ensures ok { IfOk result (λ t. writes state.old event_reply
        (map_ok job_modified (job_updated state.old.store draft.now)) ≡ handled t state.new) }
    ensures err { OnErr result (state.new ≡ state.old) }
    ensures memory { IfErr result (λ e. e ≡ OutOfMemory) }
{
    match state.store.plan_update_job(alloc, draft.try_copy(alloc)?) {
        Ok(change) => write_object(alloc, state, change),
        Err(refusal) => refused(alloc, refusal),
    }
}

/// Deletes a Job.
#[tactic(auto, using(cj_state::proofs::Numbers::gone_numbered))]
pub fn delete_job(alloc: Global, state: &mut State, key: &Key) -> Result<Answered, Refusal>
    requires room { HasRoom state.old.store }
    requires sound { IsSound state.old }
    ensures ok { IfOk result (λ t. writes state.old version_reply
        (map_ok job_gone (job_deleted state.old.store key.now None)) ≡ handled t state.new) }
    ensures err { OnErr result (state.new ≡ state.old) }
    ensures memory { IfErr result (λ e. e ≡ OutOfMemory) }
{
    match state.store.plan_delete_job(alloc, key, None) {
        Ok(change) => write_deletion(alloc, state, change),
        Err(refusal) => refused(alloc, refusal),
    }
}

/// Ends a Job.
#[tactic(auto, using(cj_state::proofs::Numbers::ended_numbered))]
pub fn end_job(
    alloc: Global,
    state: &mut State,
    key: &Key,
    uid: Uid,
    outcome: Outcome,
    now: Seconds,
) -> Result<Answered, Refusal>
    requires room { HasRoom state.old.store }
    requires sound { IsSound state.old }
    ensures ok { IfOk result (λ t. writes state.old event_reply
        (map_ok job_modified (job_ended state.old.store key.now uid outcome now))
        ≡ handled t state.new) }
    ensures err { OnErr result (state.new ≡ state.old) }
    ensures memory { IfErr result (λ e. e ≡ OutOfMemory) }
{
    match state.store.plan_end_job(alloc, key, uid, outcome, now) {
        Ok(change) => write_object(alloc, state, change),
        Err(refusal) => refused(alloc, refusal),
    }
}
