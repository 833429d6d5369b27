ghost use Rattle.std.specs.Prelude.{◌≡◌, IfOk, IfErr, OnErr};
ghost use Rattle.cj_store.specs.Content.{HasRoom};
ghost use Rattle.cj_base.specs.declared.refusal.Refusal.TheVariants.{OutOfMemory};
ghost use Rattle.cj_store.specs.Change.{map_ok, cron_added, cron_modified, cron_gone};
ghost use Rattle.cj_store.specs.Crons.{cron_created, cron_updated, cron_deleted};
ghost use Rattle.cj_state.specs.Sound.{IsSound};
ghost use Rattle.cj_state.specs.WorkerCalls.{handled, event_reply, version_reply};
ghost use Rattle.cj_state.specs.Step.{writes};

use crate::api::writing::{write_deletion, write_object};
use cj_calls::Answered;
use cj_state::{State, refused};
use cj_types::{CronJobDraft, Key, Refusal, Seconds, TryCopy};
use std::alloc::Global;

/// Creates a CronJob.
#[tactic(auto, using(cj_state::proofs::Numbers::created_numbered))]
pub fn create_cron(
    alloc: Global,
    state: &mut State,
    draft: &CronJobDraft,
    now: Seconds,
) -> Result<Answered, Refusal>
    requires room { HasRoom state.old.store }
    requires sound { IsSound state.old }
    ensures ok { IfOk result (λ t. writes state.old event_reply
        (map_ok cron_added (cron_created state.old.store draft.now now)) ≡ handled t state.new) }
    ensures err { OnErr result (state.new ≡ state.old) }
    ensures memory { IfErr result (λ e. e ≡ OutOfMemory) }
{
    match state
        .store
        .plan_create_cron(alloc, draft.try_copy(alloc)?, now)
    {
        Ok(change) => write_object(alloc, state, change),
        Err(refusal) => refused(alloc, refusal),
    }
}

/// Replaces labels, annotations and spec of a CronJob.
#[tactic(auto, using(cj_state::proofs::Numbers::updated_numbered))]
pub fn update_cron(
    alloc: Global,
    state: &mut State,
    draft: &CronJobDraft,
) -> Result<Answered, Refusal>
    requires room { HasRoom state.old.store }
    requires sound { IsSound state.old }
    ensures ok { IfOk result (λ t. writes state.old event_reply
        (map_ok cron_modified (cron_updated state.old.store draft.now)) ≡ handled t state.new) }
    ensures err { OnErr result (state.new ≡ state.old) }
    ensures memory { IfErr result (λ e. e ≡ OutOfMemory) }
{
    match state.store.plan_update_cron(alloc, draft.try_copy(alloc)?) {
        Ok(change) => write_object(alloc, state, change),
        Err(refusal) => refused(alloc, refusal),
    }
}

/// Deletes a CronJob.
#[tactic(auto, using(cj_state::proofs::Numbers::deleted_numbered))]
pub fn delete_cron(alloc: Global, state: &mut State, key: &Key) -> Result<Answered, Refusal>
    requires room { HasRoom state.old.store }
    requires sound { IsSound state.old }
    ensures ok { IfOk result (λ t. writes state.old version_reply
        (map_ok cron_gone (cron_deleted state.old.store key.now)) ≡ handled t state.new) }
    ensures err { OnErr result (state.new ≡ state.old) }
    ensures memory { IfErr result (λ e. e ≡ OutOfMemory) }
{
    match state.store.plan_delete_cron(alloc, key) {
        Ok(change) => write_deletion(alloc, state, change),
        Err(refusal) => refused(alloc, refusal),
    }
}
