ghost use Rattle.std.specs.Prelude.{◌≡◌, ◌+◌, ◌<◌, ◌^◌, IfOk, IfErr, OnErr, IsSome, Some, Ok};
ghost use Rattle.std.specs.FinMap as map;
ghost use Rattle.cj_store.specs.Content.{HasRoom};
ghost use Rattle.cj_base.specs.declared.refusal.Refusal.TheVariants.{OutOfMemory};
ghost use Rattle.cj_store.specs.Change.{map_ok, cron_modified, job_added, job_gone};
ghost use Rattle.cj_store.specs.Crons.{status_set};
ghost use Rattle.cj_store.specs.Jobs.{job_made, job_deleted};
ghost use Rattle.cj_state.specs.Sound.{IsSound};
ghost use Rattle.cj_state.specs.WorkerCalls.{drop_next, drops_it, make_next, set_status, steps_on, event_reply, version_reply, next_sync, handled};

use cj_base::both;
use cj_calls::{Answered, Reply};
use cj_state::{
    InFlight, Phase, State, Work, drop_at, event_answer, make_at, refused, status_at, sync_in,
};
use cj_types::{CronStatus, Heap, JobDraft, Key, Refusal, Seconds, TryCopy, Uid, Version};
use std::alloc::Global;

// The sync after one step more of the plan.
fn further(alloc: Global, key: &Key, work: &Work) -> Result<Heap<InFlight>, Refusal>
    requires { work.now.place + 1 < 2 ^ 64 }
    ensures ok { IfOk result (λ s. s ≡ next_sync key.now work.now) }
    ensures err { IfErr result (λ e. e ≡ OutOfMemory) }
{
    let work = Work {
        plan: work.plan.try_copy(alloc)?,
        version: work.version,
        place: work.place + 1,
    };
    sync_in(alloc, key, Phase::Works(work))
}

#[tactic(auto, using(cj_state::proofs::Numbers::gone_numbered))]
fn drop_job(
    alloc: Global,
    state: &mut State,
    worker: u64,
    name: Key,
    uid: Uid,
    sync: Heap<InFlight>,
) -> Result<Answered, Refusal>
    requires room { HasRoom state.old.store }
    requires sound { IsSound state.old }
    requires there { IsSome (map.get state.old.syncs worker) }
    ensures ok { IfOk result (λ t. drops_it state.old worker sync name
        (map_ok job_gone (job_deleted state.old.store name (Some uid))) ≡ handled t state.new) }
    ensures err { OnErr result (state.new ≡ state.old) }
    ensures memory { IfErr result (λ e. e ≡ OutOfMemory) }
{
    match state.store.plan_delete_job(alloc, &name, Some(uid)) {
        Ok(change) => {
            let reply = Reply::Dropped(Some((name, change.event().version())));
            let answer = Answered::new(alloc, Ok(reply))?;
            state.write_with_sync(alloc, worker, change, answer, sync)
        }
        Err(Refusal::OutOfMemory) => Err(Refusal::OutOfMemory),
        Err(_) => {
            let answer = Answered::new(alloc, Ok(Reply::Dropped(None)))?;
            state.put_sync(worker, sync);
            Ok(answer)
        }
    }
}

#[tactic(auto, using(cj_state::proofs::Numbers::made_numbered))]
fn make_job(
    alloc: Global,
    state: &mut State,
    worker: u64,
    draft: JobDraft,
    now: Seconds,
    sync: Heap<InFlight>,
) -> Result<Answered, Refusal>
    requires room { HasRoom state.old.store }
    requires sound { IsSound state.old }
    requires there { IsSome (map.get state.old.syncs worker) }
    ensures ok { IfOk result (λ t. steps_on state.old worker sync event_reply
        (map_ok job_added (job_made state.old.store draft now)) ≡ handled t state.new) }
    ensures err { OnErr result (state.new ≡ state.old) }
    ensures memory { IfErr result (λ e. e ≡ OutOfMemory) }
{
    match state.store.plan_make_job(alloc, draft, now) {
        Ok(change) => {
            let answer = event_answer(alloc, change.event())?;
            state.write_with_sync(alloc, worker, change, answer, sync)
        }
        Err(refusal) => refused(alloc, refusal),
    }
}

#[tactic(auto, using(cj_state::proofs::Numbers::status_numbered))]
fn put_status(
    alloc: Global,
    state: &mut State,
    worker: u64,
    uid: Uid,
    version: Version,
    status: CronStatus,
    sync: Heap<InFlight>,
) -> Result<Answered, Refusal>
    requires room { HasRoom state.old.store }
    requires sound { IsSound state.old }
    requires there { IsSome (map.get state.old.syncs worker) }
    ensures ok { IfOk result (λ t. steps_on state.old worker sync version_reply
        (map_ok cron_modified (status_set state.old.store sync.key uid version status))
        ≡ handled t state.new) }
    ensures err { OnErr result (state.new ≡ state.old) }
    ensures memory { IfErr result (λ e. e ≡ OutOfMemory) }
{
    match state
        .store
        .plan_set_status(alloc, &sync.get().key, uid, version, status)
    {
        Ok(change) => {
            let reply = Reply::Version(change.event().version());
            let answer = Answered::new(alloc, Ok(reply))?;
            state.write_with_sync(alloc, worker, change, answer, sync)
        }
        Err(refusal) => refused(alloc, refusal),
    }
}

/// Drops the Job that the next step of the worker's plan drops.
#[tactic(auto, unfolding(cj_state::specs::WorkerCalls::drop_next))]
pub fn drop_next(alloc: Global, state: &mut State, worker: u64) -> Result<Answered, Refusal>
    requires room { HasRoom state.old.store }
    requires sound { IsSound state.old }
    ensures ok { IfOk result (λ t. drop_next state.old worker ≡ handled t state.new) }
    ensures err { OnErr result (state.new ≡ state.old) }
    ensures memory { IfErr result (λ e. e ≡ OutOfMemory) }
{
    let Some(sync) = state.syncs.get(worker) else {
        return refused(alloc, Refusal::OutOfPhase);
    };
    let Phase::Works(work) = &sync.phase else {
        return refused(alloc, Refusal::OutOfPhase);
    };
    let Some(job) = drop_at(work.plan.get().steps(), work.place) else {
        return refused(alloc, Refusal::OutOfPhase);
    };
    let (next, name) = both(further(alloc, &sync.key, work), job.key.try_copy(alloc))?;
    let uid = job.uid;
    drop_job(alloc, state, worker, name, uid, next)
}

/// Makes the Job that the next step of the worker's plan makes.
#[tactic(auto, unfolding(cj_state::specs::WorkerCalls::make_next))]
pub fn make_next(alloc: Global, state: &mut State, worker: u64) -> Result<Answered, Refusal>
    requires room { HasRoom state.old.store }
    requires sound { IsSound state.old }
    ensures ok { IfOk result (λ t. make_next state.old worker ≡ handled t state.new) }
    ensures err { OnErr result (state.new ≡ state.old) }
    ensures memory { IfErr result (λ e. e ≡ OutOfMemory) }
{
    let Some(sync) = state.syncs.get(worker) else {
        return refused(alloc, Refusal::OutOfPhase);
    };
    let Phase::Works(work) = &sync.phase else {
        return refused(alloc, Refusal::OutOfPhase);
    };
    let Some(draft) = make_at(work.plan.get().steps(), work.place) else {
        return refused(alloc, Refusal::OutOfPhase);
    };
    let (next, draft) = both(further(alloc, &sync.key, work), draft.try_copy(alloc))?;
    let now = work.plan.get().moment();
    make_job(alloc, state, worker, draft, now, next)
}

/// Sets the status that the next step of the worker's plan sets.
#[tactic(auto, unfolding(cj_state::specs::WorkerCalls::set_status))]
pub fn set_status(alloc: Global, state: &mut State, worker: u64) -> Result<Answered, Refusal>
    requires room { HasRoom state.old.store }
    requires sound { IsSound state.old }
    ensures ok { IfOk result (λ t. set_status state.old worker ≡ handled t state.new) }
    ensures err { OnErr result (state.new ≡ state.old) }
    ensures memory { IfErr result (λ e. e ≡ OutOfMemory) }
{
    let Some(sync) = state.syncs.get(worker) else {
        return refused(alloc, Refusal::OutOfPhase);
    };
    let Phase::Works(work) = &sync.phase else {
        return refused(alloc, Refusal::OutOfPhase);
    };
    let Some(status) = status_at(work.plan.get().steps(), work.place) else {
        return refused(alloc, Refusal::OutOfPhase);
    };
    let Some(cron) = work.plan.get().cron() else {
        return refused(alloc, Refusal::OutOfPhase);
    };
    let (next, status) = both(further(alloc, &sync.key, work), status.try_copy(alloc))?;
    let uid = cron.get().meta.uid;
    let version = work.version;
    put_status(alloc, state, worker, uid, version, status, next)
}
