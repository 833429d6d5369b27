ghost use Rattle.std.specs.Prelude.{◌≡◌, IfOk, IfErr, OnErr, IsSome, Some};
ghost use Rattle.std.specs.FinMap as map;
ghost use Rattle.cj_store.specs.Content.{HasRoom};
ghost use Rattle.cj_base.specs.declared.refusal.Refusal.TheVariants.{OutOfMemory};
ghost use Rattle.cj_state.specs.declared.phases.sync.Phase.TheVariants.{Works};
ghost use Rattle.cj_state.specs.Sound.{IsSound};
ghost use Rattle.cj_state.specs.WorkerCalls.{claim, claims, claim_where, seen_version, handled};

use cj_base::both;
use cj_calls::{Answered, Reply};
use cj_decide::{Claim, Plan};
use cj_state::{InFlight, Phase, State, Work, refused, rests_on, sync_in};
use cj_types::{CronJob, Heap, Key, Refusal, Shared, TryCopy, Version};
use std::alloc::Global;

fn seen_version(cron: &Option<Shared<CronJob>>) -> Version
    ensures { result ≡ seen_version cron.now }
{
    match cron {
        Some(cron) => cron.get().meta.version,
        None => Version::new(0),
    }
}

fn at_work(
    alloc: Global,
    key: &Key,
    plan: &Shared<Plan>,
    version: Version,
) -> Result<Heap<InFlight>, Refusal>
    ensures ok { IfOk result (λ s. s ≡ record {
      key = key.now;
      phase = Works (record { plan = plan.now; version = version; place = 0 });
    }) }
    ensures err { IfErr result (λ e. e ≡ OutOfMemory) }
{
    let work = Work {
        plan: plan.try_copy(alloc)?,
        version,
        place: 0,
    };
    sync_in(alloc, key, Phase::Works(work))
}

// The conditional update of the status of the CronJob that the plan rests on.
#[tactic(auto, using(cj_state::proofs::Numbers::status_numbered))]
fn claim_time(
    alloc: Global,
    state: &mut State,
    worker: u64,
    key: &Key,
    plan: &Shared<Plan>,
    claim: &Claim,
    cron: &CronJob,
) -> Result<Answered, Refusal>
    requires room { HasRoom state.old.store }
    requires sound { IsSound state.old }
    requires there { IsSome (map.get state.old.syncs worker) }
    ensures ok { IfOk result (λ t. claims state.old worker key.now plan.now claim.now
        (Some cron.now) ≡ handled t state.new) }
    ensures err { OnErr result (state.new ≡ state.old) }
    ensures memory { IfErr result (λ e. e ≡ OutOfMemory) }
{
    let status = claim.status.try_copy(alloc)?;
    let uid = cron.meta.uid;
    match state
        .store
        .plan_set_status(alloc, key, uid, cron.meta.version, status)
    {
        Ok(change) => {
            let version = change.event().version();
            let reply = Reply::Claimed(Some((claim.time, version)));
            let (sync, answer) = both(
                at_work(alloc, key, plan, version),
                Answered::new(alloc, Ok(reply)),
            )?;
            state.write_with_sync(alloc, worker, change, answer, sync)
        }
        Err(refusal) => refused(alloc, refusal),
    }
}

// The claim of a plan that rests on what the worker got.
fn claim_where(
    alloc: Global,
    state: &mut State,
    worker: u64,
    key: &Key,
    plan: &Shared<Plan>,
) -> Result<Answered, Refusal>
    requires room { HasRoom state.old.store }
    requires sound { IsSound state.old }
    requires there { IsSome (map.get state.old.syncs worker) }
    ensures ok { IfOk result (λ t. claim_where state.old worker key.now plan.now
        plan.now.steps.claim ≡ handled t state.new) }
    ensures err { OnErr result (state.new ≡ state.old) }
    ensures memory { IfErr result (λ e. e ≡ OutOfMemory) }
{
    match (&plan.get().steps().claim, plan.get().cron()) {
        (Some(claim), Some(cron)) => claim_time(alloc, state, worker, key, plan, claim, cron.get()),
        (Some(_), None) => refused(alloc, Refusal::Stale),
        (None, cron) => {
            let (sync, answer) = both(
                at_work(alloc, key, plan, seen_version(cron)),
                Answered::new(alloc, Ok(Reply::Claimed(None))),
            )?;
            state.put_sync(worker, sync);
            Ok(answer)
        }
    }
}

/// Claims what the plan says, if it rests on the answers that the worker got.
#[tactic(auto, unfolding(cj_state::specs::WorkerCalls::claim))]
pub fn claim(
    alloc: Global,
    state: &mut State,
    worker: u64,
    plan: &Shared<Plan>,
) -> Result<Answered, Refusal>
    requires room { HasRoom state.old.store }
    requires sound { IsSound state.old }
    ensures ok { IfOk result (λ t. claim state.old worker plan.now ≡ handled t state.new) }
    ensures err { OnErr result (state.new ≡ state.old) }
    ensures memory { IfErr result (λ e. e ≡ OutOfMemory) }
{
    let Some(sync) = state.syncs.get(worker) else {
        return refused(alloc, Refusal::OutOfPhase);
    };
    let Phase::Checked(cron, jobs, active) = &sync.phase else {
        return refused(alloc, Refusal::OutOfPhase);
    };
    if !rests_on(plan.get(), cron, jobs.as_slice(), active.as_slice()) {
        return refused(alloc, Refusal::Stale);
    }
    let key = sync.key.try_copy(alloc)?;
    claim_where(alloc, state, worker, &key, plan)
}
