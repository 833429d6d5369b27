ghost use Rattle.std.specs.Prelude.{◌≡◌, IfOk, IfErr, OnErr, Ok};
ghost use Rattle.std.specs.FinMap as map;
ghost use Rattle.cj_base.specs.declared.refusal.Refusal.TheVariants.{OutOfMemory};
ghost use Rattle.cj_table.specs.jobs.Owners.{owned_by};
ghost use Rattle.cj_state.specs.declared.phases.sync.Phase.TheVariants.{Seen, Listed, Checked};
ghost use Rattle.cj_state.specs.Readings.{active_of};
ghost use Rattle.cj_state.specs.WorkerCalls.{see_cron, see_jobs, see_active, handled};

use crate::worker::active::active_of;
use cj_base::{all_three, both};
use cj_calls::{Answered, Reply};
use cj_state::{InFlight, Phase, State, refused, sync_in};
use cj_store::Store;
use cj_types::{CronJob, Heap, Job, Key, Listing, Refusal, Shared, TryCopy};
use cj_watch::Mirror;
use std::alloc::Global;

fn cron_at(alloc: Global, store: &Store, key: &Key) -> Result<Option<Shared<CronJob>>, Refusal>
    ensures ok { IfOk result (λ c. c ≡ map.get store.now.crons key.now) }
    ensures err { IfErr result (λ e. e ≡ OutOfMemory) }
{
    match store.get_cron(key) {
        Some(cron) => Ok(Some(cron.try_copy(alloc)?)),
        None => Ok(None),
    }
}

// The sync in the phase, and the answer.
fn shown(
    alloc: Global,
    key: &Key,
    phase: Phase,
    reply: Reply,
) -> Result<(Heap<InFlight>, Answered), Refusal>
    ensures sync { IfOk result (λ p. p.0 ≡ record { key = key.now; phase = phase }) }
    ensures answer { IfOk result (λ p. p.1 ≡ Ok reply) }
    ensures err { IfErr result (λ e. e ≡ OutOfMemory) }
{
    both(sync_in(alloc, key, phase), Answered::new(alloc, Ok(reply)))
}

fn shown_cron(
    alloc: Global,
    store: &Store,
    key: &Key,
) -> Result<(Heap<InFlight>, Answered), Refusal>
    ensures sync { IfOk result (λ p. p.0 ≡ record {
      key = key.now;
      phase = Seen (map.get store.now.crons key.now);
    }) }
    ensures answer { IfOk result (λ p. p.1 ≡ Ok
        (Reply.SeenCron (map.get store.now.crons key.now))) }
    ensures err { IfErr result (λ e. e ≡ OutOfMemory) }
{
    let cron = cron_at(alloc, store, key)?;
    let phase = Phase::Seen(cron.try_copy(alloc)?);
    shown(alloc, key, phase, Reply::SeenCron(cron))
}

fn shown_jobs(
    alloc: Global,
    mirror: &mut Mirror,
    key: &Key,
    cron: &Option<Shared<CronJob>>,
) -> Result<(Heap<InFlight>, Answered), Refusal>
    ensures sync { IfOk result (λ p. p.0 ≡ record {
      key = key.now;
      phase = Listed cron.now (owned_by mirror.old.jobs key.now);
    }) }
    ensures answer { IfOk result (λ p. p.1 ≡ Ok
        (Reply.SeenJobs (owned_by mirror.old.jobs key.now))) }
    ensures same { mirror.new ≡ mirror.old }
    ensures err { IfErr result (λ e. e ≡ OutOfMemory) }
{
    let jobs = mirror.owned(key)?;
    let (cron, listed) = both(cron.try_copy(alloc), jobs.try_copy(alloc))?;
    let phase = Phase::Listed(cron, listed);
    shown(alloc, key, phase, Reply::SeenJobs(jobs))
}

fn shown_active(
    alloc: Global,
    store: &Store,
    key: &Key,
    cron: &Option<Shared<CronJob>>,
    jobs: &Listing<Shared<Job>>,
) -> Result<(Heap<InFlight>, Answered), Refusal>
    ensures sync { IfOk result (λ p. p.0 ≡ record {
      key = key.now;
      phase = Checked cron.now jobs.now (active_of store.now cron.now);
    }) }
    ensures answer { IfOk result (λ p. p.1 ≡ Ok (Reply.SeenActive (active_of store.now cron.now))) }
    ensures err { IfErr result (λ e. e ≡ OutOfMemory) }
{
    let active = active_of(alloc, store, cron)?;
    let (cron, jobs, found) = all_three(
        cron.try_copy(alloc),
        jobs.try_copy(alloc),
        active.try_copy(alloc),
    )?;
    let phase = Phase::Checked(cron, jobs, found);
    shown(alloc, key, phase, Reply::SeenActive(active))
}

/// The CronJob of the key that the worker holds.
#[tactic(auto, unfolding(cj_state::specs::WorkerCalls::see_cron))]
pub fn see_cron(alloc: Global, state: &mut State, worker: u64) -> Result<Answered, Refusal>
    ensures ok { IfOk result (λ t. see_cron state.old worker ≡ handled t state.new) }
    ensures err { OnErr result (state.new ≡ state.old) }
    ensures memory { IfErr result (λ e. e ≡ OutOfMemory) }
{
    let Some(sync) = state.syncs.get(worker) else {
        return refused(alloc, Refusal::OutOfPhase);
    };
    let Phase::Held = &sync.phase else {
        return refused(alloc, Refusal::OutOfPhase);
    };
    let (next, answer) = shown_cron(alloc, &state.store, &sync.key)?;
    state.put_sync(worker, next);
    Ok(answer)
}

/// The Jobs of the key that the worker holds.
#[tactic(auto, unfolding(cj_state::specs::WorkerCalls::see_jobs))]
pub fn see_jobs(alloc: Global, state: &mut State, worker: u64) -> Result<Answered, Refusal>
    ensures ok { IfOk result (λ t. see_jobs state.old worker ≡ handled t state.new) }
    ensures err { OnErr result (state.new ≡ state.old) }
    ensures memory { IfErr result (λ e. e ≡ OutOfMemory) }
{
    let Some(sync) = state.syncs.get(worker) else {
        return refused(alloc, Refusal::OutOfPhase);
    };
    let Phase::Seen(cron) = &sync.phase else {
        return refused(alloc, Refusal::OutOfPhase);
    };
    let (next, answer) = shown_jobs(alloc, &mut state.mirror, &sync.key, cron)?;
    state.put_sync(worker, next);
    Ok(answer)
}

/// What became of the Jobs that the seen CronJob's status names as active.
#[tactic(auto, unfolding(cj_state::specs::WorkerCalls::see_active))]
pub fn see_active(alloc: Global, state: &mut State, worker: u64) -> Result<Answered, Refusal>
    ensures ok { IfOk result (λ t. see_active state.old worker ≡ handled t state.new) }
    ensures err { OnErr result (state.new ≡ state.old) }
    ensures memory { IfErr result (λ e. e ≡ OutOfMemory) }
{
    let Some(sync) = state.syncs.get(worker) else {
        return refused(alloc, Refusal::OutOfPhase);
    };
    let Phase::Listed(cron, jobs) = &sync.phase else {
        return refused(alloc, Refusal::OutOfPhase);
    };
    let (next, answer) = shown_active(alloc, &state.store, &sync.key, cron, jobs)?;
    state.put_sync(worker, next);
    Ok(answer)
}
