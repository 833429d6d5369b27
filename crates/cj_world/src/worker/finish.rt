ghost use Rattle.std.specs.Prelude.{◌≡◌, IfOk, IfErr, OnErr, IsTrue};
ghost use Rattle.cj_base.specs.declared.refusal.Refusal.TheVariants.{OutOfMemory};
ghost use Rattle.cj_queue.specs.Queue.{has, finished_ok, finished_retry};
ghost use Rattle.cj_state.specs.Sound.{IsSound};
ghost use Rattle.cj_state.specs.WorkerCalls.{finish, leaves, next_ms, handled};

use cj_calls::{Answered, End, Reply};
use cj_state::{Phase, State, is_done, refused};
use cj_types::{Key, Millis, Refusal, Seconds, TryCopy};
use std::alloc::Global;

fn next_ms(at: Option<Seconds>) -> Option<u64>
    ensures { result ≡ next_ms at }
{
    match at {
        Some(at) => Some(1000 * at.get()),
        None => None,
    }
}

fn leave_well(
    alloc: Global,
    state: &mut State,
    worker: u64,
    key: &Key,
    at: Option<u64>,
) -> Result<Answered, Refusal>
    requires held { IsTrue (has state.old.queue.row.processing key.now) }
    ensures ok { IfOk result (λ t. leaves state.old worker (finished_ok state.old.queue key.now at)
        ≡ handled t state.new) }
    ensures err { OnErr result (state.new ≡ state.old) }
    ensures memory { IfErr result (λ e. e ≡ OutOfMemory) }
{
    let answer = Answered::new(alloc, Ok(Reply::Done))?;
    state.queue.finish_ok(key, at)?;
    state.syncs.remove(worker);
    Ok(answer)
}

fn leave_badly(
    alloc: Global,
    state: &mut State,
    worker: u64,
    key: &Key,
    now: Millis,
) -> Result<Answered, Refusal>
    requires held { IsTrue (has state.old.queue.row.processing key.now) }
    ensures ok { IfOk result (λ t. leaves state.old worker
        (finished_retry state.old.queue key.now now) ≡ handled t state.new) }
    ensures err { OnErr result (state.new ≡ state.old) }
    ensures memory { IfErr result (λ e. e ≡ OutOfMemory) }
{
    let answer = Answered::new(alloc, Ok(Reply::Done))?;
    state.queue.finish_retry(key, now)?;
    state.syncs.remove(worker);
    Ok(answer)
}

/// Ends the worker's sync.
#[tactic(auto, unfolding(cj_state::specs::WorkerCalls::finish), using(cj_state::proofs::Numbers::held_key))]
pub fn finish(alloc: Global, state: &mut State, worker: u64, end: End) -> Result<Answered, Refusal>
    requires sound { IsSound state.old }
    ensures ok { IfOk result (λ t. finish state.old worker end ≡ handled t state.new) }
    ensures err { OnErr result (state.new ≡ state.old) }
    ensures memory { IfErr result (λ e. e ≡ OutOfMemory) }
{
    let Some(sync) = state.syncs.get(worker) else {
        return refused(alloc, Refusal::OutOfPhase);
    };
    match end {
        End::Again(now) => {
            let key = sync.key.try_copy(alloc)?;
            leave_badly(alloc, state, worker, &key, now)
        }
        End::Well => {
            let Phase::Works(work) = &sync.phase else {
                return refused(alloc, Refusal::OutOfPhase);
            };
            let steps = work.plan.get().steps();
            if !is_done(steps, work.place) {
                return refused(alloc, Refusal::OutOfPhase);
            }
            let at = next_ms(steps.next);
            let key = sync.key.try_copy(alloc)?;
            leave_well(alloc, state, worker, &key, at)
        }
    }
}
