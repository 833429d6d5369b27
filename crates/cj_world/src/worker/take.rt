ghost use Rattle.std.specs.Prelude.{◌≡◌, IfOk, IfErr, OnOk, OnErr, Ok, Some, None, Err, if◌then◌else◌};
ghost use Rattle.std.specs.FinMap as map;
ghost use Rattle.cj_base.specs.declared.refusal.Refusal.TheVariants.{OutOfMemory};
ghost use Rattle.cj_queue.specs.Queue.{taken};
ghost use Rattle.cj_state.specs.declared.phases.sync.Phase.TheVariants.{Held};
ghost use Rattle.cj_state.specs.WorkerCalls.{take, handled, with_sync};

use cj_calls::{Answered, Reply};
use cj_state::{InFlight, Phase, State, refused};
use cj_types::{Key, Refusal, TryCopy};
use std::alloc::Global;

// Why nothing can be taken of an empty line.
fn why_empty(shut: bool) -> Refusal
    ensures { result ≡ if shut then Refusal.ShutDown else Refusal.Empty }
{
    if shut {
        Refusal::ShutDown
    } else {
        Refusal::Empty
    }
}

fn key_answer(alloc: Global, key: &Key) -> Result<Answered, Refusal>
    ensures ok { IfOk result (λ t. t ≡ Ok (Reply.Key key.now)) }
    ensures err { IfErr result (λ e. e ≡ OutOfMemory) }
{
    let key = key.try_copy(alloc)?;
    Answered::new(alloc, Ok(Reply::Key(key)))
}

#[tactic(auto, using(crate::proofs::WorkerLemmas::Undone::undone))]
fn take_key(alloc: Global, state: &mut State, worker: u64, key: Key) -> Result<Answered, Refusal>
    requires free { map.get state.old.syncs worker ≡ None }
    ensures answer { IfOk result (λ t. t ≡ Ok (Reply.Key key)) }
    ensures ok { OnOk result (state.new ≡ with_sync (record state.old {
      queue = taken state.old.queue;
    }) worker key Held) }
    ensures err { OnErr result (state.new ≡ state.old) }
    ensures memory { IfErr result (λ e. e ≡ OutOfMemory) }
{
    let answer = key_answer(alloc, &key)?;
    let sync = InFlight {
        key,
        phase: Phase::Held,
    };
    state.syncs.insert(worker, sync)?;
    if state.queue.take().is_err() {
        state.syncs.remove(worker);
        return Err(Refusal::OutOfMemory);
    }
    Ok(answer)
}

/// Takes the first key of the line for the worker.
#[tactic(auto, unfolding(cj_state::specs::WorkerCalls::take))]
pub fn take(alloc: Global, state: &mut State, worker: u64) -> Result<Answered, Refusal>
    ensures ok { IfOk result (λ t. take state.old worker ≡ handled t state.new) }
    ensures err { OnErr result (state.new ≡ state.old) }
    ensures memory { IfErr result (λ e. e ≡ OutOfMemory) }
{
    if state.syncs.get(worker).is_some() {
        return refused(alloc, Refusal::OutOfPhase);
    }
    let Some(key) = state.queue.front() else {
        return refused(alloc, why_empty(state.queue.is_shut()));
    };
    let key = key.try_copy(alloc)?;
    take_key(alloc, state, worker, key)
}
