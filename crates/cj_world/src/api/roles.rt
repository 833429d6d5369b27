ghost use Rattle.std.specs.Prelude.{◌≡◌, IfOk, IfErr, OnErr};
ghost use Rattle.cj_store.specs.Content.{HasRoom};
ghost use Rattle.cj_base.specs.declared.refusal.Refusal.TheVariants.{OutOfMemory};
ghost use Rattle.cj_state.specs.Sound.{IsSound};
ghost use Rattle.cj_state.specs.WorkerCalls.{handled};
ghost use Rattle.cj_state.specs.Step.{by_user, by_runner, by_informer};

use crate::api::crons::{create_cron, delete_cron, update_cron};
use crate::api::jobs::{create_job, delete_job, end_job, update_job};
use crate::api::keys::{add, feed, shut, tick};
use crate::api::readings::by_reader;
use cj_calls::{Answered, Call};
use cj_state::State;
use cj_types::Refusal;
use std::alloc::Global;

/// A call of a user. Where there is no memory all is as it was.
pub fn by_user(alloc: Global, state: &mut State, call: &Call) -> Result<Answered, Refusal>
    requires room { HasRoom state.old.store }
    requires sound { IsSound state.old }
    ensures ok { IfOk result (λ t. by_user state.old call.now ≡ handled t state.new) }
    ensures err { OnErr result (state.new ≡ state.old) }
    ensures memory { IfErr result (λ e. e ≡ OutOfMemory) }
{
    match call {
        Call::CreateCron(draft, now) => create_cron(alloc, state, draft.get(), *now),
        Call::UpdateCron(draft) => update_cron(alloc, state, draft.get()),
        Call::DeleteCron(key) => delete_cron(alloc, state, key),
        Call::CreateJob(draft, now) => create_job(alloc, state, draft.get(), *now),
        Call::UpdateJob(draft) => update_job(alloc, state, draft.get()),
        Call::DeleteJob(key) => delete_job(alloc, state, key),
        _ => by_reader(alloc, state, call),
    }
}

/// A call of a runner. Where there is no memory all is as it was.
pub fn by_runner(alloc: Global, state: &mut State, call: &Call) -> Result<Answered, Refusal>
    requires room { HasRoom state.old.store }
    requires sound { IsSound state.old }
    ensures ok { IfOk result (λ t. by_runner state.old call.now ≡ handled t state.new) }
    ensures err { OnErr result (state.new ≡ state.old) }
    ensures memory { IfErr result (λ e. e ≡ OutOfMemory) }
{
    match call {
        Call::EndJob(key, uid, outcome, now) => { end_job(alloc, state, key, *uid, *outcome, *now) }
        _ => by_reader(alloc, state, call),
    }
}

/// A call of an informer. Where there is no memory all is as it was.
pub fn by_informer(alloc: Global, state: &mut State, call: &Call) -> Result<Answered, Refusal>
    requires sound { IsSound state.old }
    ensures ok { IfOk result (λ t. by_informer state.old call.now ≡ handled t state.new) }
    ensures err { OnErr result (state.new ≡ state.old) }
    ensures memory { IfErr result (λ e. e ≡ OutOfMemory) }
{
    match call {
        Call::Add(key) => add(alloc, state, key),
        Call::Tick(now) => tick(alloc, state, *now),
        Call::Shut => shut(alloc, state),
        Call::Feed(max) => feed(alloc, state, *max),
        _ => by_reader(alloc, state, call),
    }
}
