ghost use Rattle.std.specs.Prelude.{◌≡◌, IfOk, IfErr, OnErr};
ghost use Rattle.cj_store.specs.Content.{HasRoom};
ghost use Rattle.cj_base.specs.declared.refusal.Refusal.TheVariants.{OutOfMemory};
ghost use Rattle.cj_state.specs.Sound.{IsSound};
ghost use Rattle.cj_state.specs.WorkerCalls.{handled};
ghost use Rattle.cj_state.specs.Step.{step_of};

use crate::api::{by_informer, by_runner, by_user};
use crate::worker::by_worker;
use cj_calls::{Answered, Call, Caller, Role};
use cj_state::State;
use cj_types::{Refusal, Shared};
use std::alloc::Global;

// Makes the call. Where there is no memory all is as it was.
#[tactic(auto, unfolding(cj_state::specs::Step::step_of))]
pub(crate) fn step(
    alloc: Global,
    state: &mut State,
    caller: &Caller,
    call: &Shared<Call>,
) -> Result<Answered, Refusal>
    requires room { HasRoom state.old.store }
    requires sound { IsSound state.old }
    ensures ok { IfOk result (λ t. step_of state.old caller.now call.now ≡ handled t state.new) }
    ensures err { OnErr result (state.new ≡ state.old) }
    ensures memory { IfErr result (λ e. e ≡ OutOfMemory) }
{
    let call = call.get();
    match caller.role {
        Role::User => by_user(alloc, state, call),
        Role::Runner => by_runner(alloc, state, call),
        Role::Informer => by_informer(alloc, state, call),
        Role::Worker => by_worker(alloc, state, caller.number, call),
    }
}
