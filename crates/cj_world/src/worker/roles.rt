ghost use Rattle.std.specs.Prelude.{◌≡◌, IfOk, IfErr, OnErr};
ghost use Rattle.cj_store.specs.Content.{HasRoom};
ghost use Rattle.cj_base.specs.declared.refusal.Refusal.TheVariants.{OutOfMemory};
ghost use Rattle.cj_state.specs.Sound.{IsSound};
ghost use Rattle.cj_state.specs.WorkerCalls.{handled};
ghost use Rattle.cj_state.specs.Step.{by_worker};

use crate::worker::claim::claim;
use crate::worker::finish::finish;
use crate::worker::plan_steps::{drop_next, make_next, set_status};
use crate::worker::see::{see_active, see_cron, see_jobs};
use crate::worker::take::take;
use cj_calls::{Answered, Call};
use cj_state::{State, refused};
use cj_types::Refusal;
use std::alloc::Global;

/// A call of a worker. Where there is no memory all is as it was.
pub fn by_worker(
    alloc: Global,
    state: &mut State,
    worker: u64,
    call: &Call,
) -> Result<Answered, Refusal>
    requires room { HasRoom state.old.store }
    requires sound { IsSound state.old }
    ensures ok { IfOk result (λ t. by_worker state.old worker call.now ≡ handled t state.new) }
    ensures err { OnErr result (state.new ≡ state.old) }
    ensures memory { IfErr result (λ e. e ≡ OutOfMemory) }
{
    match call {
        Call::Take => take(alloc, state, worker),
        Call::SeeCron => see_cron(alloc, state, worker),
        Call::SeeJobs => see_jobs(alloc, state, worker),
        Call::SeeActive => see_active(alloc, state, worker),
        Call::Claim(plan) => claim(alloc, state, worker, plan),
        Call::DropNext => drop_next(alloc, state, worker),
        Call::MakeNext => make_next(alloc, state, worker),
        Call::SetStatus => set_status(alloc, state, worker),
        Call::Finish(end, _) => finish(alloc, state, worker, *end),
        _ => refused(alloc, Refusal::NotPermitted),
    }
}
