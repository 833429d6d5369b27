ghost use Rattle.std.specs.Prelude.{◌≡◌, ◌+◌, IfOk, IfErr, OnOk, OnErr, Ok};
ghost use Rattle.cj_store.specs.Content.{HasRoom};
ghost use Rattle.cj_base.specs.declared.refusal.Refusal.TheVariants.{OutOfMemory};
ghost use Rattle.cj_store.specs.Change.{IsFor};
ghost use Rattle.cj_types.specs.Events.{version_of};
ghost use Rattle.cj_state.specs.WorkerCalls.{event_reply, version_reply, written};

use cj_calls::{Answered, Reply};
use cj_state::{State, event_answer};
use cj_store::Change;
use cj_types::Refusal;
use std::alloc::Global;

/// Makes a write that was planned, and answers the object that it leaves.
pub(crate) fn write_object(
    alloc: Global,
    state: &mut State,
    change: Change,
) -> Result<Answered, Refusal>
    requires room { HasRoom state.old.store }
    requires planned { IsFor state.old.store change }
    requires numbered { version_of change.event ≡ state.old.watch.count + 1 }
    ensures answer { IfOk result (λ t. t ≡ Ok (event_reply change.event)) }
    ensures ok { OnOk result (state.new ≡ written state.old change.event) }
    ensures err { OnErr result (state.new ≡ state.old) }
    ensures memory { IfErr result (λ e. e ≡ OutOfMemory) }
{
    let answer = event_answer(alloc, change.event())?;
    state.write_answered(alloc, change, answer)
}

/// Makes a deletion that was planned, and answers its version.
pub(crate) fn write_deletion(
    alloc: Global,
    state: &mut State,
    change: Change,
) -> Result<Answered, Refusal>
    requires room { HasRoom state.old.store }
    requires planned { IsFor state.old.store change }
    requires numbered { version_of change.event ≡ state.old.watch.count + 1 }
    ensures answer { IfOk result (λ t. t ≡ Ok (version_reply change.event)) }
    ensures ok { OnOk result (state.new ≡ written state.old change.event) }
    ensures err { OnErr result (state.new ≡ state.old) }
    ensures memory { IfErr result (λ e. e ≡ OutOfMemory) }
{
    let reply = Reply::Version(change.event().version());
    let answer = Answered::new(alloc, Ok(reply))?;
    state.write_answered(alloc, change, answer)
}
