ghost use Rattle.std.specs.Prelude.{◌≡◌, ◌≢◌, IfOk, IfErr, Ok, Err};
ghost use Rattle.cj_base.specs.declared.refusal.Refusal.TheVariants.{OutOfMemory};
ghost use Rattle.cj_state.specs.WorkerCalls.{object_reply, event_reply};

use cj_calls::{Answered, Reply};
use cj_types::{Event, Object, Refusal, TryCopy};
use std::alloc::Global;

/// A refusal as an answer. Want of memory is none.
pub fn refused(alloc: Global, refusal: Refusal) -> Result<Answered, Refusal>
    ensures ok { IfOk result (λ t. t ≡ Err refusal) }
    ensures entered { IfOk result (λ t. refusal ≢ OutOfMemory) }
    ensures err { IfErr result (λ e. e ≡ OutOfMemory) }
{
    if let Refusal::OutOfMemory = refusal {
        return Err(Refusal::OutOfMemory);
    }
    Answered::new(alloc, Err(refusal))
}

fn object_reply(alloc: Global, object: &Object) -> Result<Reply, Refusal>
    ensures ok { IfOk result (λ r. r ≡ object_reply object.now) }
    ensures err { IfErr result (λ e. e ≡ OutOfMemory) }
{
    match object {
        Object::Cron(cron) => Ok(Reply::Cron(cron.try_copy(alloc)?)),
        Object::Job(job) => Ok(Reply::Job(job.try_copy(alloc)?)),
    }
}

fn event_reply(alloc: Global, event: &Event) -> Result<Reply, Refusal>
    ensures ok { IfOk result (λ r. r ≡ event_reply event.now) }
    ensures err { IfErr result (λ e. e ≡ OutOfMemory) }
{
    match event {
        Event::Added(object) => object_reply(alloc, object),
        Event::Modified(object) => object_reply(alloc, object),
        Event::Deleted(object) => object_reply(alloc, object),
    }
}

/// The object that a write leaves, as its answer.
pub fn event_answer(alloc: Global, event: &Event) -> Result<Answered, Refusal>
    ensures ok { IfOk result (λ t. t ≡ Ok (event_reply event.now)) }
    ensures err { IfErr result (λ e. e ≡ OutOfMemory) }
{
    Answered::new(alloc, Ok(event_reply(alloc, event)?))
}
