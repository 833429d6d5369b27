// The call at the place of a step.
use crate::boxed::boxed;
use cj_calls::Call;
use cj_script::{Operation, Step, call_of, key_of};
use cj_types::{Job, Key, Refusal, Shared};
use cj_world::World;
use cj_zone::ZoneTable;
use std::alloc::Global;

/// Which call is made at the place of a step, by the step's caller: `step`, its own; `seenBy`, its
/// own for what the worker of the number has seen; or `getCron`, `getJob`, `listCrons` or
/// `listJobs` in place of it. The detail is the number, or the key.
#[derive(Clone, Copy)]
pub struct Ask<'a> {
    pub call: &'a str,
    pub detail: &'a str,
}

// The Job that an operation ends, if there is one at its key.
fn job_of<'w>(world: &'w World, operation: &Operation) -> Option<&'w Shared<Job>> {
    match operation {
        Operation::Ends(key, _, _) => world.job(key),
        _ => None,
    }
}

// The call of the step for how far the sync of the worker of the number has come.
fn call_for(
    alloc: Global,
    zones: &ZoneTable,
    world: &World,
    number: u64,
    step: &Step,
) -> Result<Box<Call, Global>, Refusal> {
    let job = job_of(world, &step.operation);
    let call = call_of(alloc, zones, world.sync(number), job, &step.operation)?;
    boxed(alloc, call)
}

/// The step's own call.
pub fn step_call(
    alloc: Global,
    zones: &ZoneTable,
    world: &World,
    step: &Step,
) -> Result<Box<Call, Global>, Refusal> {
    call_for(alloc, zones, world, step.caller.number, step)
}

fn key_in(alloc: Global, text: &str) -> Result<Key, Refusal> {
    key_of(alloc, text)?.ok_or(Refusal::Syntax)
}

// The reading that is asked for.
fn reading(alloc: Global, ask: &Ask<'_>) -> Result<Box<Call, Global>, Refusal> {
    let call = match ask.call {
        "getCron" => Call::GetCron(key_in(alloc, ask.detail)?),
        "getJob" => Call::GetJob(key_in(alloc, ask.detail)?),
        "listCrons" => Call::ListCrons,
        "listJobs" => Call::ListJobs,
        _ => return Err(Refusal::Syntax),
    };
    boxed(alloc, call)
}

/// The call that is asked for at the place of the step.
pub fn asked_call(
    alloc: Global,
    zones: &ZoneTable,
    world: &World,
    ask: &Ask<'_>,
    step: &Step,
) -> Result<Box<Call, Global>, Refusal> {
    match ask.call {
        "step" => step_call(alloc, zones, world, step),
        "seenBy" => {
            let number = ask.detail.parse::<u64>().map_err(|_| Refusal::Syntax)?;
            call_for(alloc, zones, world, number, step)
        }
        _ => reading(alloc, ask),
    }
}
