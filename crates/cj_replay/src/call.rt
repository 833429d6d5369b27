// The call of a step.
ghost use Rattle.std.specs.Prelude.{◌≡◌, IfOk, IfErr, option_copied};
ghost use Rattle.cj_base.specs.declared.refusal.Refusal.TheVariants.{OutOfMemory};
ghost use Rattle.cj_script.specs.operations.Calls.{IsCallOf};
ghost use Rattle.cj_replay.specs.Runs.{job_at, job_for, sync_after};

use cj_calls::Call;
use cj_script::{Operation, Step, call_of};
use cj_state::InFlight;
use cj_types::{Heap, Job, Refusal, Shared};
use cj_world::World;
use cj_zone::ZoneTable;
use std::alloc::Global;

// The Job that an operation ends, if there is one at its key.
fn job_of<'w>(world: &'w World, operation: &Operation) -> Option<&'w Shared<Job>>
    ensures { option_copied result
        ≡ job_for (job_at world.now.limits.window world.now.history) operation.now }
{
    match operation {
        Operation::Ends(key, _, _) => world.job(key),
        _ => None,
    }
}

// The call of an operation of a caller with this sync, after the world's history.
#[tactic(auto, using(crate::proofs::Called::called))]
fn call_after(
    alloc: Global,
    zones: &ZoneTable,
    world: &World,
    sync: Option<&InFlight>,
    operation: &Operation,
) -> Result<Call, Refusal>
    ensures ok { IfOk result (IsCallOf zones.now (option_copied sync.entry)
        (job_at world.now.limits.window world.now.history) operation.now) }
    ensures err { IfErr result (λ e. e ≡ OutOfMemory) }
{
    let job = job_of(world, operation);
    call_of(alloc, zones, sync, job, operation)
}

/// The call of a step after the world's history.
pub(crate) fn step_call(
    alloc: Global,
    zones: &ZoneTable,
    world: &World,
    step: &Step,
) -> Result<Heap<Call>, Refusal>
    ensures ok { IfOk result (IsCallOf zones.now
        (sync_after world.now.limits.window world.now.history step.now.caller.number)
        (job_at world.now.limits.window world.now.history) step.now.operation) }
    ensures err { IfErr result (λ e. e ≡ OutOfMemory) }
{
    let sync = world.sync(step.caller.number);
    let call = call_after(alloc, zones, world, sync, &step.operation)?;
    Heap::new(alloc, call)
}
