// The call of an operation.
ghost use Rattle.std.specs.Prelude.{◌≡◌, IfOk, IfErr, option_copied};
ghost use Rattle.cj_base.specs.declared.refusal.Refusal.TheVariants.{OutOfMemory};
ghost use Rattle.cj_calls.specs.declared.call.Call.TheVariants.{Finish};
ghost use Rattle.cj_script.specs.operations.Plans.{inputs_of, reasons_of};
ghost use Rattle.cj_script.specs.operations.Calls.{IsCallOf, IsClaim, IsEnd, IsUidOf, IsUnseenCall};

use crate::operations::operation::Operation;
use crate::operations::plan::{plan_for, reasons_for};
use cj_calls::{Call, End};
use cj_state::InFlight;
use cj_types::{Job, Key, Outcome, Refusal, Seconds, Shared, TryCopy, Uid};
use cj_zone::ZoneTable;
use std::alloc::Global;

fn first_uid() -> Uid {
    Uid::new(1).unwrap()
}

fn uid_of(job: Option<&Shared<Job>>) -> Uid
    ensures { IsUidOf (option_copied job.entry) result }
{
    match job {
        Some(job) => job.get().meta.uid,
        None => first_uid(),
    }
}

// The end of the Job at the key, or of any Job where there is none.
fn end_call(
    alloc: Global,
    job: Option<&Shared<Job>>,
    key: &Key,
    outcome: Outcome,
    at: Seconds,
) -> Result<Call, Refusal>
    ensures ok { IfOk result (IsEnd (option_copied job.entry) key.now outcome at) }
    ensures err { IfErr result (λ e. e ≡ OutOfMemory) }
{
    let uid = uid_of(job);
    Ok(Call::EndJob(key.try_copy(alloc)?, uid, outcome, at))
}

fn claim_call(
    alloc: Global,
    zones: &ZoneTable,
    sync: Option<&InFlight>,
    at: Seconds,
) -> Result<Call, Refusal>
    ensures ok { IfOk result (IsClaim zones.now (inputs_of (option_copied sync.entry)) at) }
    ensures err { IfErr result (λ e. e ≡ OutOfMemory) }
{
    let plan = plan_for(alloc, zones, sync, at)?;
    Ok(Call::Claim(Shared::new(alloc, plan)?))
}

fn finish_call(alloc: Global, sync: Option<&InFlight>, end: End) -> Result<Call, Refusal>
    ensures ok { IfOk result (λ call. call ≡ Finish end (reasons_of (option_copied sync.entry))) }
    ensures err { IfErr result (λ e. e ≡ OutOfMemory) }
{
    Ok(Call::Finish(end, reasons_for(alloc, sync)?))
}

/// The call of an operation of a caller, by how far its sync has come, if it has one. The Job is
/// the one at the key of an end; none where there is no such Job.
pub fn call_of(
    alloc: Global,
    zones: &ZoneTable,
    sync: Option<&InFlight>,
    job: Option<&Shared<Job>>,
    operation: &Operation,
) -> Result<Call, Refusal>
    ensures ok { IfOk result (IsCallOf zones.now (option_copied sync.entry)
        (λ _. option_copied job.entry) operation.now) }
    ensures err { IfErr result (λ e. e ≡ OutOfMemory) }
{
    match operation {
        Operation::Calls(call) => call.try_copy(alloc),
        Operation::Ends(key, outcome, at) => end_call(alloc, job, key, *outcome, *at),
        Operation::Claims(at) => claim_call(alloc, zones, sync, *at),
        Operation::Closes(end) => finish_call(alloc, sync, *end),
    }
}

/// The call of an operation of a caller that has no sync and knows of no Job.
pub fn unseen_call(alloc: Global, zones: &ZoneTable, operation: &Operation) -> Result<Call, Refusal>
    ensures ok { IfOk result (IsUnseenCall zones.now operation.now) }
    ensures err { IfErr result (λ e. e ≡ OutOfMemory) }
{
    call_of(alloc, zones, None, None, operation)
}
