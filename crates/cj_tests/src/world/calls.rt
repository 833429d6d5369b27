// The call of a step.
use cj_calls::Call;
use cj_decide::{Plan, decide};
use cj_script::Operation;
use cj_types::{Job, Key, Listing, Outcome, Reasons, Refusal, Seconds, Shared, TryCopy, Uid};
use std::alloc::Global;

// The plan of a worker that saw nothing.
fn plan_of_nothing(alloc: Global, now: Seconds) -> Result<Shared<Plan>, Refusal> {
    let jobs: Listing<Shared<Job>> = Listing::new(alloc, Vec::new(alloc))?;
    let active: Listing<Option<Shared<Job>>> = Listing::new(alloc, Vec::new(alloc))?;
    Shared::new(alloc, decide(alloc, None, jobs, active, now, None)?)
}

// The end of the second object that was created.
fn end(alloc: Global, key: &Key, outcome: Outcome, at: Seconds) -> Result<Call, Refusal> {
    let uid = Uid::new(2).ok_or(Refusal::Syntax)?;
    Ok(Call::EndJob(key.try_copy(alloc)?, uid, outcome, at))
}

/// The call of a step. A claim is of the plan for nothing seen, and a Job that ends is the second
/// object that was created.
pub fn call_of(alloc: Global, operation: &Operation) -> Result<Call, Refusal> {
    match operation {
        Operation::Calls(call) => call.try_copy(alloc),
        Operation::Ends(key, outcome, at) => end(alloc, key, *outcome, *at),
        Operation::Claims(at) => Ok(Call::Claim(plan_of_nothing(alloc, *at)?)),
        Operation::Closes(end) => Ok(Call::Finish(*end, Reasons::new(alloc))),
    }
}
