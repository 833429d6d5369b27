ghost use Rattle.std.specs.Prelude.{◌≡◌, ◌++◌, ◌∷◌, [], map, IfOk, IfErr, OnOk};
ghost use Rattle.cj_base.specs.declared.refusal.Refusal.TheVariants.{OutOfMemory};
ghost use Rattle.cj_state.specs.phases.Steps.{all_steps};
ghost use Rattle.cj_types.specs.declared.policy.Reason.TheVariants.{FailedCreate};
ghost use Rattle.cj_worker.specs.Outlines.{IsOutline, drops_of, next_of, one_if};

use cj_base::all_four;
use cj_decide::{JobRef, Plan, Steps};
use cj_types::{Reason, Reasons, Refusal, TryCopy};
use std::alloc::Global;

/// What one step of a plan is.
#[derive(Clone, Copy, PartialEq, Eq, Debug)]
pub(crate) enum Next {
    Drop,
    Make,
    Status,
}

/// What a plan asks for after its claim: its steps in order, and the reasons for each way to end.
/// All of it is grown before the claim, so that nothing after it takes memory.
#[derive(Drop)]
pub(crate) struct Outline {
    pub(crate) steps: Vec<Next>,
    /// Where all went well.
    pub(crate) done: Reasons,
    /// Where something was refused.
    pub(crate) retry: Reasons,
    /// Where the Job could not be made.
    pub(crate) failed: Reasons,
}

fn push_one(steps: &mut Vec<Next>, next: Next) -> Result<(), Refusal>
    ensures ok { OnOk result (steps.new.items ≡ steps.old.items ++ next ∷ []) }
    ensures memory { IfErr result (λ e. e ≡ OutOfMemory) }
{
    match steps.push(next) {
        Ok(()) => Ok(()),
        Err(_) => Err(Refusal::OutOfMemory),
    }
}

fn push_if(steps: &mut Vec<Next>, is_there: bool, next: Next) -> Result<(), Refusal>
    ensures ok { OnOk result (steps.new.items ≡ steps.old.items ++ one_if is_there next) }
    ensures memory { IfErr result (λ e. e ≡ OutOfMemory) }
{
    if is_there {
        push_one(steps, next)
    } else {
        Ok(())
    }
}

fn push_drops(steps: &mut Vec<Next>, jobs: &[JobRef]) -> Result<(), Refusal>
    ensures ok { OnOk result (steps.new.items ≡ steps.old.items ++ drops_of jobs.now) }
    ensures memory { IfErr result (λ e. e ≡ OutOfMemory) }
{
    for _job in jobs {
        push_one(steps, Next::Drop)?;
    }
    Ok(())
}

fn steps_of(alloc: Global, plan: &Steps) -> Result<Vec<Next>, Refusal>
    ensures ok { IfOk result (λ v. v.items ≡ map next_of (all_steps plan.now)) }
    ensures memory { IfErr result (λ e. e ≡ OutOfMemory) }
{
    let mut steps = Vec::new(alloc);
    push_drops(&mut steps, plan.drop_first.as_slice())?;
    push_if(&mut steps, plan.make.is_some(), Next::Make)?;
    push_drops(&mut steps, plan.cleanup.as_slice())?;
    push_if(&mut steps, plan.status.is_some(), Next::Status)?;
    Ok(steps)
}

// The reasons where the Job could not be made.
fn failed_with(alloc: Global, reasons: &Reasons) -> Result<Reasons, Refusal>
    ensures ok { IfOk result (λ r. r ≡ reasons.now ++ FailedCreate ∷ []) }
    ensures memory { IfErr result (λ e. e ≡ OutOfMemory) }
{
    let mut failed = reasons.try_copy(alloc)?;
    failed.push(Reason::FailedCreate)?;
    Ok(failed)
}

impl Outline {
    /// The outline of a plan.
    pub(crate) fn of(alloc: Global, plan: &Plan) -> Result<Outline, Refusal>
        ensures ok { IfOk result (IsOutline plan.now) }
        ensures memory { IfErr result (λ e. e ≡ OutOfMemory) }
    {
        let reasons = &plan.steps().reasons;
        let (steps, done, retry, failed) = all_four(
            steps_of(alloc, plan.steps()),
            reasons.try_copy(alloc),
            reasons.try_copy(alloc),
            failed_with(alloc, reasons),
        )?;
        Ok(Outline {
            steps,
            done,
            retry,
            failed,
        })
    }
}
