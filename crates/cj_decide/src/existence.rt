// There is a plan for every input.
ghost use Rattle.std.specs.Prelude.{Some, true, false, option_copied};
ghost use Rattle.cj_decide.specs.declared.steps.Steps.{Steps};
ghost use Rattle.cj_decide.specs.Decision.{IsPlan};
ghost use Rattle.cj_decide.specs.StartDecisions.{IsStartDecision};

use crate::start_decision::{StartDecision, decide_start};
use cj_types::{CronJob, Job, Seconds, Shared};
use cj_zone::Zone;

// The start decision where a Job of the CronJob runs, and where none does.
fn start_decisions(
    cron: &CronJob,
    zone: Option<&Zone>,
    now: Seconds,
) -> (StartDecision, StartDecision)
    ensures busy { IsStartDecision cron.now (option_copied zone.entry) true now result.0 }
    ensures idle { IsStartDecision cron.now (option_copied zone.entry) false now result.1 }
{
    let busy = decide_start(cron, zone, true, now);
    let idle = decide_start(cron, zone, false, now);
    (busy, idle)
}

/// Every CronJob has a plan: whatever is listed and found, at every moment, and whether its zone is
/// known or not, there are steps that are the plan. Without a CronJob the definition itself gives
/// the plan.
pub fn plan_exists(
    cron: &CronJob,
    jobs: &[Shared<Job>],
    found: &[Option<Shared<Job>>],
    now: Seconds,
    zone: Option<&Zone>,
)
    ensures { (steps : Steps) × IsPlan (Some cron.now) jobs.now found.now now
        (option_copied zone.entry) steps }
{
    let _decisions = start_decisions(cron, zone, now);
}
