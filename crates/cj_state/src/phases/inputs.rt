ghost use Rattle.std.specs.Prelude.{◌≡◌};
ghost use Rattle.cj_state.specs.phases.Inputs.{same_cron, same_jobs, same_active, rests_on};

use cj_decide::Plan;
use cj_types::{CronJob, Job, Same, Shared, same_all};

#[tactic(auto, using(cj_store::proofs::Codes::told))]
fn is_same_cron(a: &Option<Shared<CronJob>>, b: &Option<Shared<CronJob>>) -> bool
    ensures { result ≡ same_cron a.now b.now }
{
    a.same(b)
}

#[tactic(auto, using(cj_store::proofs::Codes::told))]
fn are_same_jobs(a: &[Shared<Job>], b: &[Shared<Job>]) -> bool
    ensures { result ≡ same_jobs a.now b.now }
{
    same_all(a, b)
}

#[tactic(auto, using(cj_store::proofs::Codes::told))]
fn are_same_active(a: &[Option<Shared<Job>>], b: &[Option<Shared<Job>>]) -> bool
    ensures { result ≡ same_active a.now b.now }
{
    same_all(a, b)
}

/// Whether the plan rests on just these answers.
#[tactic(auto, unfolding(crate::specs::phases::Inputs::rests_on))]
pub fn rests_on(
    plan: &Plan,
    cron: &Option<Shared<CronJob>>,
    jobs: &[Shared<Job>],
    active: &[Option<Shared<Job>>],
) -> bool
    ensures { result ≡ rests_on plan.now cron.now jobs.now active.now }
{
    let cron = is_same_cron(plan.cron(), cron);
    let jobs = are_same_jobs(plan.jobs(), jobs);
    let active = are_same_active(plan.active(), active);
    cron && jobs && active
}
