// The steps after the start: the Jobs that are cleaned up, and the status at the end.
ghost use Rattle.std.specs.Prelude.{◌≡◌, IfOk, IfErr};
ghost use Rattle.cj_base.specs.declared.refusal.Refusal.TheVariants.{OutOfMemory};
ghost use Rattle.cj_decide.specs.Finally.{with_made, active_after, standing, final, IsStatusStep, cleanup_of};

use crate::start::Claim;
use crate::start_decision::StartDecision;
use cj_status::{
    HistoryLimits, JobRefs, Pick, Sorting, last_success, names_with, picked, still_active, surplus,
};
use cj_types::{CronJob, CronStatus, Job, Names, Refusal, Same, Seconds, Shared};
use std::alloc::Global;

// The names with that of the Job that is created, if there is one.
fn with_made(
    alloc: Global,
    cron: &CronJob,
    start: Option<Seconds>,
    others: Names,
) -> Result<Names, Refusal>
    ensures ok { IfOk result (λ n. n ≡ with_made cron.now start others) }
    ensures err { IfErr result (λ e. e ≡ OutOfMemory) }
{
    match start {
        None => Ok(others),
        Some(time) => {
            let made = cron.key.job_key(alloc, time)?;
            names_with(alloc, &others, &made)
        }
    }
}

fn active_after(
    alloc: Global,
    cron: &CronJob,
    found: &[Option<Shared<Job>>],
    start: StartDecision,
) -> Result<Names, Refusal>
    ensures ok { IfOk result (λ n. n ≡ active_after cron.now found.now start) }
    ensures err { IfErr result (λ e. e ≡ OutOfMemory) }
{
    let others = if start.replaces {
        Names::new(alloc)
    } else {
        still_active(alloc, &cron.meta.uid, &cron.status.active, found)?
    };
    with_made(alloc, cron, start.time, others)
}

// The status before the end: the claim's, or else the CronJob's.
fn standing<'a>(cron: &'a CronJob, claim: &'a Option<Claim>) -> &'a CronStatus
    ensures { result.now ≡ standing cron.now claim.now }
{
    match claim {
        Some(claim) => &claim.status,
        None => &cron.status,
    }
}

// The status as a step, unless it changes nothing.
fn changed(old: &CronStatus, new: CronStatus) -> Option<CronStatus>
    ensures { IsStatusStep old.now new result }
{
    if new.same(old) { None } else { Some(new) }
}

/// The status at the end, if it differs from the status before it.
pub(crate) fn final_step(
    alloc: Global,
    cron: &CronJob,
    jobs: &[Shared<Job>],
    found: &[Option<Shared<Job>>],
    start: StartDecision,
    claim: &Option<Claim>,
) -> Result<Option<CronStatus>, Refusal>
    ensures ok { IfOk result (λ s. IsStatusStep (standing cron.now claim.now)
        (final cron.now jobs.now found.now start claim.now) s) }
    ensures err { IfErr result (λ e. e ≡ OutOfMemory) }
{
    let old = standing(cron, claim);
    let active = active_after(alloc, cron, found, start)?;
    let new = CronStatus {
        active,
        last_schedule_time: old.last_schedule_time,
        last_successful_time: last_success(cron.status.last_successful_time, jobs, &cron.meta.uid),
    };
    Ok(changed(old, new))
}

/// The listed Jobs that aren't the CronJob's, by name, then the finished ones that it no longer
/// keeps.
pub(crate) fn cleanup(
    alloc: Global,
    cron: &CronJob,
    jobs: &[Shared<Job>],
) -> Result<JobRefs, Refusal>
    ensures ok { IfOk result (λ r. r ≡ cleanup_of cron.now jobs.now) }
    ensures err { IfErr result (λ e. e ≡ OutOfMemory) }
{
    let mut all = picked(alloc, Pick::Foreign, Sorting::ByName, &cron.meta.uid, jobs)?;
    let spec = cron.spec.get();
    let limits = HistoryLimits {
        successful: spec.successful_limit,
        failed: spec.failed_limit,
    };
    let finished = surplus(alloc, limits, &cron.meta.uid, jobs)?;
    all.append(finished)?;
    Ok(all)
}
