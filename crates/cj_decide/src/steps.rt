ghost use Rattle.std.specs.Prelude.{◌≡◌, [], IfOk, IfErr, option_map, option_copied, if◌then◌else◌};
ghost use Rattle.cj_base.specs.declared.refusal.Refusal.TheVariants.{OutOfMemory};
ghost use Rattle.cj_decide.specs.Decision.{claim_by, reasons_of, running_of, AreSteps, clearing, IsDecision, IsPlan};
ghost use Rattle.cj_decide.specs.Finally.{cleanup_of, standing, final, IsStatusStep};
ghost use Rattle.cj_decide.specs.Start.{draft_of};

use crate::finally::{cleanup, final_step};
use crate::start::{Claim, claim_at, make_at};
use crate::start_decision::{StartDecision, decide_start};
use cj_base::{all_three, both};
use cj_status::{JobRefs, Sorting, listed, running_found};
use cj_types::{
    CronJob, CronStatus, Job, JobDraft, Reason, Reasons, Refusal, Same, Seconds, Shared, TryCopy,
};
use cj_zone::Zone;
use std::alloc::Global;

/// The steps of a sync, in the order of the fields; each may be missing.
#[derive(Debug)]
pub struct Steps {
    /// The conditional update of the CronJob's status.
    pub claim: Option<Claim>,
    /// The Jobs that are deleted before the new one is created.
    pub drop_first: JobRefs,
    pub make: Option<JobDraft>,
    /// The Jobs that are deleted after it.
    pub cleanup: JobRefs,
    /// The CronJob's status at the end, if it differs from the status before it.
    pub status: Option<CronStatus>,
    /// Why no Job was started, or that many times were missed.
    pub reasons: Reasons,
    /// When to sync again.
    pub next: Option<Seconds>,
}

impl Drop for Steps {
    fn drop(self) {
        let Steps {
            claim: _,
            drop_first,
            make: _,
            cleanup,
            status: _,
            reasons,
            next: _,
        } = self;
        drop(drop_first);
        drop(cleanup);
        drop(reasons);
    }
}

impl TryCopy for Steps {
    fn try_copy(&self, alloc: Global) -> Result<Steps, Refusal> {
        let ((claim, drop_first, make), (cleanup, status, reasons)) = both(
            all_three(
                self.claim.try_copy(alloc),
                self.drop_first.try_copy(alloc),
                self.make.try_copy(alloc),
            ),
            all_three(
                self.cleanup.try_copy(alloc),
                self.status.try_copy(alloc),
                self.reasons.try_copy(alloc),
            ),
        )?;
        Ok(Steps {
            claim,
            drop_first,
            make,
            cleanup,
            status,
            reasons,
            next: self.next,
        })
    }
}

impl Same for Steps {
    fn same(&self, other: &Steps) -> bool {
        let claim = self.claim.same(&other.claim);
        let drop_first = self.drop_first.same(&other.drop_first);
        let make = self.make.same(&other.make);
        let cleanup = self.cleanup.same(&other.cleanup);
        let status = self.status.same(&other.status);
        let reasons = self.reasons.same(&other.reasons);
        let next = self.next == other.next;
        claim && drop_first && make && cleanup && status && reasons && next
    }
}

fn drops(alloc: Global, running: JobRefs, replaces: bool) -> JobRefs
    ensures { result ≡ if replaces then running else [] }
{
    if replaces {
        running
    } else {
        JobRefs::new(alloc)
    }
}

fn reasons(alloc: Global, start: StartDecision) -> Result<Reasons, Refusal>
    ensures ok { IfOk result (λ r. r ≡ reasons_of start) }
    ensures err { IfErr result (λ e. e ≡ OutOfMemory) }
{
    let mut reasons = Reasons::new(alloc);
    if start.is_late {
        reasons.push(Reason::TooManyMissedTimes)?;
    }
    if let Some(reason) = start.reason {
        reasons.push(reason)?;
    }
    Ok(reasons)
}

// The claim of a start decision, and the status at the end.
fn claim_and_status(
    alloc: Global,
    cron: &CronJob,
    jobs: &[Shared<Job>],
    found: &[Option<Shared<Job>>],
    start: &StartDecision,
) -> Result<(Option<Claim>, Option<CronStatus>), Refusal>
    ensures claim { IfOk result (λ p. p.0 ≡ claim_by cron.now start.now) }
    ensures status { IfOk result (λ p. IsStatusStep
        (standing cron.now (claim_by cron.now start.now))
        (final cron.now jobs.now found.now start.now (claim_by cron.now start.now)) p.1) }
    ensures err { IfErr result (λ e. e ≡ OutOfMemory) }
{
    let claim = claim_at(alloc, cron, start.time)?;
    let status = final_step(alloc, cron, jobs, found, *start, &claim)?;
    Ok((claim, status))
}

// The Job that is created, the Jobs that are deleted after it, and the reasons.
fn make_and_cleanup(
    alloc: Global,
    cron: &CronJob,
    jobs: &[Shared<Job>],
    start: &StartDecision,
) -> Result<(Option<JobDraft>, JobRefs, Reasons), Refusal>
    ensures make { IfOk result (λ p. p.0 ≡ option_map (draft_of cron.now) start.now.time) }
    ensures cleanup { IfOk result (λ p. p.1 ≡ cleanup_of cron.now jobs.now) }
    ensures reasons { IfOk result (λ p. p.2 ≡ reasons_of start.now) }
    ensures err { IfErr result (λ e. e ≡ OutOfMemory) }
{
    all_three(
        make_at(alloc, cron, start.time),
        cleanup(alloc, cron, jobs),
        reasons(alloc, *start),
    )
}

// The steps of a start decision on a CronJob, of which the given Jobs run.
fn steps_of(
    alloc: Global,
    cron: &CronJob,
    jobs: &[Shared<Job>],
    found: &[Option<Shared<Job>>],
    running: JobRefs,
    start: StartDecision,
) -> Result<Steps, Refusal>
    requires running { running ≡ running_of cron.now found.now }
    ensures ok { IfOk result (λ s. AreSteps cron.now jobs.now found.now start s) }
    ensures err { IfErr result (λ e. e ≡ OutOfMemory) }
{
    let (claim, status) = claim_and_status(alloc, cron, jobs, found, &start)?;
    let (make, cleanup, reasons) = make_and_cleanup(alloc, cron, jobs, &start)?;
    Ok(Steps {
        claim,
        drop_first: drops(alloc, running, start.replaces),
        make,
        cleanup,
        status,
        reasons,
        next: start.next,
    })
}

fn decision(
    alloc: Global,
    cron: &CronJob,
    jobs: &[Shared<Job>],
    found: &[Option<Shared<Job>>],
    now: Seconds,
    zone: Option<&Zone>,
) -> Result<Steps, Refusal>
    ensures ok { IfOk result (λ s. IsDecision cron.now jobs.now found.now now
        (option_copied zone.entry) s) }
    ensures err { IfErr result (λ e. e ≡ OutOfMemory) }
{
    let running = running_found(alloc, &cron.meta.uid, found)?;
    let start = decide_start(cron, zone, running.has_any(), now);
    steps_of(alloc, cron, jobs, found, running, start)
}

// The steps without a CronJob: all listed Jobs are deleted.
fn clearing(alloc: Global, jobs: &[Shared<Job>]) -> Result<Steps, Refusal>
    ensures ok { IfOk result (λ s. s ≡ clearing jobs.now) }
    ensures err { IfErr result (λ e. e ≡ OutOfMemory) }
{
    let cleanup = listed(alloc, Sorting::ByName, jobs)?;
    Ok(Steps {
        claim: None,
        drop_first: JobRefs::new(alloc),
        make: None,
        cleanup,
        status: None,
        reasons: Reasons::new(alloc),
        next: None,
    })
}

/// The steps of the sync with these inputs.
pub(crate) fn plan_steps(
    alloc: Global,
    cron: Option<&CronJob>,
    jobs: &[Shared<Job>],
    found: &[Option<Shared<Job>>],
    now: Seconds,
    zone: Option<&Zone>,
) -> Result<Steps, Refusal>
    ensures ok { IfOk result (λ s. IsPlan (option_copied cron.entry) jobs.now found.now now
        (option_copied zone.entry) s) }
    ensures err { IfErr result (λ e. e ≡ OutOfMemory) }
{
    match cron {
        None => clearing(alloc, jobs),
        Some(cron) => decision(alloc, cron, jobs, found, now, zone),
    }
}
