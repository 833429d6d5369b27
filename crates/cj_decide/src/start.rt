// The steps for the time that is claimed.
ghost use Rattle.std.specs.Prelude.{◌≡◌, IfOk, IfErr, option_map};
ghost use Rattle.cj_base.specs.declared.refusal.Refusal.TheVariants.{OutOfMemory};
ghost use Rattle.cj_decide.specs.Start.{claimed, claim_of, draft_of};

use cj_status::names_with;
use cj_types::{CronJob, CronStatus, JobDraft, Refusal, Same, Seconds, TryCopy};
use cj_zone::time_text;
use std::alloc::Global;

/// The scheduled time that is claimed, and the status that claims it.
#[derive(Debug)]
pub struct Claim {
    pub time: Seconds,
    pub status: CronStatus,
}

impl Drop for Claim {
    fn drop(self) {
        let Claim { time: _, status } = self;
        drop(status);
    }
}

impl TryCopy for Claim {
    fn try_copy(&self, alloc: Global) -> Result<Claim, Refusal> {
        Ok(Claim {
            time: self.time,
            status: self.status.try_copy(alloc)?,
        })
    }
}

impl Same for Claim {
    fn same(&self, other: &Claim) -> bool {
        let time = self.time == other.time;
        let status = self.status.same(&other.status);
        time && status
    }
}

fn claimed(alloc: Global, cron: &CronJob, time: Seconds) -> Result<CronStatus, Refusal>
    ensures ok { IfOk result (λ s. s ≡ claimed cron.now time) }
    ensures err { IfErr result (λ e. e ≡ OutOfMemory) }
{
    let made = cron.key.job_key(alloc, time)?;
    Ok(CronStatus {
        active: names_with(alloc, &cron.status.active, &made)?,
        last_schedule_time: Some(time),
        last_successful_time: cron.status.last_successful_time,
    })
}

pub(crate) fn claim_at(
    alloc: Global,
    cron: &CronJob,
    start: Option<Seconds>,
) -> Result<Option<Claim>, Refusal>
    ensures ok { IfOk result (λ c. c ≡ option_map (claim_of cron.now) start) }
    ensures err { IfErr result (λ e. e ≡ OutOfMemory) }
{
    match start {
        None => Ok(None),
        Some(time) => Ok(Some(Claim {
            time,
            status: claimed(alloc, cron, time)?,
        })),
    }
}

fn draft(alloc: Global, cron: &CronJob, time: Seconds) -> Result<JobDraft, Refusal>
    ensures ok { IfOk result (λ d. d ≡ draft_of cron.now time) }
    ensures err { IfErr result (λ e. e ≡ OutOfMemory) }
{
    let text = time_text(alloc, time)?;
    cron.job_for(alloc, time, text.as_str())
}

pub(crate) fn make_at(
    alloc: Global,
    cron: &CronJob,
    start: Option<Seconds>,
) -> Result<Option<JobDraft>, Refusal>
    ensures ok { IfOk result (λ d. d ≡ option_map (draft_of cron.now) start) }
    ensures err { IfErr result (λ e. e ≡ OutOfMemory) }
{
    match start {
        None => Ok(None),
        Some(time) => Ok(Some(draft(alloc, cron, time)?)),
    }
}
