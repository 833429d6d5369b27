// The objects of a scenario.
ghost use Rattle.std.specs.Prelude.{◌≡◌, ◌≤◌, map, IfOk, IfErr};
ghost use Rattle.cj_types.specs.Uids.{last_uid};
ghost use Rattle.cj_scenario.specs.Made as made;
ghost use Rattle.cj_scenario.specs.declared.fault.SceneFault.TheVariants.{Memory};

use crate::fault::SceneFault;
use crate::given::GivenJob;
use cj_types::{
    CronJob, CronJobDraft, CronStatus, DraftMeta, Job, JobDraft, Meta, Names, Seconds, Shared, Uid,
    Version,
};
use cj_zone::time_text;
use std::alloc::Global;

fn fresh_meta(count: u64, created: Seconds, draft: DraftMeta) -> Meta
    requires least { 1 ≤ count }
    requires most { count ≤ last_uid }
    ensures { result ≡ made.fresh_meta count created draft }
{
    let DraftMeta {
        uid: _,
        version: _,
        labels,
        annotations,
    } = draft;
    Meta {
        uid: Uid::new(count).unwrap(),
        version: Version::new(count),
        generation: 1,
        created,
        labels,
        annotations,
    }
}

/// The CronJob that the first create makes of a draft at that time, with its last schedule time. A
/// uid and a version in the draft are dropped, since there is no object to compare them with.
pub(crate) fn scene_cron(
    alloc: Global,
    draft: CronJobDraft,
    created: Seconds,
    last: Option<Seconds>,
) -> CronJob
    ensures { result ≡ made.scene_cron draft created last }
{
    let CronJobDraft { key, meta, spec } = draft;
    CronJob {
        key,
        meta: fresh_meta(1, created, meta),
        spec,
        status: CronStatus {
            active: Names::new(alloc),
            last_schedule_time: last,
            last_successful_time: None,
        },
    }
}

fn scene_job(alloc: Global, cron: &CronJob, given: GivenJob) -> Result<Job, SceneFault>
    ensures ok { IfOk result (λ j. j ≡ made.scene_job cron.now given) }
    ensures err { IfErr result (λ e. e ≡ Memory) }
{
    let text = time_text(alloc, given.time)?;
    let draft = cron.job_for(alloc, given.time, text.as_str())?;
    let JobDraft {
        key,
        meta,
        owners,
        spec,
    } = draft;
    Ok(Job {
        key,
        meta: fresh_meta(given.time.get() / 60 + 2, given.time, meta),
        owners,
        spec,
        outcome: given.outcome,
    })
}

fn shared_job(alloc: Global, cron: &CronJob, given: GivenJob) -> Result<Shared<Job>, SceneFault>
    ensures ok { IfOk result (λ j. j ≡ made.scene_job cron.now given) }
    ensures err { IfErr result (λ e. e ≡ Memory) }
{
    let job = scene_job(alloc, cron, given)?;
    Ok(Shared::new(alloc, job)?)
}

/// The Jobs that the CronJob made, as they are given.
pub(crate) fn scene_jobs(
    alloc: Global,
    cron: &CronJob,
    given: &[GivenJob],
) -> Result<Vec<Shared<Job>>, SceneFault>
    ensures ok { IfOk result (λ jobs. jobs.items ≡ map (made.scene_job cron.now) given.now) }
    ensures err { IfErr result (λ e. e ≡ Memory) }
{
    let mut jobs = Vec::new(alloc);
    for job in given {
        jobs.push(shared_job(alloc, cron, *job)?)
            .map_err(|_| SceneFault::Memory)?;
    }
    Ok(jobs)
}
