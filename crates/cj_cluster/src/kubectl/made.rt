// The objects that are made of what is read.
ghost use Rattle.std.specs.Prelude.{◌≡◌, IsOk, IsSome, IfOk, IfErr, unwrap_or, option_map, codes, []};
ghost use Rattle.cj_base.specs.declared.refusal.Refusal.TheVariants.{OutOfMemory};
ghost use Rattle.cj_manifest.specs.Drafts.{given, value_or};
ghost use Rattle.cj_cluster.specs.kubectl.Finishes.{finish_of};
ghost use Rattle.cj_cluster.specs.kubectl.Objects.{cron_made, job_made, meta_made, outcome_at, outcome_of};

use crate::cron::{ClusterCron, CronMarks};
use crate::kubectl::conditions::{Ending, FinishAt};
use crate::kubectl::owners::all_in_group;
use crate::kubectl::times::CronTimes;
use cj_manifest::JobHead;
use cj_types::{
    CronJob, CronJobDraft, CronStatus, DraftMeta, Job, Labels, Meta, Names, Outcome, Refusal,
    Seconds, Shared, SpecText, Text, Uid, Version,
};
use std::alloc::Global;

fn meta(place: Uid, created: Seconds, labels: Labels, annotations: Labels) -> Meta
    ensures { result ≡ meta_made place created labels annotations }
{
    Meta {
        uid: place,
        version: Version::new(place.get()),
        generation: 1,
        created,
        labels,
        annotations,
    }
}

/// The CronJob of a draft at a place of the list, with its times and the names of the Jobs that
/// run.
pub(crate) fn cron(
    alloc: Global,
    place: Uid,
    draft: CronJobDraft,
    times: CronTimes,
    names: Names,
    marks: CronMarks,
) -> Result<ClusterCron, Refusal>
    requires uid { IsSome draft.meta.uid }
    requires created { IsOk times.created }
    ensures ok { IfOk result (λ c. c ≡ cron_made place draft (unwrap_or draft.meta.uid [])
        (value_or 0 times.created) names (given times.last) (given times.success) marks) }
    ensures err { IfErr result (λ e. e ≡ OutOfMemory) }
{
    let CronJobDraft {
        key,
        meta: draft_meta,
        spec,
    } = draft;
    let DraftMeta {
        uid,
        version: _,
        labels,
        annotations,
    } = draft_meta;
    let uid = uid.unwrap();
    let cron = CronJob {
        key,
        meta: meta(place, times.created.unwrap(), labels, annotations),
        spec,
        status: CronStatus {
            active: names,
            last_schedule_time: times.last.unwrap_or(None),
            last_successful_time: times.success.unwrap_or(None),
        },
    };
    let cron = Shared::new(alloc, cron)?;
    Ok(ClusterCron { uid, marks, cron })
}

fn outcome_at(ending: Ending, time: Seconds) -> Outcome
    ensures { result ≡ outcome_at ending time }
{
    match ending {
        Ending::Success => Outcome::Complete(time),
        Ending::Failure => Outcome::Failed,
    }
}

/// How a Job ended, if it did.
pub(crate) fn outcome(finish: Option<FinishAt>, ended: Option<Seconds>) -> Option<Outcome>
    ensures { result ≡ outcome_of (option_map finish_of finish.entry) ended }
{
    let finish = finish?;
    let time = ended?;
    Some(outcome_at(finish.ending, time))
}

// The spec of a Job that nobody looks at.
fn no_spec(alloc: Global) -> Result<SpecText, Refusal>
    ensures ok { IfOk result (λ s. s ≡ codes "{}") }
    ensures err { IfErr result (λ e. e ≡ OutOfMemory) }
{
    SpecText::new(alloc, Text::new(alloc, "{}")?)
}

/// The Job of a head at a place of the list.
pub(crate) fn job(
    alloc: Global,
    place: Uid,
    head: JobHead,
    created: Seconds,
    outcome: Option<Outcome>,
) -> Result<Shared<Job>, Refusal>
    ensures ok { IfOk result (λ j. j ≡ job_made place head created outcome) }
    ensures err { IfErr result (λ e. e ≡ OutOfMemory) }
{
    let spec = no_spec(alloc)?;
    let JobHead { key, owners } = head;
    let owners = all_in_group(alloc, owners.as_slice())?;
    let meta = meta(place, created, Labels::new(alloc), Labels::new(alloc));
    Shared::new(
        alloc,
        Job {
            key,
            meta,
            owners,
            spec,
            outcome,
        },
    )
}
