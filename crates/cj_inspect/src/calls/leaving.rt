// The Jobs that a sync deletes at its end.
ghost use Rattle.std.specs.Prelude.{◌≡◌, IfErr};
ghost use Rattle.cj_base.specs.declared.refusal.Refusal.TheVariants.{OutOfMemory};

use cj_base::{Refusal, TryCopy};
use cj_control::{Errand, parts};
use cj_decide::{JobRefs, Steps};
use cj_fence::{Answer, At, Call, Cron, Job, Ref, Refs, Row, Sync, Table};
use std::alloc::Global;

// What the sync knows once the status has this time and these Jobs.
fn written(alloc: Global, at: &At, last: u64, active: Refs) -> Result<At, Refusal>
    ensures { IfErr result (λ e. e ≡ OutOfMemory) }
{
    Ok(At {
        name: at.name.try_copy(alloc)?,
        cron: Cron {
            uid: at.cron.uid.try_copy(alloc)?,
            version: at.cron.version.try_copy(alloc)?,
            last,
            success: at.cron.success,
            active,
            policy: at.cron.policy,
            deadline: at.cron.deadline,
        },
        alive: at.alive.try_copy(alloc)?,
    })
}

// What the sync knows once it has done that first; none where its end rests on an answer.
fn after(alloc: Global, at: &At, errand: &Errand) -> Result<Option<At>, Refusal>
    ensures { IfErr result (λ e. e ≡ OutOfMemory) }
{
    let (last, active) = match errand {
        Errand::Rests => (at.cron.last, at.cron.active.try_copy(alloc)?),
        Errand::Tidies => (at.cron.last, at.alive.try_copy(alloc)?),
        Errand::Makes(_, time) => (*time, at.alive.try_copy(alloc)?),
        Errand::Tries(_, _) | Errand::Helps(_) | Errand::Expires(_, _) => return Ok(None),
    };
    Ok(Some(written(alloc, at, last, active)?))
}

// Whether the history limits let a Job go.
fn is_surplus(surplus: &JobRefs, job: &Ref) -> bool {
    let (_, name) = parts(job.name.as_str());
    surplus.as_slice().iter().any(|it| it.key.name() == name)
}

// The garbage, and the finished Jobs that the history limits let go.
fn leaving(
    alloc: Global,
    garbage: Refs,
    finished: &[Ref],
    surplus: &JobRefs,
) -> Result<Refs, Refusal>
    ensures { IfErr result (λ e. e ≡ OutOfMemory) }
{
    let mut gone = garbage;
    for job in finished {
        if is_surplus(surplus, job) {
            gone.push(job.try_copy(alloc)?)?;
        }
    }
    Ok(gone)
}

// The Jobs that go, of those that are listed to a sync that knows this.
fn leaving_of(
    alloc: Global,
    at: At,
    rows: Vec<Row<Job>>,
    surplus: &JobRefs,
) -> Result<Refs, Refusal>
    ensures { IfErr result (λ e. e ≡ OutOfMemory) }
{
    let answer = Answer::Jobs(Table::from_rows(rows));
    match Sync::Ready(at).advance(alloc, &Call::ListJobs, &answer)? {
        Sync::Tidying(_, garbage, finished) => {
            leaving(alloc, garbage, finished.as_slice(), surplus)
        }
        _ => Ok(Refs::new(alloc)),
    }
}

/// The Jobs that a sync deletes at its end, of these, which are the CronJob's.
pub(crate) fn gone_of(
    alloc: Global,
    at: &At,
    errand: &Errand,
    rows: Vec<Row<Job>>,
    steps: &Steps,
) -> Result<Refs, Refusal>
    ensures { IfErr result (λ e. e ≡ OutOfMemory) }
{
    match after(alloc, at, errand)? {
        Some(after) => leaving_of(alloc, after, rows, &steps.cleanup),
        None => Ok(Refs::new(alloc)),
    }
}
