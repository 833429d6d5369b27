// What a write makes of an object.
ghost use Rattle.std.specs.Prelude.{◌≡◌, IfOk, IfErr};
ghost use Rattle.std.specs.Option.{option_copied};
ghost use Rattle.cj_base.specs.declared.refusal.Refusal.TheVariants.{OutOfMemory};
ghost use Rattle.cj_fence.specs.Server.{made, takes, claimed, tidied, released, marked, put_cron, put_job};

use crate::texts::is_same;
use crate::{Claim, Cron, Job, Refs, Stamp, Tidy};
use cj_base::{Refusal, Text, TryCopy};
use std::alloc::Global;

/// Whether a CronJob has this uid and this version.
pub(crate) fn takes(uid: &Text, version: &Text, cron: &Cron) -> bool
    ensures { result ≡ takes uid.now version.now cron.now }
{
    is_same(&cron.uid, uid) && is_same(&cron.version, version)
}

/// A Job as POST makes it.
pub(crate) fn job_made(alloc: Global, stamp: &Stamp, job: &Job) -> Result<Job, Refusal>
    ensures ok { IfOk result (λ j. j ≡ made stamp.now job.now) }
    ensures err { IfErr result (λ e. e ≡ OutOfMemory) }
{
    Ok(Job {
        uid: stamp.uid.try_copy(alloc)?,
        version: stamp.version.try_copy(alloc)?,
        owner: job.owner.try_copy(alloc)?,
        time: job.time,
        policy: job.policy,
        held: job.held,
        finished: false,
        deleting: false,
        pinned: job.pinned,
    })
}

/// The Job without its hold.
pub(crate) fn job_released(alloc: Global, stamp: &Stamp, job: &Job) -> Result<Job, Refusal>
    ensures ok { IfOk result (λ j. j ≡ released stamp.now job.now) }
    ensures err { IfErr result (λ e. e ≡ OutOfMemory) }
{
    Ok(Job {
        uid: job.uid.try_copy(alloc)?,
        version: stamp.version.try_copy(alloc)?,
        owner: job.owner.try_copy(alloc)?,
        time: job.time,
        policy: job.policy,
        held: false,
        finished: job.finished,
        deleting: job.deleting,
        pinned: job.pinned,
    })
}

/// The Job with a deletionTimestamp.
pub(crate) fn job_marked(alloc: Global, stamp: &Stamp, job: &Job) -> Result<Job, Refusal>
    ensures ok { IfOk result (λ j. j ≡ marked stamp.now job.now) }
    ensures err { IfErr result (λ e. e ≡ OutOfMemory) }
{
    Ok(Job {
        uid: job.uid.try_copy(alloc)?,
        version: stamp.version.try_copy(alloc)?,
        owner: job.owner.try_copy(alloc)?,
        time: job.time,
        policy: job.policy,
        held: job.held,
        finished: job.finished,
        deleting: true,
        pinned: job.pinned,
    })
}

/// The Job that somebody's write leaves where this one stood.
pub(crate) fn job_put(
    alloc: Global,
    stamp: &Stamp,
    job: &Job,
    old: Option<&Job>,
) -> Result<Job, Refusal>
    ensures ok { IfOk result (λ j. j ≡ put_job stamp.now job.now (option_copied old.entry)) }
    ensures err { IfErr result (λ e. e ≡ OutOfMemory) }
{
    match old {
        None => job_made(alloc, stamp, job),
        Some(stood) => Ok(Job {
            uid: stood.uid.try_copy(alloc)?,
            version: stamp.version.try_copy(alloc)?,
            owner: job.owner.try_copy(alloc)?,
            time: job.time,
            policy: job.policy,
            held: job.held,
            finished: job.finished,
            deleting: stood.deleting || job.deleting,
            pinned: job.pinned,
        }),
    }
}

/// The CronJob with the status of a claim.
pub(crate) fn cron_claimed(
    alloc: Global,
    stamp: &Stamp,
    claim: &Claim,
    cron: &Cron,
) -> Result<Cron, Refusal>
    ensures ok { IfOk result (λ c. c ≡ claimed stamp.now claim.now cron.now) }
    ensures err { IfErr result (λ e. e ≡ OutOfMemory) }
{
    Ok(Cron {
        uid: cron.uid.try_copy(alloc)?,
        version: stamp.version.try_copy(alloc)?,
        last: claim.time,
        success: claim.success.unwrap_or(cron.success),
        active: claim.active.try_copy(alloc)?,
        policy: cron.policy,
        deadline: cron.deadline,
    })
}

/// The CronJob with a status without its dead.
pub(crate) fn cron_tidied(
    alloc: Global,
    stamp: &Stamp,
    tidy: &Tidy,
    cron: &Cron,
) -> Result<Cron, Refusal>
    ensures ok { IfOk result (λ c. c ≡ tidied stamp.now tidy.now cron.now) }
    ensures err { IfErr result (λ e. e ≡ OutOfMemory) }
{
    Ok(Cron {
        uid: cron.uid.try_copy(alloc)?,
        version: stamp.version.try_copy(alloc)?,
        last: cron.last,
        success: tidy.success.unwrap_or(cron.success),
        active: tidy.active.try_copy(alloc)?,
        policy: cron.policy,
        deadline: cron.deadline,
    })
}

/// The CronJob that somebody's write leaves where this one stood.
pub(crate) fn cron_put(
    alloc: Global,
    stamp: &Stamp,
    cron: &Cron,
    old: Option<&Cron>,
) -> Result<Cron, Refusal>
    ensures ok { IfOk result (λ c. c ≡ put_cron stamp.now cron.now (option_copied old.entry)) }
    ensures err { IfErr result (λ e. e ≡ OutOfMemory) }
{
    match old {
        None => Ok(Cron {
            uid: stamp.uid.try_copy(alloc)?,
            version: stamp.version.try_copy(alloc)?,
            last: 0,
            success: 0,
            active: Refs::new(alloc),
            policy: cron.policy,
            deadline: cron.deadline,
        }),
        Some(stood) => Ok(Cron {
            uid: stood.uid.try_copy(alloc)?,
            version: stamp.version.try_copy(alloc)?,
            last: cron.last,
            success: cron.success,
            active: cron.active.try_copy(alloc)?,
            policy: cron.policy,
            deadline: cron.deadline,
        }),
    }
}
