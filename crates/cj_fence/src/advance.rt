// What a sync knows after a call and its answer.
ghost use Rattle.std.specs.Prelude.{◌≡◌, ◌&&◌, [], IfOk, IfErr};
ghost use Rattle.cj_base.specs.declared.refusal.Refusal.TheVariants.{OutOfMemory};
ghost use Rattle.cj_fence.specs.Objects.{ref_of, named, without_ref, is_policy, waits, is_dead};
ghost use Rattle.cj_fence.specs.Server.{made};
ghost use Rattle.cj_fence.specs.Protocol.{kept_of, drops_of, go_on, is_held_ref, was_found, found_held, found_job, is_its, looked, begun, is_ours, lets_hold, adopted, is_garbage, is_finished, refs_where, settles, is_deleted, has_claimed, has_tidied, has_started, advanced};

use crate::may::lets_hold;
use crate::texts::{has_name, has_ref, is_ref, is_same};
use crate::writing::job_made;
use crate::{Answer, At, Call, Claim, Cron, Held, Job, Policy, Ref, Refs, Row, Stamp, Sync, Tidy};
use cj_base::{Refusal, Text, TryCopy};
use std::alloc::Global;

// The Jobs that stay beside the one that is started: under Replace none.
fn kept_of(alloc: Global, policy: Policy, alive: &Refs) -> Result<Refs, Refusal>
    ensures ok { IfOk result (λ k. k ≡ kept_of policy alive.now) }
    ensures err { IfErr result (λ e. e ≡ OutOfMemory) }
{
    match policy {
        Policy::Replace => Ok(Refs::new(alloc)),
        _ => alive.try_copy(alloc),
    }
}

// The Jobs that are deleted before a start: under Replace all that run.
fn drops_of(alloc: Global, policy: Policy, alive: &Refs) -> Result<Refs, Refusal>
    ensures ok { IfOk result (λ d. d ≡ drops_of policy alive.now) }
    ensures err { IfErr result (λ e. e ≡ OutOfMemory) }
{
    match policy {
        Policy::Replace => alive.try_copy(alloc),
        _ => Ok(Refs::new(alloc)),
    }
}

// The sync with these Jobs of `status.active` still to read; after the last one it helps, or may
// hold a Job.
fn go_on(alloc: Global, at: At, todo: Refs, held: Option<Held>) -> Result<Sync, Refusal>
    ensures ok { IfOk result (λ s. s ≡ go_on at todo held) }
    ensures err { IfErr result (λ e. e ≡ OutOfMemory) }
{
    if !todo.as_slice().is_empty() {
        return Ok(Sync::Looking(at, todo, held));
    }
    match held {
        Some(held) => {
            let before = drops_of(alloc, held.found.policy, &at.alive)?;
            Ok(Sync::Starting(at, held, before))
        }
        None => Ok(Sync::Ready(at)),
    }
}

// The sync after it found a held Job in `status.active`.
fn found_held(
    alloc: Global,
    at: At,
    todo: Refs,
    held: Option<Held>,
    job: Ref,
    found: &Job,
) -> Result<Sync, Refusal>
    ensures ok { IfOk result (λ s.
        s ≡ found_held at todo held (record { job = job; found = found.now })) }
    ensures err { IfErr result (λ e. e ≡ OutOfMemory) }
{
    match held {
        None => {
            let found = found.try_copy(alloc)?;
            go_on(alloc, at, todo, Some(Held { job, found }))
        }
        Some(_) => Ok(Sync::Over),
    }
}

// Whether a reference is to the Job that was found held.
fn is_held_ref(held: &Option<Held>, job: &Ref) -> bool
    ensures { result ≡ is_held_ref held.now job.now }
{
    match held {
        Some(first) => is_ref(&first.job, &job.name, &job.uid),
        None => false,
    }
}

// Whether a reference is to a Job that was found before.
fn was_found(at: &At, held: &Option<Held>, job: &Ref) -> bool
    ensures { result ≡ was_found at.now held.now job.now }
{
    let alive = has_ref(at.alive.as_slice(), &job.name, &job.uid);
    let first = is_held_ref(held, job);
    alive || first
}

// The sync after it found a Job in `status.active` that isn't dead.
fn found_job(
    alloc: Global,
    mut at: At,
    todo: Refs,
    held: Option<Held>,
    job: Ref,
    found: &Job,
) -> Result<Sync, Refusal>
    ensures ok { IfOk result (λ s. s ≡ found_job at todo held job found.now) }
    ensures err { IfErr result (λ e. e ≡ OutOfMemory) }
{
    if was_found(&at, &held, &job) {
        return go_on(alloc, at, todo, held);
    }
    if found.held {
        return found_held(alloc, at, todo, held, job, found);
    }
    at.alive.push(job)?;
    go_on(alloc, at, todo, held)
}

// Whether a Job runs no Pod any more, or never will.
fn is_dead(job: &Job) -> bool
    ensures { result ≡ is_dead job.now }
{
    job.finished || (job.held && job.deleting)
}

// Whether a start would make the Job's Pods.
fn waits(job: &Job) -> bool
    ensures { result ≡ waits job.now }
{
    job.held && !job.finished && !job.deleting
}

// Whether a Job is the one of a reference, and its controller is the CronJob.
fn is_its(cron: &Cron, job: &Ref, found: &Job) -> bool
    ensures { result ≡ is_its cron.now job.now found.now }
{
    let same = is_same(&found.uid, &job.uid);
    let owner = is_same(&found.owner, &cron.uid);
    same && owner
}

// The sync after a GET of a Job of `status.active`.
fn looked(
    alloc: Global,
    at: At,
    todo: Refs,
    held: Option<Held>,
    job: Ref,
    found: &Option<Job>,
) -> Result<Sync, Refusal>
    ensures ok { IfOk result (λ s. s ≡ looked at todo held job found.now) }
    ensures err { IfErr result (λ e. e ≡ OutOfMemory) }
{
    match found {
        Some(seen) if is_its(&at.cron, &job, seen) && !is_dead(seen) => {
            found_job(alloc, at, todo, held, job, seen)
        }
        _ => go_on(alloc, at, todo, held),
    }
}

// Those of these references that name a Job.
fn named(alloc: Global, refs: &[Ref]) -> Result<Refs, Refusal>
    ensures ok { IfOk result (λ l. l ≡ named refs.now) }
    ensures err { IfErr result (λ e. e ≡ OutOfMemory) }
{
    let mut found = Refs::new(alloc);
    for one in refs {
        if has_name(&one.name) {
            found.push(one.try_copy(alloc)?)?;
        }
    }
    Ok(found)
}

// The sync after it read its CronJob.
fn begun(alloc: Global, name: &Text, found: &Option<Cron>) -> Result<Sync, Refusal>
    ensures ok { IfOk result (λ s. s ≡ begun name.now found.now) }
    ensures err { IfErr result (λ e. e ≡ OutOfMemory) }
{
    match found {
        Some(cron) => {
            let todo = named(alloc, cron.active.as_slice())?;
            let at = At {
                name: name.try_copy(alloc)?,
                cron: cron.try_copy(alloc)?,
                alive: Refs::new(alloc),
            };
            go_on(alloc, at, todo, None)
        }
        None => Ok(Sync::Gone),
    }
}

/// The sync after its first call.
pub(crate) fn from_fresh(alloc: Global, call: &Call, answer: &Answer) -> Result<Sync, Refusal>
    ensures ok { IfOk result (λ s. s ≡ advanced Sync.Fresh call.now answer.now) }
    ensures err { IfErr result (λ e. e ≡ OutOfMemory) }
{
    match (call, answer) {
        (Call::GetCron(name), Answer::Cron(found)) => begun(alloc, name, found),
        (Call::CacheCron(name), Answer::Cron(found)) => begun(alloc, name, found),
        _ => Ok(Sync::Over),
    }
}

// The sync after a GET of the next Job of `status.active`, if there is one.
fn got(
    alloc: Global,
    at: At,
    mut todo: Refs,
    held: Option<Held>,
    name: &Text,
    found: &Option<Job>,
) -> Result<Sync, Refusal>
    ensures ok { IfOk result (λ s.
        s ≡ advanced (Sync.Looking at todo held) (Call.GetJob name.now) (Answer.Job found.now)) }
    ensures err { IfErr result (λ e. e ≡ OutOfMemory) }
{
    match todo.take_first() {
        Some(job) => looked(alloc, at, todo, held, job, found),
        None => Ok(Sync::Over),
    }
}

// Whether what a cache says of a reference is taken.
fn settles(job: &Ref, found: &Option<Job>) -> bool
    ensures { result ≡ settles job.now found.now }
{
    match found {
        Some(seen) => is_same(&seen.uid, &job.uid) && !waits(seen),
        None => false,
    }
}

// The sync after a cache was asked for the next Job of `status.active`, if there is one.
fn cached(
    alloc: Global,
    at: At,
    mut todo: Refs,
    held: Option<Held>,
    name: &Text,
    found: &Option<Job>,
) -> Result<Sync, Refusal>
    ensures ok { IfOk result (λ s.
        s ≡ advanced (Sync.Looking at todo held) (Call.CacheJob name.now) (Answer.Job found.now)) }
    ensures err { IfErr result (λ e. e ≡ OutOfMemory) }
{
    let taken = match todo.as_slice() {
        [first, ..] => settles(first, found),
        [] => return Ok(Sync::Over),
    };
    if !taken {
        return Ok(Sync::Looking(at, todo, held));
    }
    got(alloc, at, todo, held, name, found)
}

/// The sync after a call with Jobs of `status.active` still to read.
pub(crate) fn from_looking(
    alloc: Global,
    at: At,
    todo: Refs,
    held: Option<Held>,
    call: &Call,
    answer: &Answer,
) -> Result<Sync, Refusal>
    ensures ok { IfOk result (λ s. s ≡ advanced (Sync.Looking at todo held) call.now answer.now) }
    ensures err { IfErr result (λ e. e ≡ OutOfMemory) }
{
    match (call, answer) {
        (Call::GetJob(name), Answer::Job(found)) => got(alloc, at, todo, held, name, found),
        (Call::CacheJob(name), Answer::Job(found)) => cached(alloc, at, todo, held, name, found),
        _ => Ok(Sync::Over),
    }
}

// Whether a Job may be adopted.
fn is_ours(cron: &Cron, job: &Job) -> bool
    ensures { result ≡ is_ours cron.now job.now }
{
    let owner = is_same(&job.owner, &cron.uid);
    owner && waits(job) && is_policy(job.policy, cron.policy) && cron.last < job.time
}

// Whether two policies are one.
fn is_policy(a: Policy, b: Policy) -> bool
    ensures { result ≡ is_policy a b }
{
    match (a, b) {
        (Policy::Allow, Policy::Allow) => true,
        (Policy::Forbid, Policy::Forbid) => true,
        (Policy::Replace, Policy::Replace) => true,
        _ => false,
    }
}

// Whether a Job under a name that was to be taken is taken for a claim.
fn may_adopt(at: &At, job: &Job) -> bool
    ensures { result ≡ (lets_hold at.now.cron.policy at.now.alive && is_ours at.now.cron job.now) }
{
    lets_hold(at.cron.policy, at.alive.as_slice()) && is_ours(&at.cron, job)
}

// The sync after a GET of a Job under a name that it was to take.
fn adopted(alloc: Global, at: At, name: &Text, found: &Option<Job>) -> Result<Sync, Refusal>
    ensures ok { IfOk result (λ s. s ≡ adopted at name.now found.now) }
    ensures err { IfErr result (λ e. e ≡ OutOfMemory) }
{
    match found {
        Some(job) if may_adopt(&at, job) => {
            let held = Held {
                job: Ref {
                    name: name.try_copy(alloc)?,
                    uid: job.uid.try_copy(alloc)?,
                },
                found: job.try_copy(alloc)?,
            };
            Ok(Sync::Holding(at, held))
        }
        _ => Ok(Sync::Ready(at)),
    }
}

// A held Job as this sync created it, with what the server gave it.
fn created(alloc: Global, name: &Text, job: &Job, stamp: &Stamp) -> Result<Held, Refusal>
    ensures ok { IfOk result (λ h.
        h ≡ record {
          job = record { name = name.now; uid = stamp.now.uid };
          found = made stamp.now job.now;
        }) }
    ensures err { IfErr result (λ e. e ≡ OutOfMemory) }
{
    Ok(Held {
        job: Ref {
            name: name.try_copy(alloc)?,
            uid: stamp.uid.try_copy(alloc)?,
        },
        found: job_made(alloc, stamp, job)?,
    })
}

// What a sync knows of its CronJob after it sent a status without the dead.
fn has_tidied(alloc: Global, mut at: At, sent: &Tidy, version: &Text) -> Result<At, Refusal>
    ensures ok { IfOk result (λ a. a ≡ has_tidied at sent.now version.now) }
    ensures err { IfErr result (λ e. e ≡ OutOfMemory) }
{
    at.cron.version = version.try_copy(alloc)?;
    at.cron.active = sent.active.try_copy(alloc)?;
    at.cron.success = sent.success.unwrap_or(at.cron.success);
    Ok(at)
}

// What a sync knows of its CronJob after its claim.
fn has_claimed(alloc: Global, mut at: At, sent: &Claim, version: &Text) -> Result<At, Refusal>
    ensures ok { IfOk result (λ a. a ≡ has_claimed at sent.now version.now) }
    ensures err { IfErr result (λ e. e ≡ OutOfMemory) }
{
    at.cron.version = version.try_copy(alloc)?;
    at.cron.active = sent.active.try_copy(alloc)?;
    at.cron.last = sent.time;
    at.cron.success = sent.success.unwrap_or(at.cron.success);
    Ok(at)
}

// Whether a Job is garbage.
fn is_garbage(cron: &Cron, row: &Row<Job>) -> bool
    ensures { result ≡ is_garbage cron.now row.now }
{
    let owner = is_same(&row.object.owner, &cron.uid);
    let named = has_ref(cron.active.as_slice(), &row.name, &row.object.uid);
    owner && row.object.held && row.object.time <= cron.last && !named
}

// Whether a Job may go by the history limits.
fn is_finished(cron: &Cron, row: &Row<Job>) -> bool
    ensures { result ≡ is_finished cron.now row.now }
{
    let owner = is_same(&row.object.owner, &cron.uid);
    owner && row.object.finished
}

// The reference to the Job of a row.
fn ref_of(alloc: Global, row: &Row<Job>) -> Result<Ref, Refusal>
    ensures ok { IfOk result (λ r. r ≡ ref_of row.now) }
    ensures err { IfErr result (λ e. e ≡ OutOfMemory) }
{
    Ok(Ref {
        name: row.name.try_copy(alloc)?,
        uid: row.object.uid.try_copy(alloc)?,
    })
}

// References to the garbage among these Jobs.
fn garbage_of(alloc: Global, cron: &Cron, rows: &[Row<Job>]) -> Result<Refs, Refusal>
    ensures ok { IfOk result (λ g. g ≡ refs_where (is_garbage cron.now) rows.now) }
    ensures err { IfErr result (λ e. e ≡ OutOfMemory) }
{
    let mut found = Refs::new(alloc);
    for row in rows {
        if is_garbage(cron, row) {
            found.push(ref_of(alloc, row)?)?;
        }
    }
    Ok(found)
}

// References to the finished ones among these Jobs.
fn finished_of(alloc: Global, cron: &Cron, rows: &[Row<Job>]) -> Result<Refs, Refusal>
    ensures ok { IfOk result (λ f. f ≡ refs_where (is_finished cron.now) rows.now) }
    ensures err { IfErr result (λ e. e ≡ OutOfMemory) }
{
    let mut found = Refs::new(alloc);
    for row in rows {
        if is_finished(cron, row) {
            found.push(ref_of(alloc, row)?)?;
        }
    }
    Ok(found)
}

// The sync after the Jobs were listed.
fn listed(alloc: Global, at: At, rows: &[Row<Job>]) -> Result<Sync, Refusal>
    ensures ok { IfOk result (λ s.
        s ≡ Sync.Tidying at (refs_where (is_garbage at.cron) rows.now)
        (refs_where (is_finished at.cron) rows.now)) }
    ensures err { IfErr result (λ e. e ≡ OutOfMemory) }
{
    let garbage = garbage_of(alloc, &at.cron, rows)?;
    let finished = finished_of(alloc, &at.cron, rows)?;
    Ok(Sync::Tidying(at, garbage, finished))
}

/// The sync after a call with no held Job at hand.
pub(crate) fn from_ready(
    alloc: Global,
    at: At,
    call: &Call,
    answer: &Answer,
) -> Result<Sync, Refusal>
    ensures ok { IfOk result (λ s. s ≡ advanced (Sync.Ready at) call.now answer.now) }
    ensures err { IfErr result (λ e. e ≡ OutOfMemory) }
{
    match (call, answer) {
        (Call::GetJob(name), Answer::Job(found)) => adopted(alloc, at, name, found),
        (Call::Create(name, job), Answer::Created(stamp)) => {
            let held = created(alloc, name, job, stamp)?;
            Ok(Sync::Holding(at, held))
        }
        (Call::Create(_, _), Answer::Refused) => Ok(Sync::Ready(at)),
        (Call::Tidy(sent), Answer::Written(version)) => {
            let tidied = has_tidied(alloc, at, sent, version)?;
            Ok(Sync::Ready(tidied))
        }
        (Call::ListJobs, Answer::Jobs(rows)) => listed(alloc, at, rows.as_slice()),
        _ => Ok(Sync::Over),
    }
}

/// The sync after a call with a held Job at hand.
pub(crate) fn from_holding(
    alloc: Global,
    at: At,
    held: Held,
    call: &Call,
    answer: &Answer,
) -> Result<Sync, Refusal>
    ensures ok { IfOk result (λ s. s ≡ advanced (Sync.Holding at held) call.now answer.now) }
    ensures err { IfErr result (λ e. e ≡ OutOfMemory) }
{
    match (call, answer) {
        (Call::Claim(sent), Answer::Written(version)) => {
            let drops = drops_of(alloc, held.found.policy, &at.alive)?;
            let claimed = has_claimed(alloc, at, sent, version)?;
            Ok(Sync::Starting(claimed, held, drops))
        }
        (Call::Claim(_), _) => Ok(Sync::Over),
        _ => from_ready(alloc, at, call, answer),
    }
}

// What a sync knows of its CronJob once it has started its Job.
fn has_started(alloc: Global, mut at: At, held: Held) -> Result<At, Refusal>
    ensures ok { IfOk result (λ a. a ≡ has_started at held) }
    ensures err { IfErr result (λ e. e ≡ OutOfMemory) }
{
    let mut alive = kept_of(alloc, held.found.policy, &at.alive)?;
    alive.push(held.into_job())?;
    at.alive = alive;
    Ok(at)
}

// The sync after a call with nothing to delete before its start.
fn started(alloc: Global, at: At, held: Held, call: &Call, answer: &Answer) -> Result<Sync, Refusal>
    ensures ok { IfOk result (λ s. s ≡ advanced (Sync.Starting at held []) call.now answer.now) }
    ensures err { IfErr result (λ e. e ≡ OutOfMemory) }
{
    match (call, answer) {
        (Call::Start(_), Answer::Written(_)) => {
            let again = drops_of(alloc, held.found.policy, &at.alive)?;
            let now = has_started(alloc, at, held)?;
            go_on(alloc, now, again, None)
        }
        _ => Ok(Sync::Over),
    }
}

// Whether a deletion by uid was taken: the Job is gone then, or being deleted.
fn is_deleted(call: &Call, answer: &Answer) -> bool
    ensures { result ≡ is_deleted call.now answer.now }
{
    match (call, answer) {
        (Call::Delete(_), Answer::Deleted) => true,
        _ => false,
    }
}

/// The sync after a call with a claimed Job to start.
pub(crate) fn from_starting(
    alloc: Global,
    at: At,
    held: Held,
    mut drops: Refs,
    call: &Call,
    answer: &Answer,
) -> Result<Sync, Refusal>
    ensures ok { IfOk result (λ s. s ≡ advanced (Sync.Starting at held drops) call.now answer.now) }
    ensures err { IfErr result (λ e. e ≡ OutOfMemory) }
{
    match drops.take_first() {
        None => started(alloc, at, held, call, answer),
        Some(_) if is_deleted(call, answer) => Ok(Sync::Starting(at, held, drops)),
        Some(_) => Ok(Sync::Over),
    }
}

// The sync with a Job less to delete.
fn one_less(
    alloc: Global,
    at: At,
    garbage: &Refs,
    finished: &Refs,
    job: &Ref,
) -> Result<Sync, Refusal>
    ensures ok { IfOk result (λ s.
        s ≡ Sync.Tidying at (without_ref job.now garbage.now) (without_ref job.now finished.now)) }
    ensures err { IfErr result (λ e. e ≡ OutOfMemory) }
{
    let garbage = without_ref(alloc, garbage.as_slice(), job)?;
    let finished = without_ref(alloc, finished.as_slice(), job)?;
    Ok(Sync::Tidying(at, garbage, finished))
}

// These references without the one to a Job.
fn without_ref(alloc: Global, refs: &[Ref], job: &Ref) -> Result<Refs, Refusal>
    ensures ok { IfOk result (λ l. l ≡ without_ref job.now refs.now) }
    ensures err { IfErr result (λ e. e ≡ OutOfMemory) }
{
    let mut left = Refs::new(alloc);
    for one in refs {
        if !is_ref(one, &job.name, &job.uid) {
            left.push(one.try_copy(alloc)?)?;
        }
    }
    Ok(left)
}

/// The sync after a call with garbage and finished Jobs to delete.
pub(crate) fn from_tidying(
    alloc: Global,
    at: At,
    garbage: Refs,
    finished: Refs,
    call: &Call,
    answer: &Answer,
) -> Result<Sync, Refusal>
    ensures ok { IfOk result (λ s.
        s ≡ advanced (Sync.Tidying at garbage finished) call.now answer.now) }
    ensures err { IfErr result (λ e. e ≡ OutOfMemory) }
{
    match (call, answer) {
        (Call::Delete(job), Answer::Deleted) => one_less(alloc, at, &garbage, &finished, job),
        (Call::Delete(job), Answer::Refused) => one_less(alloc, at, &garbage, &finished, job),
        _ => Ok(Sync::Over),
    }
}
