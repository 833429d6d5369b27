// What a sync may call next.
ghost use Rattle.std.specs.Prelude.{◌≡◌, ◌↔◌, [], ◌∷◌, ◌++◌, IsTrue};
ghost use Rattle.cj_fence.specs.Objects.{has_ref};
ghost use Rattle.cj_fence.specs.Protocol.{lets_hold, MayFresh, MayLook, MayHold, IsLater, MayTidy, MayReady, MayClaim, MayHolding, IsLate, MayExpire, MayDrop, MayStart, MayClear};

use crate::texts::has_ref;
use crate::{At, Call, Claim, Held, Job, Policy, Ref, Tidy};
use cj_base::{Same, Text, same_all};

/// Whether a sync that has called nothing may make this call: it begins with a reading of its
/// CronJob.
pub(crate) fn may_fresh(call: &Call) -> bool
    ensures { IsTrue result ↔ MayFresh call.now }
{
    matches!(call, Call::GetCron(_) | Call::CacheCron(_))
}

/// Whether a sync may make this call that has this Job of `status.active` to read.
pub(crate) fn may_look(job: &Ref, call: &Call) -> bool
    ensures { IsTrue result ↔ MayLook job.now call.now }
{
    match call {
        Call::GetJob(name) => name.same(&job.name),
        Call::CacheJob(name) => name.same(&job.name),
        _ => false,
    }
}

/// Whether a policy lets a Job be held while others run.
pub(crate) fn lets_hold(policy: Policy, alive: &[Ref]) -> bool
    ensures { result ≡ lets_hold policy alive.now }
{
    match policy {
        Policy::Forbid => alive.is_empty(),
        _ => true,
    }
}

// Whether a sync may create this Job: held, ours, for a later time, and under Forbid only where
// nothing runs.
fn may_hold(at: &At, job: &Job) -> bool
    ensures { IsTrue result ↔ MayHold at.now job.now }
{
    let owner = job.owner.same(&at.cron.uid);
    let policy = job.policy.same(&at.cron.policy);
    let later = at.cron.last < job.time;
    let alone = lets_hold(at.cron.policy, at.alive.as_slice());
    owner && job.held && policy && later && alone
}

// Whether a success time is later than the one read, if it is sent.
fn is_later(sent: Option<u64>, read: u64) -> bool
    ensures { IsTrue result ↔ IsLater sent read }
{
    match sent {
        Some(time) => read < time,
        None => true,
    }
}

// Whether a sync may send this status: what runs, and a later success if there is one, on the
// version that it knows, and other than it stands.
fn may_tidy(at: &At, sent: &Tidy) -> bool
    ensures { IsTrue result ↔ MayTidy at.now sent.now }
{
    let name = sent.name.same(&at.name);
    let uid = sent.uid.same(&at.cron.uid);
    let version = sent.version.same(&at.cron.version);
    let active = sent.active.same(&at.alive);
    let success = is_later(sent.success, at.cron.success);
    let idle = sent.active.same(&at.cron.active);
    let silent = sent.success.is_none();
    name && uid && version && active && success && !(silent && idle)
}

/// Whether a sync may make this call that has no held Job at hand.
pub(crate) fn may_ready(at: &At, call: &Call) -> bool
    ensures { IsTrue result ↔ MayReady at.now call.now }
{
    match call {
        Call::GetJob(_) => true,
        Call::Create(_, job) => may_hold(at, job),
        Call::Tidy(sent) => may_tidy(at, sent),
        Call::ListJobs => true,
        _ => false,
    }
}

// Whether a list is another with one more behind.
fn is_one_more(longer: &[Ref], shorter: &[Ref], last: &Ref) -> bool
    ensures { IsTrue result ↔ (longer.now ≡ shorter.now ++ last.now ∷ []) }
{
    match longer.split_last() {
        Some((end, front)) => {
            let before = same_all(front, shorter);
            let same = end.same(last);
            before && same
        }
        None => false,
    }
}

// Whether a sync may send this claim: of its held Job, beside what runs, with a later success if
// there is one, on the version that it knows.
fn may_claim(at: &At, held: &Held, sent: &Claim) -> bool
    ensures { IsTrue result ↔ MayClaim at.now held.now sent.now }
{
    let name = sent.name.same(&at.name);
    let uid = sent.uid.same(&at.cron.uid);
    let version = sent.version.same(&at.cron.version);
    let time = sent.time == held.found.time;
    let job = sent.job.same(&held.job);
    let active = is_one_more(sent.active.as_slice(), at.alive.as_slice(), &held.job);
    let success = is_later(sent.success, at.cron.success);
    name && uid && version && time && job && active && success
}

/// Whether a sync may make this call that has a held Job at hand.
pub(crate) fn may_holding(at: &At, held: &Held, call: &Call) -> bool
    ensures { IsTrue result ↔ MayHolding at.now held.now call.now }
{
    match call {
        Call::Claim(sent) => may_claim(at, held, sent),
        _ => may_ready(at, call),
    }
}

// Whether the starting deadline has passed at the moment.
fn is_late(deadline: Option<u64>, time: u64, now: u64) -> bool
    ensures { IsTrue result ↔ IsLate deadline time now }
{
    match deadline {
        Some(seconds) => now > time && now - time > seconds,
        None => false,
    }
}

// Whether a sync may delete its held Job in place of starting it, on the version read.
fn may_expire(at: &At, held: &Held, job: &Ref, version: &Text, now: u64) -> bool
    ensures { IsTrue result ↔ MayExpire at.now held.now job.now version.now now }
{
    let same = job.same(&held.job);
    let read = version.same(&held.found.version);
    let late = is_late(at.cron.deadline, held.found.time, now);
    same && read && late
}

/// Whether a sync may make this call that has this Job to delete before its start.
pub(crate) fn may_drop(at: &At, held: &Held, first: &Ref, call: &Call) -> bool
    ensures { IsTrue result ↔ MayDrop at.now held.now first.now call.now }
{
    match call {
        Call::Delete(job) => job.same(first),
        Call::Expire(job, version, now) => may_expire(at, held, job, version, *now),
        _ => false,
    }
}

/// Whether a sync may make this call that has a claimed Job to start, and nothing to delete before.
pub(crate) fn may_start(at: &At, held: &Held, call: &Call) -> bool
    ensures { IsTrue result ↔ MayStart at.now held.now call.now }
{
    match call {
        Call::Start(job) => job.same(&held.job),
        Call::Expire(job, version, now) => may_expire(at, held, job, version, *now),
        _ => false,
    }
}

/// Whether a sync may make this call that has this garbage and these finished Jobs to delete.
pub(crate) fn may_clear(garbage: &[Ref], finished: &[Ref], call: &Call) -> bool
    ensures { IsTrue result ↔ MayClear garbage.now finished.now call.now }
{
    match call {
        Call::Delete(job) => {
            let clears = has_ref(garbage, &job.name, &job.uid);
            let cleans = has_ref(finished, &job.name, &job.uid);
            clears || cleans
        }
        _ => false,
    }
}
