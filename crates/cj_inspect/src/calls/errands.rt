// What a sync sets out to do by its plan.
ghost use Rattle.std.specs.Prelude.{◌≡◌, None, Some, IfOk, IfErr, IfSome};
ghost use Rattle.cj_base.specs.declared.refusal.Refusal.TheVariants.{OutOfMemory};
ghost use Rattle.cj_inspect.specs.Calls.{IsTimed, claimed, made_time};

use cj_base::{Refusal, Same, Seconds};
use cj_cluster::Cluster;
use cj_control::{Errand, full_name};
use cj_decide::Steps;
use cj_fence::{At, Held, Policy};
use cj_types::JobDraft;
use std::alloc::Global;

// The time that the plan claims, where the protocol lets a Job be held for it.
fn time_of(at: &At, steps: &Steps) -> Option<u64>
    ensures { IfSome result (λ t. claimed steps.now.claim ≡ Some t) }
{
    let time = match &steps.claim {
        Some(claim) => claim.time.get(),
        None => return None,
    };
    let is_forbidden = at.cron.policy == Policy::Forbid && !at.alive.as_slice().is_empty();
    if time <= at.cron.last || is_forbidden {
        None
    } else {
        Some(time)
    }
}

// A Job of that draft and time is made; where the list has one of its name, that is only tried.
fn makes(alloc: Global, cluster: &Cluster, draft: &JobDraft, time: u64) -> Result<Errand, Refusal>
    ensures ok { IfOk result (λ e. made_time e ≡ Some time) }
    ensures err { IfErr result (λ e. e ≡ OutOfMemory) }
{
    let name = full_name(alloc, draft.key.namespace(), draft.key.name())?;
    if cluster.job(&draft.key).is_some() {
        Ok(Errand::Tries(name, time))
    } else {
        Ok(Errand::Makes(name, time))
    }
}

// Whether a time is due within a minute, whose claim writes the status anyway.
fn is_due_soon(next: Option<Seconds>, now: Seconds) -> bool {
    match next {
        Some(next) => next.get() <= now.get().saturating_add(60),
        None => false,
    }
}

// Where nothing is made, the status is written without the dead, and with a later success.
fn idles(at: &At, success: Option<u64>, loses: bool, steps: &Steps, now: Seconds) -> Errand
    ensures { IsTimed steps.now.claim result }
{
    let is_clean = success.is_none() && at.alive.same(&at.cron.active);
    if is_clean || (is_due_soon(steps.next, now) && !loses) {
        Errand::Rests
    } else {
        Errand::Tidies
    }
}

/// What a sync sets out to do whose Jobs are all dead or started. A success that the status doesn't
/// have yet is written before its Job goes.
pub(crate) fn errand_of(
    alloc: Global,
    cluster: &Cluster,
    at: &At,
    success: Option<u64>,
    loses: bool,
    steps: &Steps,
    now: Seconds,
) -> Result<Errand, Refusal>
    ensures ok { IfOk result (IsTimed steps.now.claim) }
    ensures err { IfErr result (λ e. e ≡ OutOfMemory) }
{
    match (time_of(at, steps), &steps.make) {
        (Some(time), Some(draft)) => makes(alloc, cluster, draft, time),
        _ => Ok(idles(at, success, loses, steps, now)),
    }
}

// Whether the starting deadline of a held Job has passed.
fn is_late(at: &At, held: &Held, now: Seconds) -> bool {
    match at.cron.deadline {
        Some(deadline) => held.found.time.saturating_add(deadline) < now.get(),
        None => false,
    }
}

/// What a sync sets out to do that has found a Job which was claimed, and not started.
pub(crate) fn help_of(at: &At, held: Held, now: Seconds) -> Errand
    ensures { made_time result ≡ None }
{
    if is_late(at, &held, now) {
        Errand::Expires(held, now.get())
    } else {
        Errand::Helps(held)
    }
}
