// The calls by which a sync carries out its plan.
ghost use Rattle.std.specs.Prelude.{◌≡◌, [], ◌∷◌, ◌++◌, IfOk, IfErr, IfSome, OnOk, None};
ghost use Rattle.cj_base.specs.declared.refusal.Refusal.TheVariants.{OutOfMemory};
ghost use Rattle.cj_fence.specs.Protocol.{drops_of};
ghost use Rattle.cj_fence.specs.declared.call.Call.TheVariants as Of;
ghost use Rattle.cj_control.specs.Coming.{AreSentFor};
ghost use Rattle.cj_control.specs.Coming as coming;

use crate::calls::{CronParts, request_of};
use crate::sent::Request;
use cj_base::{Refusal, Text, TryCopy};
use cj_fence::{At, Call, Claim, Held, Job, Policy, Ref, Refs, Tidy};
use std::alloc::Global;

/// What a sync is to do first.
#[derive(Drop)]
pub enum Errand {
    /// Nothing.
    Rests,
    /// The status is written without the dead.
    Tidies,
    /// A Job of this name is made for this time.
    Makes(Text, u64),
    /// The same, but another Job has the name.
    Tries(Text, u64),
    /// A Job that was claimed before is started.
    Helps(Held),
    /// A Job that was claimed before is deleted: at this moment its starting deadline has passed.
    Expires(Held, u64),
}

/// What is ahead of a sync that has read its CronJob and the Jobs of its status.
#[derive(Drop)]
pub struct Ahead {
    pub at: At,
    pub errand: Errand,
    /// When a Job succeeded last, where the status is to say so.
    pub success: Option<u64>,
    /// The Jobs that are deleted at the end.
    pub gone: Refs,
}

// A reference to the Job of that name, which is yet to be created.
fn new_ref(alloc: Global, name: &Text) -> Result<Ref, Refusal>
    ensures ok { IfOk result (λ r. r ≡ coming.new_ref name.now) }
    ensures err { IfErr result (λ e. e ≡ OutOfMemory) }
{
    Ok(Ref {
        name: name.try_copy(alloc)?,
        uid: Text::new(alloc, "(uid of the created Job)")?,
    })
}

fn new_job(alloc: Global, at: &At, time: u64) -> Result<Job, Refusal>
    ensures ok { IfOk result (λ j. j ≡ coming.new_job at.now time) }
    ensures err { IfErr result (λ e. e ≡ OutOfMemory) }
{
    Ok(Job {
        uid: Text::new(alloc, "")?,
        version: Text::new(alloc, "")?,
        owner: at.cron.uid.try_copy(alloc)?,
        time,
        policy: at.cron.policy,
        held: true,
        finished: false,
        deleting: false,
        pinned: false,
    })
}

fn create(alloc: Global, at: &At, name: &Text, time: u64) -> Result<Call, Refusal>
    ensures ok { IfOk result (λ c. c ≡ Of.Create name.now (coming.new_job at.now time)) }
    ensures err { IfErr result (λ e. e ≡ OutOfMemory) }
{
    let job = new_job(alloc, at, time)?;
    Ok(Call::Create(name.try_copy(alloc)?, job))
}

// What runs, and the new Job.
fn active_with(alloc: Global, alive: &Refs, name: &Text) -> Result<Refs, Refusal>
    ensures ok { IfOk result (λ r. r ≡ alive.now ++ coming.new_ref name.now ∷ []) }
    ensures err { IfErr result (λ e. e ≡ OutOfMemory) }
{
    let mut active = alive.try_copy(alloc)?;
    active.push(new_ref(alloc, name)?)?;
    Ok(active)
}

fn claim(
    alloc: Global,
    at: &At,
    name: &Text,
    time: u64,
    success: Option<u64>,
) -> Result<Call, Refusal>
    ensures ok { IfOk result (λ c. c ≡ Of.Claim (coming.claim_of at.now name.now time success)) }
    ensures err { IfErr result (λ e. e ≡ OutOfMemory) }
{
    let active = active_with(alloc, &at.alive, name)?;
    Ok(Call::Claim(Claim {
        name: at.name.try_copy(alloc)?,
        uid: at.cron.uid.try_copy(alloc)?,
        version: at.cron.version.try_copy(alloc)?,
        time,
        job: new_ref(alloc, name)?,
        active,
        success,
    }))
}

fn tidy(
    alloc: Global,
    at: &At,
    version: &str,
    active: Refs,
    success: Option<u64>,
) -> Result<Call, Refusal>
    ensures ok { IfOk result (λ c. c
        ≡ Of.Tidy (coming.tidy_of at.now version.now active success)) }
    ensures err { IfErr result (λ e. e ≡ OutOfMemory) }
{
    Ok(Call::Tidy(Tidy {
        name: at.name.try_copy(alloc)?,
        uid: at.cron.uid.try_copy(alloc)?,
        version: Text::new(alloc, version)?,
        active,
        success,
    }))
}

fn push_call(calls: &mut Vec<Call>, call: Call) -> Result<(), Refusal>
    ensures ok { OnOk result (calls.new.items ≡ calls.old.items ++ call ∷ []) }
    ensures err { IfErr result (λ e. e ≡ OutOfMemory) }
{
    calls.push(call).map_err(|_| Refusal::OutOfMemory)
}

fn one_call(alloc: Global, call: Call) -> Result<Vec<Call>, Refusal>
    ensures ok { IfOk result (λ v. v.items ≡ call ∷ []) }
    ensures err { IfErr result (λ e. e ≡ OutOfMemory) }
{
    let mut calls = Vec::new(alloc);
    push_call(&mut calls, call)?;
    Ok(calls)
}

// The first calls, and then the others.
fn joined(first: Vec<Call>, others: Vec<Call>) -> Result<Vec<Call>, Refusal>
    ensures ok { IfOk result (λ v. v.items ≡ first.items ++ others.items) }
    ensures err { IfErr result (λ e. e ≡ OutOfMemory) }
{
    let (mut calls, mut others) = (first, others);
    calls.append(&mut others).map_err(|_| Refusal::OutOfMemory)?;
    Ok(calls)
}

fn deletions(alloc: Global, jobs: &[Ref]) -> Result<Vec<Call>, Refusal>
    ensures ok { IfOk result (λ v. v.items ≡ coming.deletions jobs.now) }
    ensures err { IfErr result (λ e. e ≡ OutOfMemory) }
{
    let mut calls = Vec::new(alloc);
    for job in jobs {
        let call = Call::Delete(job.try_copy(alloc)?);
        push_call(&mut calls, call)?;
    }
    Ok(calls)
}

// What is deleted before a start: under Replace all that runs.
fn drops_of(policy: Policy, alive: &Refs) -> &[Ref]
    ensures { result.now ≡ drops_of policy alive.now }
{
    match policy {
        Policy::Replace => alive.as_slice(),
        _ => &[],
    }
}

fn only(alloc: Global, name: &Text) -> Result<Refs, Refusal>
    ensures ok { IfOk result (λ r. r ≡ coming.new_ref name.now ∷ []) }
    ensures err { IfErr result (λ e. e ≡ OutOfMemory) }
{
    let mut active = Refs::new(alloc);
    active.push(new_ref(alloc, name)?)?;
    Ok(active)
}

// The status of the new Job alone.
fn tidied_after(alloc: Global, at: &At, name: &Text) -> Result<Vec<Call>, Refusal>
    ensures ok { IfOk result (λ v. v.items ≡ Of.Tidy (coming.tidy_of at.now coming.next_version
        (coming.new_ref name.now ∷ []) None) ∷ []) }
    ensures err { IfErr result (λ e. e ≡ OutOfMemory) }
{
    let active = only(alloc, name)?;
    one_call(
        alloc,
        tidy(alloc, at, "(resourceVersion after the claim)", active, None)?,
    )
}

// What was deleted for the start leaves the status.
fn left_after(alloc: Global, at: &At, name: &Text, drops: &[Ref]) -> Result<Vec<Call>, Refusal>
    ensures ok { IfOk result (λ v. v.items ≡ coming.left_after at.now name.now drops.now) }
    ensures err { IfErr result (λ e. e ≡ OutOfMemory) }
{
    match drops {
        [] => Ok(Vec::new(alloc)),
        [_, ..] => tidied_after(alloc, at, name),
    }
}

// The creation of a Job, and the claim of its time.
fn holding(
    alloc: Global,
    at: &At,
    name: &Text,
    time: u64,
    success: Option<u64>,
) -> Result<Vec<Call>, Refusal>
    ensures ok { IfOk result (λ v. v.items ≡ Of.Create name.now (coming.new_job at.now time)
        ∷ Of.Claim (coming.claim_of at.now name.now time success) ∷ []) }
    ensures err { IfErr result (λ e. e ≡ OutOfMemory) }
{
    let mut calls = one_call(alloc, create(alloc, at, name, time)?)?;
    push_call(&mut calls, claim(alloc, at, name, time, success)?)?;
    Ok(calls)
}

// The start of a Job, and the status after it.
fn starting(alloc: Global, at: &At, name: &Text, drops: &[Ref]) -> Result<Vec<Call>, Refusal>
    ensures ok { IfOk result (λ v. v.items ≡ Of.Start (coming.new_ref name.now)
        ∷ coming.left_after at.now name.now drops.now) }
    ensures err { IfErr result (λ e. e ≡ OutOfMemory) }
{
    let start = one_call(alloc, Call::Start(new_ref(alloc, name)?))?;
    joined(start, left_after(alloc, at, name, drops)?)
}

fn making(
    alloc: Global,
    at: &At,
    name: &Text,
    time: u64,
    success: Option<u64>,
    drops: &[Ref],
) -> Result<Vec<Call>, Refusal>
    ensures ok { IfOk result (λ v.
        v.items ≡ coming.making at.now name.now time success drops.now) }
    ensures err { IfErr result (λ e. e ≡ OutOfMemory) }
{
    let held = holding(alloc, at, name, time, success)?;
    let alone = joined(held, deletions(alloc, drops)?)?;
    joined(alone, starting(alloc, at, name, drops)?)
}

fn tidying(alloc: Global, at: &At, success: Option<u64>) -> Result<Vec<Call>, Refusal>
    ensures ok { IfOk result (λ v. v.items
        ≡ Of.Tidy (coming.tidy_of at.now at.now.cron.version at.now.alive success) ∷ []) }
    ensures err { IfErr result (λ e. e ≡ OutOfMemory) }
{
    let active = at.alive.try_copy(alloc)?;
    one_call(
        alloc,
        tidy(alloc, at, at.cron.version.as_str(), active, success)?,
    )
}

fn helping(alloc: Global, at: &At, held: &Held) -> Result<Vec<Call>, Refusal>
    ensures ok { IfOk result (λ v. v.items
        ≡ coming.deletions (drops_of held.now.found.policy at.now.alive)
        ++ (Of.Start held.now.job ∷ [])) }
    ensures err { IfErr result (λ e. e ≡ OutOfMemory) }
{
    let alone = deletions(alloc, drops_of(held.found.policy, &at.alive))?;
    let start = Call::Start(held.job.try_copy(alloc)?);
    joined(alone, one_call(alloc, start)?)
}

fn expiring(alloc: Global, held: &Held, now: u64) -> Result<Vec<Call>, Refusal>
    ensures ok { IfOk result (λ v. v.items
        ≡ Of.Expire held.now.job held.now.found.version now ∷ []) }
    ensures err { IfErr result (λ e. e ≡ OutOfMemory) }
{
    let job = held.job.try_copy(alloc)?;
    let version = held.found.version.try_copy(alloc)?;
    one_call(alloc, Call::Expire(job, version, now))
}

fn calls_to(
    alloc: Global,
    at: &At,
    success: Option<u64>,
    errand: &Errand,
) -> Result<Vec<Call>, Refusal>
    ensures ok { IfOk result (λ v. v.items ≡ coming.calls_to at.now success errand.now) }
    ensures err { IfErr result (λ e. e ≡ OutOfMemory) }
{
    match errand {
        Errand::Rests => Ok(Vec::new(alloc)),
        Errand::Tidies => tidying(alloc, at, success),
        Errand::Makes(name, time) => {
            let drops = drops_of(at.cron.policy, &at.alive);
            making(alloc, at, name, *time, success, drops)
        }
        Errand::Tries(name, time) => one_call(alloc, create(alloc, at, name, *time)?),
        Errand::Helps(held) => helping(alloc, at, held),
        Errand::Expires(held, now) => expiring(alloc, held, *now),
    }
}

/// The calls that a sync makes, if each is taken and nothing else happens meanwhile: what it is to
/// do first, and then the deletions. What the server is yet to give stands there in words.
pub fn calls_ahead(alloc: Global, ahead: &Ahead) -> Result<Vec<Call>, Refusal>
    ensures ok { IfOk result (λ v. v.items ≡ coming.calls_ahead ahead.now) }
    ensures err { IfErr result (λ e. e ≡ OutOfMemory) }
{
    let first = calls_to(alloc, &ahead.at, ahead.success, &ahead.errand)?;
    joined(first, deletions(alloc, ahead.gone.as_slice())?)
}

fn push_request(requests: &mut Vec<Request>, request: Request) -> Result<(), Refusal>
    ensures ok { OnOk result (requests.new.items ≡ requests.old.items ++ request ∷ []) }
    ensures err { IfErr result (λ e. e ≡ OutOfMemory) }
{
    requests.push(request).map_err(|_| Refusal::OutOfMemory)
}

/// The requests that say what these calls are, one after the other; none where one of them has no
/// request.
pub fn requests_for(
    alloc: Global,
    source: &CronParts,
    calls: &[Call],
) -> Result<Option<Vec<Request>>, Refusal>
    ensures ok { IfOk result (λ o. IfSome o (λ rs. AreSentFor calls.now rs.items)) }
    ensures err { IfErr result (λ e. e ≡ OutOfMemory) }
{
    let mut requests = Vec::new(alloc);
    for call in calls {
        let Some(request) = request_of(alloc, source, call)? else {
            return Ok(None);
        };
        push_request(&mut requests, request)?;
    }
    Ok(Some(requests))
}
