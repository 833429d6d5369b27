// How events and lists change the Jobs of a mirror.
ghost use Rattle.std.specs.Prelude.{◌≡◌, ◌≤◌, IfOk, IfErr, OnOk, OnErr, length, drop};
ghost use Rattle.cj_base.specs.declared.refusal.Refusal.TheVariants.{OutOfMemory};
ghost use Rattle.cj_watch.specs.mirror.Lagging as jobs_are;

use cj_table::Jobs;
use cj_types::{Event, Job, Object, Refusal, Shared};
use std::alloc::Global;

// Sets the Job at its key. Where there is no memory the key may be left free, until the Job is set
// again.
#[tactic(auto, using(crate::proofs::MirrorLemmas::Puts::put_removal, crate::proofs::MirrorLemmas::Puts::gone_at))]
fn put(jobs: &mut Jobs, alloc: Global, job: &Shared<Job>) -> Result<(), Refusal>
    ensures ok { OnOk result (jobs.new ≡ jobs_are.with_job jobs.old job.now) }
    ensures err { OnErr result (jobs_are.with_job jobs.new job.now
        ≡ jobs_are.with_job jobs.old job.now) }
    ensures memory { IfErr result (λ e. e ≡ OutOfMemory) }
{
    jobs.remove(alloc, &job.key)?;
    jobs.add(alloc, job.share()?)
}

// Applies an object that a write created or changed.
fn stand(jobs: &mut Jobs, alloc: Global, object: &Object) -> Result<(), Refusal>
    ensures ok { OnOk result (jobs.new ≡ jobs_are.standing jobs.old object.now) }
    ensures err { OnErr result (jobs_are.standing jobs.new object.now
        ≡ jobs_are.standing jobs.old object.now) }
    ensures memory { IfErr result (λ e. e ≡ OutOfMemory) }
{
    match object {
        Object::Cron(_) => Ok(()),
        Object::Job(job) => put(jobs, alloc, job),
    }
}

// Applies an object that a write deleted.
fn go(jobs: &mut Jobs, alloc: Global, object: &Object) -> Result<(), Refusal>
    ensures ok { OnOk result (jobs.new ≡ jobs_are.gone jobs.old object.now) }
    ensures err { OnErr result (jobs_are.gone jobs.new object.now
        ≡ jobs_are.gone jobs.old object.now) }
    ensures memory { IfErr result (λ e. e ≡ OutOfMemory) }
{
    match object {
        Object::Cron(_) => Ok(()),
        Object::Job(job) => jobs.remove(alloc, &job.key),
    }
}

// Applies an event. Where there is no memory it can be applied again, as if it hadn't been tried.
fn tell(jobs: &mut Jobs, alloc: Global, event: &Event) -> Result<(), Refusal>
    ensures ok { OnOk result (jobs.new ≡ jobs_are.told jobs.old event.now) }
    ensures err { OnErr result (jobs_are.told jobs.new event.now
        ≡ jobs_are.told jobs.old event.now) }
    ensures memory { IfErr result (λ e. e ≡ OutOfMemory) }
{
    match event {
        Event::Added(object) => stand(jobs, alloc, object),
        Event::Modified(object) => stand(jobs, alloc, object),
        Event::Deleted(object) => go(jobs, alloc, object),
    }
}

/// Applies the events from the place `done` on, one after the other, and counts them in `done`. The
/// Jobs after all events stay the same, also where there is no memory to go on.
pub(crate) fn tell_all(
    jobs: &mut Jobs,
    alloc: Global,
    events: &[Event],
    done: &mut usize,
) -> Result<(), Refusal>
    requires { done.old ≤ length events.now }
    ensures same { jobs_are.told_all jobs.new (drop done.new events.now)
        ≡ jobs_are.told_all jobs.old (drop done.old events.now) }
    ensures within { done.new ≤ length events.now }
    ensures ok { OnOk result (done.new ≡ length events.now) }
    ensures memory { IfErr result (λ e. e ≡ OutOfMemory) }
{
    while *done < events.len() {
        tell(jobs, alloc, &events[*done])?;
        *done += 1;
    }
    Ok(())
}

/// The map of the Jobs in a list.
pub(crate) fn list_jobs(alloc: Global, jobs: &[Shared<Job>]) -> Result<Jobs, Refusal>
    ensures ok { IfOk result (λ all. all ≡ jobs_are.listed jobs.now) }
    ensures memory { IfErr result (λ e. e ≡ OutOfMemory) }
{
    let mut all = Jobs::new(alloc);
    let mut left = jobs.len();
    while left > 0 {
        left -= 1;
        put(&mut all, alloc, &jobs[left])?;
    }
    Ok(all)
}
