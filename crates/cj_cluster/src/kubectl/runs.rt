// What is read of a Job.
ghost use Rattle.std.specs.Prelude.{◌≡◌, Some, IsOk, IfOk, IfErr};
ghost use Rattle.serde_json.specs.View.{view};
ghost use Rattle.cj_base.specs.declared.refusal.Refusal.TheVariants.{OutOfMemory};
ghost use Rattle.cj_manifest.specs.Drafts.{job_head};
ghost use Rattle.cj_cluster.specs.kubectl.Faults.{job_server_faults};
ghost use Rattle.cj_cluster.specs.declared.kubectl.item.Item.TheVariants as Read;
ghost use Rattle.cj_cluster.specs.kubectl.Reading.{IsJobItem, IsSoundJob, job_at, named_in, or_named, times_of};

use crate::kubectl::conditions::finish_row;
use crate::kubectl::faults::job_faults;
use crate::kubectl::item::Item;
use crate::kubectl::made;
use crate::kubectl::named_times::named_time;
use crate::kubectl::status::status_row;
use crate::kubectl::times::{RunTimes, given_finish, run_times};
use crate::times::JobTimes;
use cj_manifest::{JobHead, head_of};
use cj_types::{FieldFaults, Job, Refusal, Seconds, Shared, Uid};
use serde_json::Value;
use std::alloc::Global;

// The faults of what the server says of a Job.
fn server_faults(alloc: Global, value: &Value, times: &RunTimes) -> Result<FieldFaults, Refusal>
    ensures ok { IfOk result (λ f. f ≡ job_server_faults (view value.now) times.now) }
    ensures err { IfErr result (λ e. e ≡ OutOfMemory) }
{
    let status = status_row(value).err();
    let conditions = finish_row(value).err();
    job_faults(alloc, status, conditions, times)
}

// The Job of a head whose time of creation is known.
fn job_of(
    alloc: Global,
    place: Uid,
    value: &Value,
    head: JobHead,
    times: &RunTimes,
) -> Result<Shared<Job>, Refusal>
    requires created { IsOk times.now.created }
    ensures ok { IfOk result (λ j. j ≡ job_at place (view value.now) head times.now) }
    ensures err { IfErr result (λ e. e ≡ OutOfMemory) }
{
    let created = times.created.unwrap();
    let outcome = made::outcome(given_finish(value), times.ended.unwrap_or(None));
    made::job(alloc, place, head, created, outcome)
}

// The time that is in the name of the Job.
fn named_in(job: &Job) -> Option<Seconds>
    ensures { result ≡ named_in job.now }
{
    named_time(job.cron_name()?.as_str(), job.key.name())
}

fn or_named(said: Option<Seconds>, named: Option<Seconds>) -> Option<Seconds>
    ensures { result ≡ or_named said named }
{
    match said {
        Some(time) => Some(time),
        None => named,
    }
}

fn job_times(alloc: Global, job: &Job, times: &RunTimes) -> Result<Shared<JobTimes>, Refusal>
    ensures ok { IfOk result (λ t. t ≡ times_of job.now times.now) }
    ensures err { IfErr result (λ e. e ≡ OutOfMemory) }
{
    let said = times.scheduled.unwrap_or(None);
    let named = named_in(job);
    let ended = times.ended.unwrap_or(None);
    Shared::new(
        alloc,
        JobTimes {
            scheduled: or_named(said, named),
            is_named: said.is_none() && named.is_some(),
            ended,
            is_manual: times.is_manual,
            is_suspended: times.is_suspended,
        },
    )
}

// The Job with its times.
fn run_of(
    alloc: Global,
    place: Uid,
    value: &Value,
    head: JobHead,
    times: &RunTimes,
) -> Result<Item, Refusal>
    requires created { IsOk times.now.created }
    ensures ok { IfOk result (λ i. i ≡ Read.Run (job_at place (view value.now) head times.now)
        (times_of (job_at place (view value.now) head times.now) times.now)) }
    ensures err { IfErr result (λ e. e ≡ OutOfMemory) }
{
    let job = job_of(alloc, place, value, head, times)?;
    let told = job_times(alloc, job.get(), times)?;
    Ok(Item::Run(job, told))
}

// The Job of a head, or the faults of what the server says of it.
fn sound_job(alloc: Global, place: Uid, value: &Value, head: JobHead) -> Result<Item, Refusal>
    requires headed { job_head (view value.now) ≡ Some head }
    ensures ok { IfOk result (IsSoundJob place (view value.now)) }
    ensures err { IfErr result (λ e. e ≡ OutOfMemory) }
{
    let times = run_times(value);
    let faults = server_faults(alloc, value, &times)?;
    if !faults.as_slice().is_empty() {
        return Ok(Item::Faulty(faults));
    }
    run_of(alloc, place, value, head, &times)
}

/// What is read of a Job at a place of the list.
pub(crate) fn job_item(alloc: Global, place: Uid, value: &Value) -> Result<Item, Refusal>
    ensures ok { IfOk result (IsJobItem place (view value.now)) }
    ensures err { IfErr result (λ e. e ≡ OutOfMemory) }
{
    match head_of(alloc, value) {
        Ok(head) => sound_job(alloc, place, value, head),
        Err(Refusal::Invalid(faults)) => Ok(Item::Faulty(faults)),
        Err(_) => Err(Refusal::OutOfMemory),
    }
}
