// Why a Job is started at a moment, or why not.
ghost use Rattle.std.specs.Prelude.{◌≡◌, IfOk, IfErr, option_copied, string_bytes};
ghost use Rattle.cj_base.specs.declared.refusal.Refusal.TheVariants.{OutOfMemory};
ghost use Rattle.cj_decide.specs.Decision.{running_of};
ghost use Rattle.cj_why.specs.Why.{IsTimesWhy, IsTextWhy, IsWhy, IsWhyUnlessNever, IsZoneWhy, is_never, start_by, start_words, told};
ghost use Rattle.cj_why.specs.Running.{lacking_lines, lacks_any, running_lines};

use crate::missed::{missed_words, no_window};
use crate::running::{lacking_lines, lacks_any, running_lines};
use crate::since::since_words;
use cj_decide::JobRefs;
use cj_due::{Missed, missed, window};
use cj_schedule::Schedule;
use cj_status::running_found;
use cj_types::{CronJob, Deadline, Job, ObjectName, Policy, Refusal, Seconds, Shared};
use cj_zone::Zone;
use std::alloc::Global;

// What is done for the latest time that was missed.
fn start_by(policy: Policy, busy: bool, lacks: bool) -> &'static str
    ensures { result.now ≡ start_by policy busy lacks }
{
    match (policy, busy, lacks) {
        (Policy::Forbid, true, _) => {
            "start: none, since spec.concurrencyPolicy is Forbid and a Job of it runs\n"
        }
        (Policy::Replace, true, _) => {
            "start: one, in place of those that run, since spec.concurrencyPolicy is Replace\n"
        }
        (Policy::Allow, true, _) => {
            "start: one, beside those that run, since spec.concurrencyPolicy is Allow\n"
        }
        (Policy::Forbid, false, true) => {
            "start: not known, since spec.concurrencyPolicy is Forbid and a Job that the list lacks may run\n"
        }
        (Policy::Replace, false, true) => {
            "start: one, in place of any that the list lacks, since spec.concurrencyPolicy is Replace\n"
        }
        (Policy::Allow, false, true) => {
            "start: one, beside any that the list lacks, since spec.concurrencyPolicy is Allow\n"
        }
        (_, false, false) => "start: one, since a time was missed and no Job of it runs\n",
    }
}

fn start_words(missed: Missed, policy: Policy, busy: bool, lacks: bool) -> &'static str
    ensures { result.now ≡ start_words missed policy busy lacks }
{
    match missed {
        Missed::None => "start: none, since no time was missed\n",
        _ => start_by(policy, busy, lacks),
    }
}

// What was missed, which Jobs run, which may, and what comes of it.
fn told(
    alloc: Global,
    missed: &str,
    running: &JobRefs,
    lacking: &[ObjectName],
    start: &str,
) -> Result<String, Refusal>
    ensures ok { IfOk result (λ s. string_bytes s
        ≡ told missed.now running.now lacking.now start.now) }
    ensures err { IfErr result (λ e. e ≡ OutOfMemory) }
{
    let lines = running_lines(alloc, running.as_slice())?;
    let unknown = lacking_lines(alloc, lacking)?;
    let mut text = String::from_str(alloc, missed)?;
    text.push_str(lines.as_str())?;
    text.push_str(unknown.as_str())?;
    text.push_str(start)?;
    Ok(text)
}

fn times_why(
    alloc: Global,
    cron: &CronJob,
    schedule: &Schedule,
    zone: &Zone,
    running: &JobRefs,
    lacking: &[ObjectName],
    now: Seconds,
) -> Result<String, Refusal>
    ensures ok { IfOk result (λ s. IsTimesWhy cron.now schedule.now zone.now running.now
        lacking.now now (string_bytes s)) }
    ensures err { IfErr result (λ e. e ≡ OutOfMemory) }
{
    match window(cron, now) {
        None => {
            let line = no_window(alloc, cron, now)?;
            told(
                alloc,
                line.as_str(),
                running,
                lacking,
                start_words(Missed::None, cron.spec.policy, false, false),
            )
        }
        Some(since) => {
            let missed = missed(schedule, zone, since, now);
            let line = missed_words(alloc, &missed, since, since_words(cron, now))?;
            let (busy, lacks) = (running.has_any(), lacks_any(lacking));
            let start = start_words(missed, cron.spec.policy, busy, lacks);
            told(alloc, line.as_str(), running, lacking, start)
        }
    }
}

fn text_why(
    alloc: Global,
    cron: &CronJob,
    zone: &Zone,
    running: &JobRefs,
    lacking: &[ObjectName],
    now: Seconds,
) -> Result<String, Refusal>
    ensures ok { IfOk result (λ s. IsTextWhy cron.now zone.now running.now lacking.now now
        (string_bytes s)) }
    ensures err { IfErr result (λ e. e ≡ OutOfMemory) }
{
    match Schedule::parse(cron.spec.schedule.as_str()) {
        Ok(schedule) => times_why(alloc, cron, &schedule, zone, running, lacking, now),
        Err(_) => Ok(String::from_str(alloc, "start: none, since spec.schedule is no schedule\n")?),
    }
}

fn zone_why(
    alloc: Global,
    cron: &CronJob,
    zone: Option<&Zone>,
    running: &JobRefs,
    lacking: &[ObjectName],
    now: Seconds,
) -> Result<String, Refusal>
    ensures ok { IfOk result (λ s. IsZoneWhy cron.now (option_copied zone.entry) running.now
        lacking.now now (string_bytes s)) }
    ensures err { IfErr result (λ e. e ≡ OutOfMemory) }
{
    match zone {
        Some(zone) => text_why(alloc, cron, zone, running, lacking, now),
        None => Ok(String::from_str(
            alloc,
            "start: none, since no zone of the name in spec.timeZone is given\n",
        )?),
    }
}

// The Jobs of the CronJob that run, of those that a live read found.
fn running_jobs(
    alloc: Global,
    cron: &CronJob,
    found: &[Option<Shared<Job>>],
) -> Result<JobRefs, Refusal>
    ensures ok { IfOk result (λ r. r ≡ running_of cron.now found.now) }
    ensures err { IfErr result (λ e. e ≡ OutOfMemory) }
{
    running_found(alloc, &cron.meta.uid, found)
}

// Of a CronJob that isn't suspended and has no deadline of 0.
fn awake_why(
    alloc: Global,
    cron: &CronJob,
    zone: Option<&Zone>,
    found: &[Option<Shared<Job>>],
    lacking: &[ObjectName],
    now: Seconds,
) -> Result<String, Refusal>
    ensures ok { IfOk result (λ s. IsZoneWhy cron.now (option_copied zone.entry)
        (running_of cron.now found.now) lacking.now now (string_bytes s)) }
    ensures err { IfErr result (λ e. e ≡ OutOfMemory) }
{
    let running = running_jobs(alloc, cron, found)?;
    zone_why(alloc, cron, zone, &running, lacking, now)
}

/// Whether a starting deadline lets no time at all be in time.
pub(crate) fn is_never(deadline: Option<Deadline>) -> bool
    ensures { result ≡ is_never deadline }
{
    match deadline {
        Some(deadline) => deadline.get() == 0,
        None => false,
    }
}

// Of a CronJob that isn't suspended.
fn timed_why(
    alloc: Global,
    cron: &CronJob,
    zone: Option<&Zone>,
    found: &[Option<Shared<Job>>],
    lacking: &[ObjectName],
    now: Seconds,
) -> Result<String, Refusal>
    ensures ok { IfOk result (λ s. IsWhyUnlessNever
        (is_never cron.now.spec.starting_deadline_seconds) cron.now (option_copied zone.entry)
        (running_of cron.now found.now) lacking.now now (string_bytes s)) }
    ensures err { IfErr result (λ e. e ≡ OutOfMemory) }
{
    if is_never(cron.spec.starting_deadline_seconds) {
        Ok(String::from_str(
            alloc,
            "start: none, since spec.startingDeadlineSeconds is 0, so that no time is ever in time\n",
        )?)
    } else {
        awake_why(alloc, cron, zone, found, lacking, now)
    }
}

/// Lines that say why a Job of the CronJob is started at this moment, or why not: whether it is
/// suspended, its deadline 0 and its zone known, how many times were missed and since when, which
/// Jobs run, which may run though nothing is known of them, and what its policy makes of that. The
/// only error is want of memory.
pub fn why(
    alloc: Global,
    cron: &CronJob,
    zone: Option<&Zone>,
    found: &[Option<Shared<Job>>],
    lacking: &[ObjectName],
    now: Seconds,
) -> Result<String, Refusal>
    ensures ok { IfOk result (λ s. IsWhy cron.now (option_copied zone.entry)
        (running_of cron.now found.now) lacking.now now (string_bytes s)) }
    ensures err { IfErr result (λ e. e ≡ OutOfMemory) }
{
    if cron.spec.suspend {
        Ok(String::from_str(alloc, "start: none, since spec.suspend is true\n")?)
    } else {
        timed_why(alloc, cron, zone, found, lacking, now)
    }
}
