// What `--explain` says of a manifest without a fault: the members that are dropped, and what is
// worth a look.
ghost use Rattle.std.specs.Prelude.{◌≡◌, ◌++◌, IfErr, IfOk, string_bytes};
ghost use Rattle.cj_base.specs.declared.refusal.Refusal.TheVariants.{OutOfMemory};
ghost use Rattle.cj_zone.specs.Table.{zones_of};
ghost use Rattle.cj_answers.specs.Advice.{IsAdvice, IsCronAdvice, cron_advice, deadline_advice, dropped_words, dropped_words_all, failed_advice, successful_advice, suspend_advice, unknown_words};

use crate::clock_words::clock_advice;
use crate::coming::schedule_advice;
use crate::suggestion::suggested;
use cj_manifest::{Manifest, Warning};
use cj_types::{CronSpec, Deadline, Refusal, Seconds};
use cj_zone::ZoneTable;
use std::alloc::{AllocError, Global};

fn suspend_advice(suspend: bool) -> &'static str
    ensures { result.now ≡ suspend_advice suspend }
{
    if suspend {
        "spec.suspend: true starts no Job\n"
    } else {
        ""
    }
}

fn deadline_advice(deadline: Option<Deadline>) -> &'static str
    ensures { result.now ≡ deadline_advice deadline }
{
    match deadline {
        None => "",
        Some(deadline) if deadline.get() == 0 => {
            "spec.startingDeadlineSeconds: 0 never starts a Job\n"
        }
        Some(deadline) if deadline.get() < 10 => {
            "spec.startingDeadlineSeconds: below 10 Kubernetes' own controller, which looks every 10 s, may start none\n"
        }
        Some(_) => "",
    }
}

fn successful_advice(count: u32) -> &'static str
    ensures { result.now ≡ successful_advice count }
{
    if count == 0 {
        "spec.successfulJobsHistoryLimit: 0 keeps no complete Job\n"
    } else {
        ""
    }
}

fn failed_advice(count: u32) -> &'static str
    ensures { result.now ≡ failed_advice count }
{
    if count == 0 {
        "spec.failedJobsHistoryLimit: 0 keeps no failed Job\n"
    } else {
        ""
    }
}

fn cron_advice(alloc: Global, spec: &CronSpec) -> Result<String, AllocError>
    ensures { IfOk result (λ s. string_bytes s ≡ cron_advice spec.now) }
{
    let suspend = suspend_advice(spec.suspend);
    let deadline = deadline_advice(spec.starting_deadline_seconds);
    let successful = successful_advice(spec.successful_limit.get());
    let failed = failed_advice(spec.failed_limit.get());
    format!(in alloc; "{suspend}{deadline}{successful}{failed}")
}

// Of a member that isn't known.
#[tactic(auto, unfolding(crate::specs::Advice::unknown_words))]
fn unknown_words(alloc: Global, path: &str, meant: &str) -> Result<String, AllocError>
    ensures { IfOk result (λ s. string_bytes s ≡ unknown_words path.now meant.now) }
{
    format!(in alloc; "{path}: no member that is known here, so it is dropped{meant}\n")
}

#[tactic(auto, unfolding(crate::specs::Advice::dropped_words))]
fn dropped_words(alloc: Global, warning: &Warning) -> Result<String, AllocError>
    ensures { IfOk result (λ s. string_bytes s ≡ dropped_words warning.now) }
{
    let path = warning.path();
    if path == "apiVersion" {
        return String::from_str(
            alloc,
            "apiVersion: read as batch/v1; Kubernetes 1.25 dropped batch/v1beta1\n",
        );
    }
    let meant = suggested(alloc, path)?;
    unknown_words(alloc, path, meant.as_str())
}

/// A line for each member that is dropped.
pub fn all_dropped_words(alloc: Global, warnings: &[Warning]) -> Result<String, AllocError>
    ensures { IfOk result (λ s. string_bytes s ≡ dropped_words_all warnings.now) }
{
    let mut text = String::new(alloc);
    for warning in warnings {
        let line = dropped_words(alloc, warning)?;
        text.push_str(line.as_str())?;
    }
    Ok(text)
}

fn joined_advice(
    alloc: Global,
    spec: &CronSpec,
    coming: &str,
    clock: &str,
) -> Result<String, AllocError>
    ensures { IfOk result (λ s. string_bytes s
        ≡ cron_advice spec.now ++ (coming.now ++ clock.now)) }
{
    let mut text = cron_advice(alloc, spec)?;
    text.push_str(coming)?;
    text.push_str(clock)?;
    Ok(text)
}

fn advice_on(
    alloc: Global,
    zones: &ZoneTable,
    spec: &CronSpec,
    moment: Option<Seconds>,
) -> Result<String, Refusal>
    ensures ok { IfOk result (λ s. IsCronAdvice spec.now (zones_of zones.now) moment
        (string_bytes s)) }
    ensures err { IfErr result (λ e. e ≡ OutOfMemory) }
{
    let coming = schedule_advice(zones, spec);
    let clock = clock_advice(alloc, zones, spec, moment)?;
    Ok(joined_advice(alloc, spec, coming, clock.as_str())?)
}

/// A line for each thing in a manifest without a fault that is worth a look, of its zone's clock
/// behind a moment.
pub fn manifest_advice(
    alloc: Global,
    zones: &ZoneTable,
    manifest: &Manifest,
    moment: Option<Seconds>,
) -> Result<String, Refusal>
    ensures ok { IfOk result (λ s. IsAdvice manifest.now (zones_of zones.now) moment
        (string_bytes s)) }
    ensures err { IfErr result (λ e. e ≡ OutOfMemory) }
{
    match manifest {
        Manifest::CronJob(draft) => advice_on(alloc, zones, draft.spec.get(), moment),
        Manifest::Job(_) => Ok(String::new(alloc)),
    }
}
