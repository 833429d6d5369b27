use crate::manifests::answers::{cron_answer, job_answer, zones};
use cj_manifest::read_cronjob;
use cj_types::{CronSpec, Refusal};
use cj_zone::ZoneTable;
use std::alloc::{AllocError, Global};
use std::test::Fail;

const CRON: &str =
    r#"{"apiVersion":"batch/v1","kind":"CronJob","metadata":{"name":"hello","namespace":"ns","labels":{"a":"b"},"annotations":{"e":"f"},"uid":"u","resourceVersion":"7"},"spec":{"schedule":"*/5 * * * *","timeZone":"Europe/Rome","concurrencyPolicy":"Forbid","suspend":true,"startingDeadlineSeconds":9,"successfulJobsHistoryLimit":5,"failedJobsHistoryLimit":6,"jobTemplate":{"metadata":{"labels":{"c":"d"},"annotations":{"g":"h"}},"spec":{"template":{"spec":{"restartPolicy":"Never"}}}}}}"#;

const JOB: &str =
    r#"{"apiVersion":"batch/v1","kind":"Job","metadata":{"name":"hello","namespace":"ns","labels":{"a":"b"},"annotations":{"e":"f"},"uid":"u","resourceVersion":"7","ownerReferences":[{"apiVersion":"v1","kind":"Node","name":"n","uid":"x","controller":true,"blockOwnerDeletion":true}]},"spec":{"template":{"spec":{"restartPolicy":"OnFailure"}}}}"#;

const SHORT: &str =
    r#"{"apiVersion":"batch/v1","kind":"CronJob","metadata":{"name":"a"},"spec":{"schedule":"@daily","concurrencyPolicy":"","jobTemplate":{"spec":{"z":null,"template":{"spec":{"restartPolicy":"Never"}},"a":[2,1]}}}}"#;

// The first text that the reader of CronJobs answers otherwise than it is said here.
fn other_cron(alloc: Global) -> Result<Option<&'static str>, Refusal> {
    let zones = zones(alloc)?;
    for (text, want) in [
        (CRON, "ok ns/hello"),
        (
            JOB,
            "kind NotSupported, spec.schedule Required, spec.jobTemplate Required",
        ),
        ("null", "$ Type"),
        (" ", "Syntax"),
    ] {
        if cron_answer(alloc, &zones, text)?.as_str() != want {
            return Ok(Some(text));
        }
    }
    Ok(None)
}

// The first text that the reader of Jobs answers otherwise than it is said here.
fn other_job(alloc: Global) -> Result<Option<&'static str>, Refusal> {
    for (text, want) in [
        (JOB, "ok ns/hello"),
        (CRON, "kind NotSupported, spec.template Required"),
        ("[1.5]", "$ Type"),
        ("{} {}", "Syntax"),
    ] {
        if job_answer(alloc, text)?.as_str() != want {
            return Ok(Some(text));
        }
    }
    Ok(None)
}

// A command reads a manifest by its kind; each of the two readers refuses the other's.
// rules: manifest-json, all-faults
#[test]
fn refuses_the_other_kind(rt: HostRuntime) -> Result<(), Fail> {
    let crons = matches!(other_cron(rt.alloc()), Ok(None));
    let jobs = matches!(other_job(rt.alloc()), Ok(None));
    assert_eq!(rt; (crons, jobs), (true, true));
    Ok(())
}

fn spec_text(alloc: Global, spec: &CronSpec) -> Result<String, AllocError> {
    let zone = match &spec.time_zone {
        Some(name) => name.as_str(),
        None => "-",
    };
    let deadline = spec
        .starting_deadline_seconds
        .map_or(0, |limit| limit.get());
    format!(in alloc;
        "{} {zone} {} {} {deadline} {} {} {}",
        spec.schedule.as_str(),
        spec.policy.name(),
        spec.suspend,
        spec.successful_limit.get(),
        spec.failed_limit.get(),
        spec.template.spec.as_str()
    )
}

fn said(alloc: Global, zones: &ZoneTable, text: &str) -> Result<String, Refusal> {
    let (draft, _warnings) = read_cronjob(alloc, text.as_bytes(), zones)?;
    Ok(spec_text(alloc, &draft.spec)?)
}

// The first text that is read otherwise than it says.
fn other_said(alloc: Global) -> Result<Option<&'static str>, Refusal> {
    let zones = zones(alloc)?;
    for (text, want) in [
        (
            CRON,
            r#"*/5 * * * * Europe/Rome Forbid true 9 5 6 {"template":{"spec":{"restartPolicy":"Never"}}}"#,
        ),
        (
            SHORT,
            r#"@daily - Allow false 0 3 1 {"a":[2,1],"template":{"spec":{"restartPolicy":"Never"}},"z":null}"#,
        ),
    ] {
        if said(alloc, &zones, text)?.as_str() != want {
            return Ok(Some(text));
        }
    }
    Ok(None)
}

// rules: drafts, kept-below
#[test]
fn reads_what_is_said(rt: HostRuntime) -> Result<(), Fail> {
    assert!(rt; matches!(other_said(rt.alloc()), Ok(None)));
    Ok(())
}
