use cj_json::Written;
use cj_types::{
    CronJob, CronKey, CronSpec, CronStatus, Deadline, HistoryLimit, Job, JobTemplate, Key, Labels,
    Meta, Names, ObjectName, Outcome, OwnerRef, OwnerRefs, Policy, Refusal, Seconds, Shared,
    SpecText, Text, Uid, Version,
};
use std::alloc::Global;
use std::test::Fail;

const KEPT: &str = r#"{"a":null,"b":[1,-2],"template":{}}"#;

const PLAIN_CRON: &str =
    r#"{"apiVersion":"batch/v1","kind":"CronJob","metadata":{"creationTimestamp":"2024-01-01T00:00:00Z","generation":1,"name":"hello","namespace":"ns","resourceVersion":"7","uid":"00000000-0000-0000-0000-00000000000b"},"spec":{"concurrencyPolicy":"Allow","failedJobsHistoryLimit":1,"jobTemplate":{"spec":{"a":null,"b":[1,-2],"template":{}}},"schedule":"@hourly","successfulJobsHistoryLimit":3,"suspend":false}}"#;

const FULL_CRON: &str =
    r#"{"apiVersion":"batch/v1","kind":"CronJob","metadata":{"annotations":{"e":"f"},"creationTimestamp":"2024-01-01T00:00:00Z","generation":1,"labels":{"a":"b"},"name":"hello","namespace":"ns","resourceVersion":"7","uid":"00000000-0000-0000-0000-00000000000b"},"spec":{"concurrencyPolicy":"Replace","failedJobsHistoryLimit":0,"jobTemplate":{"metadata":{"labels":{"c":"\"d"}},"spec":{"a":null,"b":[1,-2],"template":{}}},"schedule":"@hourly","startingDeadlineSeconds":9,"successfulJobsHistoryLimit":2147483647,"suspend":true,"timeZone":"UTC"},"status":{"active":[{"apiVersion":"batch/v1","kind":"Job","name":"x","namespace":"ns"}],"lastScheduleTime":"2024-01-01T00:01:00Z","lastSuccessfulTime":"2024-01-01T00:02:00Z"}}"#;

const OWNED_JOB: &str =
    r#"{"apiVersion":"batch/v1","kind":"Job","metadata":{"creationTimestamp":"2024-01-01T00:00:00Z","generation":1,"name":"hello","namespace":"ns","ownerReferences":[{"apiVersion":"v1","blockOwnerDeletion":false,"controller":true,"kind":"Node","name":"n","uid":"u"}],"resourceVersion":"7","uid":"00000000-0000-0000-0000-00000000000b"},"spec":{"a":null,"b":[1,-2],"template":{}},"status":{"completionTime":"2024-01-01T00:01:00Z","conditions":[{"status":"True","type":"Complete"}]}}"#;

const FAILED_JOB: &str =
    r#"{"apiVersion":"batch/v1","kind":"Job","metadata":{"creationTimestamp":"2024-01-01T00:00:00Z","generation":1,"name":"hello","namespace":"ns","resourceVersion":"7","uid":"00000000-0000-0000-0000-00000000000b"},"spec":{"a":null,"b":[1,-2],"template":{}},"status":{"conditions":[{"status":"True","type":"Failed"}]}}"#;

// A moment so many minutes after 2024-01-01T00:00:00Z.
fn minute(count: u64) -> Option<Seconds> {
    if count < 100 {
        Seconds::new(1_704_067_200 + 60 * count)
    } else {
        None
    }
}

// One label, or one annotation.
fn one(alloc: Global, name: &str, value: &str) -> Result<Labels, Refusal> {
    let mut labels = Labels::new(alloc);
    labels.put(Text::new(alloc, name)?, Text::new(alloc, value)?)?;
    Ok(labels)
}

fn meta(labels: Labels, annotations: Labels) -> Option<Meta> {
    Some(Meta {
        uid: Uid::new(11)?,
        version: Version::new(7),
        generation: 1,
        created: minute(0)?,
        labels,
        annotations,
    })
}

fn plain_meta(alloc: Global) -> Option<Meta> {
    meta(Labels::new(alloc), Labels::new(alloc))
}

fn spec_text(alloc: Global, text: &str) -> Result<SpecText, Refusal> {
    SpecText::new(alloc, Text::new(alloc, text)?)
}

fn template(alloc: Global, labels: Labels, kept: &str) -> Result<JobTemplate, Refusal> {
    Ok(JobTemplate {
        labels,
        annotations: Labels::new(alloc),
        spec: spec_text(alloc, kept)?,
    })
}

fn plain_spec(alloc: Global, kept: &str) -> Result<CronSpec, Refusal> {
    Ok(CronSpec {
        schedule: Text::new(alloc, "@hourly")?,
        time_zone: None,
        policy: Policy::Allow,
        suspend: false,
        starting_deadline_seconds: None,
        successful_limit: HistoryLimit::from(3),
        failed_limit: HistoryLimit::from(1),
        template: template(alloc, Labels::new(alloc), kept)?,
    })
}

fn full_spec(alloc: Global, template: JobTemplate) -> Option<CronSpec> {
    Some(CronSpec {
        schedule: Text::new(alloc, "@hourly").ok()?,
        time_zone: Some(Text::new(alloc, "UTC").ok()?),
        policy: Policy::Replace,
        suspend: true,
        starting_deadline_seconds: Some(Deadline::from(9)),
        successful_limit: HistoryLimit::new(2_147_483_647)?,
        failed_limit: HistoryLimit::from(0),
        template,
    })
}

fn plain_status(alloc: Global) -> CronStatus {
    CronStatus {
        active: Names::new(alloc),
        last_schedule_time: None,
        last_successful_time: None,
    }
}

fn full_status(alloc: Global) -> Result<CronStatus, Refusal> {
    let mut active = Names::new(alloc);
    active.push(ObjectName::new(alloc, "x")?)?;
    Ok(CronStatus {
        active,
        last_schedule_time: minute(1),
        last_successful_time: minute(2),
    })
}

fn cron(alloc: Global, meta: Meta, spec: CronSpec, status: CronStatus) -> Option<CronJob> {
    Some(CronJob {
        key: CronKey::new(alloc, "ns", "hello").ok()?,
        meta,
        spec: Shared::new(alloc, spec).ok()?,
        status,
    })
}

fn plain_cron(alloc: Global, kept: &str) -> Option<CronJob> {
    let spec = plain_spec(alloc, kept).ok()?;
    cron(alloc, plain_meta(alloc)?, spec, plain_status(alloc))
}

fn owner(alloc: Global) -> Result<OwnerRef, Refusal> {
    Ok(OwnerRef {
        api_version: Text::new(alloc, "v1")?,
        kind: Text::new(alloc, "Node")?,
        name: Text::new(alloc, "n")?,
        uid: Text::new(alloc, "u")?,
        controller: true,
        block_owner_deletion: false,
    })
}

fn one_owner(alloc: Global) -> Result<OwnerRefs, Refusal> {
    let mut owners = OwnerRefs::new(alloc);
    owners.push(owner(alloc)?)?;
    Ok(owners)
}

fn job(alloc: Global, owners: OwnerRefs, spec: SpecText, outcome: Option<Outcome>) -> Option<Job> {
    Some(Job {
        key: Key::new(alloc, "ns", "hello").ok()?,
        meta: plain_meta(alloc)?,
        owners,
        spec,
        outcome,
    })
}

fn failed_job(alloc: Global, kept: &str) -> Option<Job> {
    let spec = spec_text(alloc, kept).ok()?;
    job(alloc, OwnerRefs::new(alloc), spec, Some(Outcome::Failed))
}

fn full_cron(alloc: Global) -> Option<CronJob> {
    let labels = one(alloc, "a", "b").ok()?;
    let meta = meta(labels, one(alloc, "e", "f").ok()?)?;
    let template = template(alloc, one(alloc, "c", "\"d").ok()?, KEPT).ok()?;
    let spec = full_spec(alloc, template)?;
    cron(alloc, meta, spec, full_status(alloc).ok()?)
}

fn owned_job(alloc: Global) -> Option<Job> {
    let owners = one_owner(alloc).ok()?;
    let spec = spec_text(alloc, KEPT).ok()?;
    job(alloc, owners, spec, minute(1).map(Outcome::Complete))
}

// Whether an object was made, and is written as the text.
fn is_written<W: Written + Drop>(alloc: Global, made: Option<W>, want: &str) -> bool {
    let Some(object) = made else {
        return false;
    };
    match object.write(alloc) {
        Ok(text) => text.as_str() == want,
        Err(_) => false,
    }
}

// Whether an object was made, and isn't written, since what it keeps is no JSON of whole numbers.
fn is_syntax<W: Written + Drop>(alloc: Global, made: Option<W>) -> bool {
    let Some(object) = made else {
        return false;
    };
    let value = matches!(object.to_value(alloc), Err(Refusal::Syntax));
    let text = matches!(object.write(alloc), Err(Refusal::Syntax));
    value && text
}

// rule: written
#[test]
fn writes_cron_jobs(rt: HostRuntime) -> Result<(), Fail> {
    let plain = is_written(rt.alloc(), plain_cron(rt.alloc(), KEPT), PLAIN_CRON);
    let full = is_written(rt.alloc(), full_cron(rt.alloc()), FULL_CRON);
    assert_eq!(rt; (plain, full), (true, true));
    Ok(())
}

// rule: written
#[test]
fn writes_jobs(rt: HostRuntime) -> Result<(), Fail> {
    let failed = is_written(rt.alloc(), failed_job(rt.alloc(), KEPT), FAILED_JOB);
    let complete = is_written(rt.alloc(), owned_job(rt.alloc()), OWNED_JOB);
    assert_eq!(rt; (failed, complete), (true, true));
    Ok(())
}

// The first of the texts, none of which is kept of a manifest, that is written all the same.
fn first_written(alloc: Global) -> Option<&'static str> {
    for kept in ["", "{", "{\"a\":1.5}", "[18446744073709551616]", "-0"] {
        let cron = is_syntax(alloc, plain_cron(alloc, kept));
        let job = is_syntax(alloc, failed_job(alloc, kept));
        if !(cron && job) {
            return Some(kept);
        }
    }
    None
}

// rule: written
#[test]
fn refuses_what_was_not_kept(rt: HostRuntime) -> Result<(), Fail> {
    assert_eq!(rt; first_written(rt.alloc()), None);
    Ok(())
}
