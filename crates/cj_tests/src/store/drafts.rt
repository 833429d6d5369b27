use cj_base::{all_four, all_three, both};
use cj_types::{
    CronJobDraft, CronKey, CronSpec, DraftMeta, HistoryLimit, JobDraft, JobTemplate, Key, Labels,
    OwnerRef, OwnerRefs, Policy, Refusal, Seconds, Shared, SpecText, Text, Version, version_text,
};
use std::alloc::Global;

/// The name of the CronJob.
pub const CRON: &str = "n0";

pub fn seconds(count: u64) -> Result<Seconds, Refusal> {
    Seconds::new(count).ok_or(Refusal::Syntax)
}

fn version_given(alloc: Global, version: Option<u64>) -> Result<Option<Text>, Refusal> {
    match version {
        Some(count) => Ok(Some(version_text(alloc, Version::new(count))?)),
        None => Ok(None),
    }
}

fn meta(alloc: Global, version: Option<u64>) -> Result<DraftMeta, Refusal> {
    Ok(DraftMeta {
        uid: None,
        version: version_given(alloc, version)?,
        labels: Labels::new(alloc),
        annotations: Labels::new(alloc),
    })
}

fn spec_text(alloc: Global, text: &str) -> Result<SpecText, Refusal> {
    SpecText::new(alloc, Text::new(alloc, text)?)
}

fn cron_spec(alloc: Global, schedule: &str) -> Result<CronSpec, Refusal> {
    let (schedule, spec) = both(Text::new(alloc, schedule), spec_text(alloc, "{}"))?;
    Ok(CronSpec {
        schedule,
        time_zone: None,
        policy: Policy::Forbid,
        suspend: false,
        starting_deadline_seconds: None,
        successful_limit: HistoryLimit::from(3),
        failed_limit: HistoryLimit::from(1),
        template: JobTemplate {
            labels: Labels::new(alloc),
            annotations: Labels::new(alloc),
            spec,
        },
    })
}

fn shared_spec(alloc: Global, schedule: &str) -> Result<Shared<CronSpec>, Refusal> {
    Shared::new(alloc, cron_spec(alloc, schedule)?)
}

/// The CronJob with this schedule and no status, and the version that it carries.
pub fn cron_draft(
    alloc: Global,
    schedule: &str,
    version: Option<u64>,
) -> Result<CronJobDraft, Refusal> {
    let (key, meta, spec) = all_three(
        CronKey::new(alloc, "default", CRON),
        meta(alloc, version),
        shared_spec(alloc, schedule),
    )?;
    Ok(CronJobDraft { key, meta, spec })
}

fn one_owner(alloc: Global, name: &str, uid: &str) -> Result<OwnerRefs, Refusal> {
    let (api_version, kind, name, uid) = all_four(
        Text::new(alloc, "batch/v1"),
        Text::new(alloc, "CronJob"),
        Text::new(alloc, name),
        Text::new(alloc, uid),
    )?;
    let mut owners = OwnerRefs::new(alloc);
    owners.push(OwnerRef {
        api_version,
        kind,
        name,
        uid,
        controller: true,
        block_owner_deletion: true,
    })?;
    Ok(owners)
}

// A Job that a CronJob of this name and uid controls.
pub fn owned_draft(alloc: Global, name: &str, cron: &str, uid: &str) -> Result<JobDraft, Refusal> {
    let (key, owners, spec) = all_three(
        Key::new(alloc, "default", name),
        one_owner(alloc, cron, uid),
        spec_text(alloc, "{}"),
    )?;
    Ok(JobDraft {
        key,
        meta: DraftMeta {
            uid: None,
            version: None,
            labels: Labels::new(alloc),
            annotations: Labels::new(alloc),
        },
        owners,
        spec,
    })
}
