ghost use Rattle.std.specs.Prelude.{◌≡◌};

use crate::{CronKey, Deadline, DraftMeta, HistoryLimit, Labels, Meta, Names, Policy, SpecText};
use cj_base::{Refusal, Same, Seconds, Shared, Text, TryCopy, all_four, all_three};
use std::alloc::Global;

/// The template for each Job of a CronJob (batch/v1, `JobTemplateSpec`).
#[derive(Debug)]
pub struct JobTemplate {
    pub labels: Labels,
    pub annotations: Labels,
    pub spec: SpecText,
}

impl Drop for JobTemplate {
    fn drop(self) {
        let JobTemplate {
            labels: _,
            annotations: _,
            spec: _,
        } = self;
    }
}

impl TryCopy for JobTemplate {
    fn try_copy(&self, alloc: Global) -> Result<JobTemplate, Refusal> {
        let (labels, annotations, spec) = all_three(
            self.labels.try_copy(alloc),
            self.annotations.try_copy(alloc),
            self.spec.try_copy(alloc),
        )?;
        Ok(JobTemplate {
            labels,
            annotations,
            spec,
        })
    }
}

impl Same for JobTemplate {
    fn same(&self, other: &JobTemplate) -> bool {
        let labels = self.labels.same(&other.labels);
        let annotations = self.annotations.same(&other.annotations);
        let spec = self.spec.same(&other.spec);
        labels && annotations && spec
    }
}

/// The desired state of a CronJob (batch/v1, `CronJobSpec`).
#[derive(Debug)]
pub struct CronSpec {
    /// The schedule as it was given.
    pub schedule: Text,
    /// The name of the zone, if one was given.
    pub time_zone: Option<Text>,
    pub policy: Policy,
    pub suspend: bool,
    /// How late a Job may still be started, if that is limited.
    pub starting_deadline_seconds: Option<Deadline>,
    /// How many successful Jobs are kept.
    pub successful_limit: HistoryLimit,
    /// How many failed Jobs are kept.
    pub failed_limit: HistoryLimit,
    pub template: JobTemplate,
}

impl Drop for CronSpec {
    fn drop(self) {
        let CronSpec {
            schedule: _,
            time_zone: _,
            policy: _,
            suspend: _,
            starting_deadline_seconds: _,
            successful_limit: _,
            failed_limit: _,
            template: _,
        } = self;
    }
}

impl TryCopy for CronSpec {
    fn try_copy(&self, alloc: Global) -> Result<CronSpec, Refusal> {
        let (schedule, time_zone, template) = all_three(
            self.schedule.try_copy(alloc),
            self.time_zone.try_copy(alloc),
            self.template.try_copy(alloc),
        )?;
        Ok(CronSpec {
            schedule,
            time_zone,
            policy: self.policy,
            suspend: self.suspend,
            starting_deadline_seconds: self.starting_deadline_seconds,
            successful_limit: self.successful_limit,
            failed_limit: self.failed_limit,
            template,
        })
    }
}

impl Same for CronSpec {
    fn same(&self, other: &CronSpec) -> bool {
        let schedule = self.schedule.same(&other.schedule);
        let time_zone = self.time_zone.same(&other.time_zone);
        let policy = self.policy == other.policy;
        let suspend = self.suspend == other.suspend;
        let deadline = self.starting_deadline_seconds == other.starting_deadline_seconds;
        let successful = self.successful_limit == other.successful_limit;
        let failed = self.failed_limit == other.failed_limit;
        let template = self.template.same(&other.template);
        schedule && time_zone && policy && suspend && deadline && successful && failed && template
    }
}

/// The observed state of a CronJob, which the controller writes (batch/v1, `CronJobStatus`).
#[derive(Debug)]
pub struct CronStatus {
    /// The names of the Jobs that run.
    pub active: Names,
    pub last_schedule_time: Option<Seconds>,
    pub last_successful_time: Option<Seconds>,
}

impl Drop for CronStatus {
    fn drop(self) {
        let CronStatus {
            active: _,
            last_schedule_time: _,
            last_successful_time: _,
        } = self;
    }
}

impl TryCopy for CronStatus {
    fn try_copy(&self, alloc: Global) -> Result<CronStatus, Refusal> {
        Ok(CronStatus {
            active: self.active.try_copy(alloc)?,
            last_schedule_time: self.last_schedule_time,
            last_successful_time: self.last_successful_time,
        })
    }
}

impl Same for CronStatus {
    fn same(&self, other: &CronStatus) -> bool {
        let active = self.active.same(&other.active);
        let scheduled = self.last_schedule_time == other.last_schedule_time;
        let successful = self.last_successful_time == other.last_successful_time;
        active && scheduled && successful
    }
}

/// A stored CronJob.
#[derive(Debug)]
pub struct CronJob {
    pub key: CronKey,
    pub meta: Meta,
    /// Shared, so that a write that doesn't change the spec copies none of it.
    pub spec: Shared<CronSpec>,
    pub status: CronStatus,
}

impl Drop for CronJob {
    fn drop(self) {
        let CronJob {
            key,
            meta,
            spec,
            status,
        } = self;
        drop(key);
        drop(meta);
        drop(spec);
        drop(status);
    }
}

impl CronJob {
    /// The CronJob with these names of Jobs that run in place of its own.
    pub fn with_active(self, active: Names) -> CronJob
        ensures { result ≡ record {
          key = self.key;
          meta = self.meta;
          spec = self.spec;
          status = record {
            active = active;
            last_schedule_time = self.status.last_schedule_time;
            last_successful_time = self.status.last_successful_time;
          };
        } }
    {
        let CronJob {
            key,
            meta,
            spec,
            status,
        } = self;
        CronJob {
            key,
            meta,
            spec,
            status: CronStatus {
                active,
                last_schedule_time: status.last_schedule_time,
                last_successful_time: status.last_successful_time,
            },
        }
    }
}

impl TryCopy for CronJob {
    fn try_copy(&self, alloc: Global) -> Result<CronJob, Refusal> {
        let (key, meta, spec, status) = all_four(
            self.key.try_copy(alloc),
            self.meta.try_copy(alloc),
            self.spec.try_copy(alloc),
            self.status.try_copy(alloc),
        )?;
        Ok(CronJob {
            key,
            meta,
            spec,
            status,
        })
    }
}

impl Same for CronJob {
    fn same(&self, other: &CronJob) -> bool {
        let key = self.key.same(&other.key);
        let meta = self.meta.same(&other.meta);
        let spec = self.spec.same(&other.spec);
        let status = self.status.same(&other.status);
        key && meta && spec && status
    }
}

/// A CronJob as a manifest describes it, with defaults filled in.
#[derive(Debug, Drop)]
pub struct CronJobDraft {
    pub key: CronKey,
    pub meta: DraftMeta,
    pub spec: Shared<CronSpec>,
}

impl TryCopy for CronJobDraft {
    fn try_copy(&self, alloc: Global) -> Result<CronJobDraft, Refusal> {
        let (key, meta, spec) = all_three(
            self.key.try_copy(alloc),
            self.meta.try_copy(alloc),
            self.spec.try_copy(alloc),
        )?;
        Ok(CronJobDraft { key, meta, spec })
    }
}

impl Same for CronJobDraft {
    fn same(&self, other: &CronJobDraft) -> bool {
        let key = self.key.same(&other.key);
        let meta = self.meta.same(&other.meta);
        let spec = self.spec.same(&other.spec);
        key && meta && spec
    }
}
