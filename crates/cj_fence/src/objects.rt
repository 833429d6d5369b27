ghost use Rattle.std.specs.Prelude.{◌≡◌, IfOk, IfErr};
ghost use Rattle.cj_base.specs.declared.refusal.Refusal.TheVariants.{OutOfMemory};

use crate::{Policy, Refs};
use cj_base::{Refusal, Text, TryCopy};
use std::alloc::Global;

/// What of a CronJob counts here (batch/v1, CronJob). Contracts compare its uid and version, and
/// never order them.

pub struct Cron {
    /// `metadata.uid`.
    pub uid: Text,
    /// `metadata.resourceVersion`.
    pub version: Text,
    /// `status.lastScheduleTime`; 0 where there is none.
    pub last: u64,
    /// `status.lastSuccessfulTime`; 0 where there is none.
    pub success: u64,
    /// `status.active`.
    pub active: Refs,
    /// `spec.concurrencyPolicy`.
    pub policy: Policy,
    /// `spec.startingDeadlineSeconds`.
    pub deadline: Option<u64>,
}

// A function of its own, so that whoever gives one up makes one call and not one for each part.
impl Drop for Cron {
    fn drop(self) {
        let Cron {
            uid,
            version,
            last: _,
            success: _,
            active,
            policy: _,
            deadline: _,
        } = self;
        drop(uid);
        drop(version);
        drop(active);
    }
}

impl TryCopy for Cron {
    fn try_copy(&self, alloc: Global) -> Result<Cron, Refusal> {
        Ok(Cron {
            uid: self.uid.try_copy(alloc)?,
            version: self.version.try_copy(alloc)?,
            last: self.last,
            success: self.success,
            active: self.active.try_copy(alloc)?,
            policy: self.policy,
            deadline: self.deadline,
        })
    }
}

/// What of a Job counts here (batch/v1, Job).

pub struct Job {
    /// `metadata.uid`.
    pub uid: Text,
    /// `metadata.resourceVersion`.
    pub version: Text,
    /// The uid of its controller in `metadata.ownerReferences`; empty where there is none.
    pub owner: Text,
    /// Its scheduled time, an annotation.
    pub time: u64,
    /// The policy under which it was made, an annotation.
    pub policy: Policy,
    /// Whether it carries the annotation that it is held, which a start takes away. A held Job runs
    /// no Pod.
    pub held: bool,
    /// Whether `status.conditions` has Complete or Failed.
    pub finished: bool,
    /// Whether it has a `metadata.deletionTimestamp`.
    pub deleting: bool,
    /// Whether it has `metadata.finalizers`, so that a DELETE marks it and something else takes it
    /// away later.
    pub pinned: bool,
}

// A function of its own, so that whoever gives one up makes one call and not one for each part.
impl Drop for Job {
    fn drop(self) {
        let Job {
            uid,
            version,
            owner,
            time: _,
            policy: _,
            held: _,
            finished: _,
            deleting: _,
            pinned: _,
        } = self;
        drop(uid);
        drop(version);
        drop(owner);
    }
}

impl TryCopy for Job {
    fn try_copy(&self, alloc: Global) -> Result<Job, Refusal> {
        Ok(Job {
            uid: self.uid.try_copy(alloc)?,
            version: self.version.try_copy(alloc)?,
            owner: self.owner.try_copy(alloc)?,
            time: self.time,
            policy: self.policy,
            held: self.held,
            finished: self.finished,
            deleting: self.deleting,
            pinned: self.pinned,
        })
    }
}
