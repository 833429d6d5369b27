ghost use Rattle.std.specs.Prelude.{◌≡◌, option_copied};
ghost use Rattle.cj_types.specs.Objects.{is_unfinished, cron_of};

use crate::{DraftMeta, Key, Meta, Outcome, OwnerRefs, SpecText};
use cj_base::{Refusal, Same, Text, TryCopy, all_four};
use std::alloc::Global;

/// A stored Job.
#[derive(Debug)]
pub struct Job {
    pub key: Key,
    pub meta: Meta,
    pub owners: OwnerRefs,
    pub spec: SpecText,
    /// How it ended, if it did.
    pub outcome: Option<Outcome>,
}

impl Drop for Job {
    fn drop(self) {
        let Job {
            key: _,
            meta: _,
            owners: _,
            spec: _,
            outcome: _,
        } = self;
    }
}

impl Job {
    /// Whether the Job hasn't finished.
    pub fn is_unfinished(&self) -> bool
        ensures { result ≡ is_unfinished self.now }
    {
        self.outcome.is_none()
    }

    /// The name of the CronJob of `batch/v1` that the Job's controller reference names, if it names
    /// one.
    pub fn cron_name(&self) -> Option<&Text>
        ensures { option_copied result ≡ cron_of self.now }
    {
        let owner = self.owners.controller()?;
        if owner.is_to_cron_job() {
            Some(&owner.name)
        } else {
            None
        }
    }
}

impl TryCopy for Job {
    fn try_copy(&self, alloc: Global) -> Result<Job, Refusal> {
        let (key, meta, owners, spec) = all_four(
            self.key.try_copy(alloc),
            self.meta.try_copy(alloc),
            self.owners.try_copy(alloc),
            self.spec.try_copy(alloc),
        )?;
        Ok(Job {
            key,
            meta,
            owners,
            spec,
            outcome: self.outcome,
        })
    }
}

impl Same for Job {
    fn same(&self, other: &Job) -> bool {
        let key = self.key.same(&other.key);
        let meta = self.meta.same(&other.meta);
        let owners = self.owners.same(&other.owners);
        let spec = self.spec.same(&other.spec);
        let outcome = self.outcome == other.outcome;
        key && meta && owners && spec && outcome
    }
}

/// A Job as a manifest or the controller says it.
#[derive(Debug, Drop)]
pub struct JobDraft {
    pub key: Key,
    pub meta: DraftMeta,
    pub owners: OwnerRefs,
    pub spec: SpecText,
}

impl TryCopy for JobDraft {
    fn try_copy(&self, alloc: Global) -> Result<JobDraft, Refusal> {
        let (key, meta, owners, spec) = all_four(
            self.key.try_copy(alloc),
            self.meta.try_copy(alloc),
            self.owners.try_copy(alloc),
            self.spec.try_copy(alloc),
        )?;
        Ok(JobDraft {
            key,
            meta,
            owners,
            spec,
        })
    }
}

impl Same for JobDraft {
    fn same(&self, other: &JobDraft) -> bool {
        let key = self.key.same(&other.key);
        let meta = self.meta.same(&other.meta);
        let owners = self.owners.same(&other.owners);
        let spec = self.spec.same(&other.spec);
        key && meta && owners && spec
    }
}
