ghost use Rattle.std.specs.Prelude.{◌≡◌, [], ◌++◌, IfOk, IfErr, OnOk};
ghost use Rattle.cj_base.specs.declared.refusal.Refusal.TheVariants.{OutOfMemory};
ghost use Rattle.cj_status.specs.Refs.{ref, has_any};

use cj_types::{Job, Key, Refusal, Same, Seconds, TryCopy, Uid, copy_all, same_all};
use std::alloc::Global;
use std::marker::Model;

/// A reference to a Job in a step of a plan.
#[derive(Debug)]
pub struct JobRef {
    pub key: Key,
    pub uid: Uid,
    pub created: Seconds,
}

impl Drop for JobRef {
    fn drop(self) {
        let JobRef {
            key,
            uid: _,
            created: _,
        } = self;
        drop(key);
    }
}

impl JobRef {
    /// The reference to the Job.
    pub(crate) fn new(alloc: Global, job: &Job) -> Result<JobRef, Refusal>
        ensures ok { IfOk result (λ r. r ≡ ref job.now) }
        ensures err { IfErr result (λ e. e ≡ OutOfMemory) }
    {
        Ok(JobRef {
            key: job.key.try_copy(alloc)?,
            uid: job.meta.uid,
            created: job.meta.created,
        })
    }
}

impl TryCopy for JobRef {
    fn try_copy(&self, alloc: Global) -> Result<JobRef, Refusal> {
        Ok(JobRef {
            key: self.key.try_copy(alloc)?,
            uid: self.uid,
            created: self.created,
        })
    }
}

impl Same for JobRef {
    fn same(&self, other: &JobRef) -> bool {
        let key = self.key.same(&other.key);
        let uid = self.uid == other.uid;
        let created = self.created == other.created;
        key && uid && created
    }
}

/// References to Jobs. Contracts see the list.
#[derive(Debug)]
pub struct JobRefs {
    items: Vec<JobRef>,
}

impl Drop for JobRefs {
    fn drop(self) {
        let JobRefs { items: _ } = self;
    }
}

impl Model for JobRefs {
    ghost use Rattle.std.specs.Prelude.{List};
    ghost use Rattle.cj_status.specs.declared.refs.JobRef.{JobRef};

    ghost Value = { List JobRef };

    ghost view = { λ t. t.items.items };
}

impl JobRefs {
    /// An empty list.
    pub fn new(alloc: Global) -> JobRefs
        ensures { result ≡ [] }
    {
        JobRefs {
            items: Vec::new(alloc),
        }
    }

    /// The list with these references.
    pub(crate) fn from_vec(items: Vec<JobRef>) -> JobRefs
        ensures { result ≡ items.items }
    {
        JobRefs { items }
    }

    /// The references in their order.
    pub fn as_slice(&self) -> &[JobRef]
        ensures { result.now ≡ self.now }
    {
        self.items.as_slice()
    }

    /// Whether the list isn't empty.
    pub fn has_any(&self) -> bool
        ensures { result ≡ has_any self.now }
    {
        !self.as_slice().is_empty()
    }

    /// Appends the other references.
    pub fn append(&mut self, others: JobRefs) -> Result<(), Refusal>
        ensures ok { OnOk result (self.new ≡ self.old ++ others) }
        ensures err { IfErr result (λ e. e ≡ OutOfMemory) }
    {
        let JobRefs { mut items } = others;
        self.items
            .append(&mut items)
            .map_err(|_| Refusal::OutOfMemory)
    }
}

impl TryCopy for JobRefs {
    fn try_copy(&self, alloc: Global) -> Result<JobRefs, Refusal> {
        Ok(JobRefs {
            items: copy_all(alloc, self.items.as_slice())?,
        })
    }
}

impl Same for JobRefs {
    fn same(&self, other: &JobRefs) -> bool {
        same_all(self.as_slice(), other.as_slice())
    }
}
