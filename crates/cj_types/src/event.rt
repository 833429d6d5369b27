ghost use Rattle.std.specs.Prelude.{◌≡◌};

use crate::{CronJob, Job};
use cj_base::{Refusal, Same, Shared, TryCopy, Version};
use std::alloc::Global;

/// A CronJob or a Job, shared with all other holders of it.
#[derive(Debug, Drop)]
pub enum Object {
    Cron(Shared<CronJob>),
    Job(Shared<Job>),
}

impl TryCopy for Object {
    fn try_copy(&self, alloc: Global) -> Result<Object, Refusal> {
        match self {
            Object::Cron(cron) => Ok(Object::Cron(cron.try_copy(alloc)?)),
            Object::Job(job) => Ok(Object::Job(job.try_copy(alloc)?)),
        }
    }
}

impl Same for Object {
    fn same(&self, other: &Object) -> bool {
        match (self, other) {
            (Object::Cron(a), Object::Cron(b)) => a.same(b),
            (Object::Job(a), Object::Job(b)) => a.same(b),
            _ => false,
        }
    }
}

impl Object {
    ghost use Rattle.cj_types.specs.Events.{object_version};

    /// The version of the object's latest write.
    pub fn version(&self) -> Version
        ensures { result ≡ object_version self.now }
    {
        match self {
            Object::Cron(cron) => cron.meta.version,
            Object::Job(job) => job.meta.version,
        }
    }
}

/// A watch event of one write (Kubernetes, "Efficient detection of changes").
#[derive(Debug, Drop)]
pub enum Event {
    /// ADDED: the object as it was created.
    Added(Object),
    /// MODIFIED: the object after the write.
    Modified(Object),
    /// DELETED: the object's last state, with the version of the deletion.
    Deleted(Object),
}

impl Event {
    ghost use Rattle.cj_types.specs.Events.{version_of};

    /// The version of the event's write.
    pub fn version(&self) -> Version
        ensures { result ≡ version_of self.now }
    {
        match self {
            Event::Added(object) => object.version(),
            Event::Modified(object) => object.version(),
            Event::Deleted(object) => object.version(),
        }
    }
}

impl TryCopy for Event {
    fn try_copy(&self, alloc: Global) -> Result<Event, Refusal> {
        match self {
            Event::Added(object) => Ok(Event::Added(object.try_copy(alloc)?)),
            Event::Modified(object) => Ok(Event::Modified(object.try_copy(alloc)?)),
            Event::Deleted(object) => Ok(Event::Deleted(object.try_copy(alloc)?)),
        }
    }
}

impl Same for Event {
    fn same(&self, other: &Event) -> bool {
        match (self, other) {
            (Event::Added(a), Event::Added(b)) => a.same(b),
            (Event::Modified(a), Event::Modified(b)) => a.same(b),
            (Event::Deleted(a), Event::Deleted(b)) => a.same(b),
            _ => false,
        }
    }
}
