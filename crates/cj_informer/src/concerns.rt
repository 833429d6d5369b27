//! The key of the CronJob that an object or an event concerns.
ghost use Rattle.std.specs.Prelude.{◌≡◌, Option, IfOk, IfErr, IsSome};
ghost use Rattle.cj_base.specs.declared.refusal.Refusal.TheVariants.{OutOfMemory};
ghost use Rattle.cj_types.specs.Keys.{Place};
ghost use Rattle.cj_informer.specs.Informs.{key_of_cron, key_of_event, key_of_job, key_of_object};

use cj_types::{
    CronJob, Event, Job, Key, Object, ObjectName, Refusal, Shared, TryCopy, name_cause,
};
use std::alloc::Global;

/// An object or an event that may concern a CronJob.
pub(crate) trait Concerns {
    ghost concerned: { Self → Option Place };

    /// The key of that CronJob, if there is one.
    fn key(&self, alloc: Global) -> Result<Option<Key>, Refusal>
        ensures ok { IfOk result (λ k. k ≡ concerned self.now) }
        ensures err { IfErr result (λ e. (e ≡ OutOfMemory) × IsSome (concerned self.now)) };
}

impl Concerns for Shared<CronJob> {
    ghost concerned = { key_of_cron };

    fn key(&self, alloc: Global) -> Result<Option<Key>, Refusal> {
        Ok(Some(self.key.key().try_copy(alloc)?))
    }
}

impl Concerns for Shared<Job> {
    ghost concerned = { key_of_job };

    fn key(&self, alloc: Global) -> Result<Option<Key>, Refusal> {
        owner_key(alloc, self)
    }
}

/// The key of the CronJob that the Job's controller reference names. A name that no object can have
/// is none.
pub fn owner_key(alloc: Global, job: &Job) -> Result<Option<Key>, Refusal>
    ensures ok { IfOk result (λ k. k ≡ key_of_job job.now) }
    ensures err { IfErr result (λ e. (e ≡ OutOfMemory) × IsSome (key_of_job job.now)) }
{
    let Some(name) = job.cron_name() else {
        return Ok(None);
    };
    if name_cause(63, name.as_str()).is_some() {
        return Ok(None);
    }
    match ObjectName::new(alloc, name.as_str()) {
        Ok(name) => Ok(Some(job.key.beside(alloc, &name)?)),
        Err(_) => Err(Refusal::OutOfMemory),
    }
}

fn object_key(alloc: Global, object: &Object) -> Result<Option<Key>, Refusal>
    ensures ok { IfOk result (λ k. k ≡ key_of_object object.now) }
    ensures err { IfErr result (λ e. (e ≡ OutOfMemory) × IsSome (key_of_object object.now)) }
{
    match object {
        Object::Cron(cron) => cron.key(alloc),
        Object::Job(job) => job.key(alloc),
    }
}

impl Concerns for Event {
    ghost concerned = { key_of_event };

    fn key(&self, alloc: Global) -> Result<Option<Key>, Refusal> {
        match self {
            Event::Added(object) => object_key(alloc, object),
            Event::Modified(object) => object_key(alloc, object),
            Event::Deleted(object) => object_key(alloc, object),
        }
    }
}
