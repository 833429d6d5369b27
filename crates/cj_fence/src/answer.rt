ghost use Rattle.std.specs.Prelude.{◌≡◌, IfOk, IfErr};
ghost use Rattle.cj_base.specs.declared.refusal.Refusal.TheVariants.{OutOfMemory};

use crate::{Cron, Job, Table};
use cj_base::{Refusal, Text, TryCopy};
use std::alloc::Global;

/// What the server gives a write: both were never given before.
#[derive(Drop)]
pub struct Stamp {
    /// `metadata.uid` of the object, where the write makes one.
    pub uid: Text,
    /// `metadata.resourceVersion` of the object after the write.
    pub version: Text,
}

impl TryCopy for Stamp {
    fn try_copy(&self, alloc: Global) -> Result<Stamp, Refusal> {
        Ok(Stamp {
            uid: self.uid.try_copy(alloc)?,
            version: self.version.try_copy(alloc)?,
        })
    }
}

/// What a call of a controller is answered.
#[derive(Drop)]
pub enum Answer {
    /// The CronJob of the name, if one stands (200 or 404).
    Cron(Option<Cron>),
    /// The Job of the name, if one stands (200 or 404).
    Job(Option<Job>),
    /// The Jobs under their names (200).
    Jobs(Table<Job>),
    /// A Job was made, with this uid and version (201).
    Created(Stamp),
    /// The object was written, and has this version now (200).
    Written(Text),
    /// The Job is gone, or marked to go (200).
    Deleted,
    /// A refusal (403, 404, 409, 422 ..): the server looked, and what the call asks of the object
    /// isn't so; or somebody between refused what the server carried out, or will.
    Refused,
    /// Any other answer, or none: whether the call took effect isn't known.
    Lost,
}
