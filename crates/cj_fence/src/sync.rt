ghost use Rattle.std.specs.Prelude.{◌≡◌, ◌↔◌, IsTrue, IfOk, IfErr};
ghost use Rattle.cj_base.specs.declared.refusal.Refusal.TheVariants.{OutOfMemory};

use crate::advance::{
    from_fresh, from_holding, from_looking, from_ready, from_starting, from_tidying,
};
use crate::may::{may_clear, may_drop, may_fresh, may_holding, may_look, may_ready, may_start};
use crate::{Answer, Call, Cron, Job, Ref, Refs};
use cj_base::{Refusal, Text};
use std::alloc::Global;

/// What a sync knows of its CronJob.
pub struct At {
    /// The CronJob's name.
    pub name: Text,
    /// The CronJob as it was read, or as this sync wrote it last.
    pub cron: Cron,
    /// The Jobs of its `status.active` that were found started and unfinished, and those that this
    /// sync started.
    pub alive: Refs,
}

// A function of its own, so that whoever gives one up makes one call and not one for each part.
impl Drop for At {
    fn drop(self) {
        let At { name, cron, alive } = self;
        drop(name);
        drop(cron);
        drop(alive);
    }
}

/// A held Job, as it was read or made.
pub struct Held {
    pub job: Ref,
    pub found: Job,
}

// A function of its own, so that whoever gives one up makes one call and not one for each part.
impl Drop for Held {
    fn drop(self) {
        let Held { job, found } = self;
        drop(job);
        drop(found);
    }
}

impl Held {
    /// The reference alone.
    pub(crate) fn into_job(self) -> Ref
        ensures { result ≡ self.job }
    {
        let Held { job, found: _ } = self;
        job
    }
}

/// How far one sync of a CronJob is. A sync begins with a Get of its CronJob, and may stop
/// anywhere.
#[derive(Drop)]
pub enum Sync {
    /// Nothing was called yet.
    Fresh,
    /// Of the Jobs in `status.active` these are still to be read, and one may have been found held.
    Looking(At, Refs, Option<Held>),
    /// Each Job in `status.active` is dead or was started.
    Ready(At),
    /// A held Job was made or found for a time that may be claimed for it.
    Holding(At, Held),
    /// A claimed Job is to be started, after these are deleted.
    Starting(At, Held, Refs),
    /// The Jobs were listed: the first are garbage, and the others have finished.
    Tidying(At, Refs, Refs),
    /// The CronJob is gone.
    Gone,
    /// Nothing more may be called: the next sync looks again.
    Over,
}

impl Sync {
    ghost use Rattle.cj_fence.specs.Protocol.{May, advanced};

    /// Whether the sync may make this call now.
    pub fn may(&self, call: &Call) -> bool
        ensures { IsTrue result ↔ May self.now call.now }
    {
        match self {
            Sync::Fresh => may_fresh(call),
            Sync::Looking(_, todo, _) => match todo.as_slice() {
                [first, ..] => may_look(first, call),
                [] => false,
            },
            Sync::Ready(at) => may_ready(at, call),
            Sync::Holding(at, held) => may_holding(at, held, call),
            Sync::Starting(at, held, drops) => match drops.as_slice() {
                [first, ..] => may_drop(at, held, first, call),
                [] => may_start(at, held, call),
            },
            Sync::Tidying(_, garbage, finished) => {
                may_clear(garbage.as_slice(), finished.as_slice(), call)
            }
            Sync::Gone => false,
            Sync::Over => false,
        }
    }

    /// The sync after its call and the answer to it. Where memory is wanting it is given up:
    /// another sync begins anew.
    pub fn advance(self, alloc: Global, call: &Call, answer: &Answer) -> Result<Sync, Refusal>
        ensures ok { IfOk result (λ s. s ≡ advanced self call.now answer.now) }
        ensures err { IfErr result (λ e. e ≡ OutOfMemory) }
    {
        match self {
            Sync::Fresh => from_fresh(alloc, call, answer),
            Sync::Looking(at, todo, held) => from_looking(alloc, at, todo, held, call, answer),
            Sync::Ready(at) => from_ready(alloc, at, call, answer),
            Sync::Holding(at, held) => from_holding(alloc, at, held, call, answer),
            Sync::Starting(at, held, drops) => from_starting(alloc, at, held, drops, call, answer),
            Sync::Tidying(at, garbage, finished) => {
                from_tidying(alloc, at, garbage, finished, call, answer)
            }
            Sync::Gone => Ok(Sync::Over),
            Sync::Over => Ok(Sync::Over),
        }
    }
}
