use cj_types::{CronJob, Event, Job, Key, Listing, Refusal, Seconds, Shared, TryCopy, Version};
use std::alloc::Global;

/// The answer of an accepted call. Copies share objects and lists.
#[derive(Drop)]
pub enum Reply {
    /// A CronJob, as it is stored.
    Cron(Shared<CronJob>),
    /// A Job, as it is stored.
    Job(Shared<Job>),
    /// CronJobs by key, and the store's version.
    Crons(Listing<Shared<CronJob>>, Version),
    /// Jobs by key, and the store's version.
    Jobs(Listing<Shared<Job>>, Version),
    /// The version of a write, or of the last write that the listings know.
    Version(Version),
    Events(Listing<Event>),
    /// An answer without a value.
    Done,
    /// The key that was taken.
    Key(Key),
    /// The CronJob of the key, if there is one.
    SeenCron(Option<Shared<CronJob>>),
    /// The Jobs of the key, in order of name.
    SeenJobs(Listing<Shared<Job>>),
    /// For each active name the Job that has it, if it is the CronJob's.
    SeenActive(Listing<Option<Shared<Job>>>),
    /// The claimed time with the version of the status that says so, or none where the plan claims
    /// nothing.
    Claimed(Option<(Seconds, Version)>),
    /// The Job that was dropped with the version of its deletion, or none where it was gone.
    Dropped(Option<(Key, Version)>),
}

/// The answer of a call: a reply, or a refusal.
pub type Answer = Result<Reply, Refusal>;

impl TryCopy for Reply {
    fn try_copy(&self, alloc: Global) -> Result<Reply, Refusal> {
        Ok(match self {
            Reply::Cron(cron) => Reply::Cron(cron.try_copy(alloc)?),
            Reply::Job(job) => Reply::Job(job.try_copy(alloc)?),
            Reply::Crons(crons, version) => Reply::Crons(crons.try_copy(alloc)?, *version),
            Reply::Jobs(jobs, version) => Reply::Jobs(jobs.try_copy(alloc)?, *version),
            Reply::Version(version) => Reply::Version(*version),
            Reply::Events(events) => Reply::Events(events.try_copy(alloc)?),
            Reply::Done => Reply::Done,
            Reply::Key(key) => Reply::Key(key.try_copy(alloc)?),
            Reply::SeenCron(cron) => Reply::SeenCron(cron.try_copy(alloc)?),
            Reply::SeenJobs(jobs) => Reply::SeenJobs(jobs.try_copy(alloc)?),
            Reply::SeenActive(jobs) => Reply::SeenActive(jobs.try_copy(alloc)?),
            Reply::Claimed(claimed) => Reply::Claimed(*claimed),
            Reply::Dropped(dropped) => Reply::Dropped(copy_dropped(alloc, dropped)?),
        })
    }
}

ghost use Rattle.std.specs.Prelude.{◌≡◌, IfOk, IfErr};
ghost use Rattle.cj_base.specs.declared.refusal.Refusal.TheVariants.{OutOfMemory};

fn copy_dropped(
    alloc: Global,
    dropped: &Option<(Key, Version)>,
) -> Result<Option<(Key, Version)>, Refusal>
    ensures ok { IfOk result (λ d. d ≡ dropped.now) }
    ensures err { IfErr result (λ e. e ≡ OutOfMemory) }
{
    match dropped {
        Some((key, version)) => Ok(Some((key.try_copy(alloc)?, *version))),
        None => Ok(None),
    }
}

/// A copy of an answer.
pub(crate) fn copy_answer(alloc: Global, answer: &Answer) -> Result<Answer, Refusal>
    ensures ok { IfOk result (λ c. c ≡ answer.now) }
    ensures err { IfErr result (λ e. e ≡ OutOfMemory) }
{
    match answer {
        Ok(reply) => Ok(Ok(reply.try_copy(alloc)?)),
        Err(refusal) => Ok(Err(refusal.try_copy(alloc)?)),
    }
}
