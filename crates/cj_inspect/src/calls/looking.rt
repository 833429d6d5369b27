// What a sync knows once it has read its CronJob and the Jobs of its status.
ghost use Rattle.std.specs.Prelude.{◌≡◌, IfErr};
ghost use Rattle.cj_base.specs.declared.refusal.Refusal.TheVariants.{OutOfMemory};

use cj_base::{Refusal, Text, TryCopy};
use cj_fence::{Answer, Call, Cron, Job, Row, Sync, Table};
use std::alloc::Global;

fn begun(alloc: Global, row: Row<Cron>) -> Result<Sync, Refusal>
    ensures { IfErr result (λ e. e ≡ OutOfMemory) }
{
    let Row { name, object } = row;
    let (call, answer) = (Call::CacheCron(name), Answer::Cron(Some(object)));
    Sync::Fresh.advance(alloc, &call, &answer)
}

// The name of the Job that the sync reads next.
fn next_name(alloc: Global, sync: &Sync) -> Result<Option<Text>, Refusal>
    ensures { IfErr result (λ e. e ≡ OutOfMemory) }
{
    match sync {
        Sync::Looking(_, todo, _) => match todo.as_slice() {
            [first, ..] => Ok(Some(first.name.try_copy(alloc)?)),
            [] => Ok(None),
        },
        _ => Ok(None),
    }
}

// What a GET of the Job answers.
fn got(alloc: Global, jobs: &Table<Job>, name: &Text) -> Result<Answer, Refusal>
    ensures { IfErr result (λ e. e ≡ OutOfMemory) }
{
    match jobs.find(name) {
        Some(job) => Ok(Answer::Job(Some(job.try_copy(alloc)?))),
        None => Ok(Answer::Job(None)),
    }
}

fn read(alloc: Global, sync: Sync, jobs: &Table<Job>, name: Text) -> Result<Sync, Refusal>
    ensures { IfErr result (λ e. e ≡ OutOfMemory) }
{
    let answer = got(alloc, jobs, &name)?;
    sync.advance(alloc, &Call::GetJob(name), &answer)
}

// The sync after it has read one Job more, if there is one to read.
fn read_next(alloc: Global, sync: Sync, jobs: &Table<Job>) -> Result<Sync, Refusal>
    ensures { IfErr result (λ e. e ≡ OutOfMemory) }
{
    match next_name(alloc, &sync)? {
        Some(name) => read(alloc, sync, jobs, name),
        None => Ok(sync),
    }
}

/// The sync that has read its CronJob, and of these Jobs those of its status.
pub(crate) fn looked(alloc: Global, row: Row<Cron>, jobs: &Table<Job>) -> Result<Sync, Refusal>
    ensures { IfErr result (λ e. e ≡ OutOfMemory) }
{
    let count = row.object.active.as_slice().len();
    let mut sync = begun(alloc, row)?;
    for _ in 0..count {
        sync = read_next(alloc, sync, jobs)?;
    }
    Ok(sync)
}
