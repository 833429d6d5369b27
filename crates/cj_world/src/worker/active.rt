ghost use Rattle.std.specs.Prelude.{◌≡◌, IfOk, IfErr, option_copied, map};
ghost use Rattle.cj_base.specs.declared.refusal.Refusal.TheVariants.{OutOfMemory};
ghost use Rattle.cj_types.specs.Uids.{uid_text};
ghost use Rattle.cj_state.specs.Readings.{if_mine, active_job, active_of};

use cj_status::is_mine;
use cj_store::Store;
use cj_types::{CronJob, Job, Key, Listing, ObjectName, Refusal, Shared, TryCopy, Uid};
use std::alloc::{AllocError, Global};

// The Job, where it is one of the CronJob with the uid.
fn if_mine(
    alloc: Global,
    uid: &Uid,
    job: Option<&Shared<Job>>,
) -> Result<Option<Shared<Job>>, Refusal>
    ensures ok { IfOk result (λ j. j ≡ if_mine (uid_text uid.now) (option_copied job.entry)) }
    ensures err { IfErr result (λ e. e ≡ OutOfMemory) }
{
    match job {
        Some(job) if is_mine(uid, job.get()) => Ok(Some(job.try_copy(alloc)?)),
        _ => Ok(None),
    }
}

fn active_job(
    alloc: Global,
    store: &Store,
    uid: &Uid,
    cron: &Key,
    name: &ObjectName,
) -> Result<Option<Shared<Job>>, Refusal>
    ensures ok { IfOk result (λ j. j ≡ active_job store.now (uid_text uid.now) cron.now.namespace
        name.now) }
    ensures err { IfErr result (λ e. e ≡ OutOfMemory) }
{
    let key = cron.beside(alloc, name)?;
    if_mine(alloc, uid, store.get_job(&key))
}

fn active_jobs(
    alloc: Global,
    store: &Store,
    uid: &Uid,
    cron: &Key,
    names: &[ObjectName],
) -> Result<Vec<Option<Shared<Job>>>, Refusal>
    ensures ok { IfOk result (λ js. js.items
        ≡ map (active_job store.now (uid_text uid.now) cron.now.namespace) names.now) }
    ensures err { IfErr result (λ e. e ≡ OutOfMemory) }
{
    let mut jobs = Vec::new(alloc);
    for name in names {
        jobs.push(active_job(alloc, store, uid, cron, name)?)
            .map_err(AllocError::from)?;
    }
    Ok(jobs)
}

// What the names that the CronJob's status gives as active are by now.
pub(crate) fn active_of(
    alloc: Global,
    store: &Store,
    cron: &Option<Shared<CronJob>>,
) -> Result<Listing<Option<Shared<Job>>>, Refusal>
    ensures ok { IfOk result (λ js. js ≡ active_of store.now cron.now) }
    ensures err { IfErr result (λ e. e ≡ OutOfMemory) }
{
    let Some(cron) = cron else {
        return Listing::new(alloc, Vec::new(alloc));
    };
    let cron = cron.get();
    let names = cron.status.active.as_slice();
    let jobs = active_jobs(alloc, store, &cron.meta.uid, cron.key.key(), names)?;
    Listing::new(alloc, jobs)
}
