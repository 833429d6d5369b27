ghost use Rattle.std.specs.Prelude.{◌≡◌, [], ◌∷◌, ◌++◌, IfOk, IfErr, OnOk};
ghost use Rattle.cj_base.specs.declared.refusal.Refusal.TheVariants.{OutOfMemory};
ghost use Rattle.cj_types.specs.Uids.{uid_text};
ghost use Rattle.cj_status.specs.Mine.{is_running, present};
ghost use Rattle.cj_status.specs.Refs.{ref, refs};
ghost use Rattle.cj_status.specs.Picked.{picks, gathered, listed, picked, running};

use crate::mine::{is_complete, is_failed, is_mine, is_running};
use crate::order::{Sorting, sort};
use crate::refs::{JobRef, JobRefs};
use cj_types::{Job, Refusal, Shared, Uid};
use std::alloc::Global;

/// A choice of Jobs in a listing, by the CronJob's uid.
#[derive(Clone, Copy, Debug, PartialEq, Eq)]
pub enum Pick {
    /// The CronJob's own Jobs that haven't finished.
    Running,
    /// The CronJob's own Jobs that succeeded.
    Completed,
    /// The CronJob's own Jobs that failed.
    Failed,
    /// The Jobs that aren't the CronJob's own.
    Foreign,
}

fn picks(pick: Pick, uid: &Uid, job: &Job) -> bool
    ensures { result ≡ picks pick (uid_text uid.now) job.now }
{
    let mine = is_mine(uid, job);
    match pick {
        Pick::Running => mine && job.is_unfinished(),
        Pick::Completed => mine && is_complete(job),
        Pick::Failed => mine && is_failed(job),
        Pick::Foreign => !mine,
    }
}

// Appends the reference to the Job.
fn push_ref(alloc: Global, items: &mut Vec<JobRef>, job: &Job) -> Result<(), Refusal>
    ensures ok { OnOk result (items.new.items ≡ items.old.items ++ ref job.now ∷ []) }
    ensures err { IfErr result (λ e. e ≡ OutOfMemory) }
{
    items
        .push(JobRef::new(alloc, job)?)
        .map_err(|_| Refusal::OutOfMemory)
}

// The chosen Jobs of the listing, in the listing's order.
fn gather(
    alloc: Global,
    pick: Pick,
    uid: &Uid,
    jobs: &[Shared<Job>],
) -> Result<Vec<JobRef>, Refusal>
    ensures ok { IfOk result (λ r. r.items ≡ gathered (picks pick (uid_text uid.now)) jobs.now) }
    ensures err { IfErr result (λ e. e ≡ OutOfMemory) }
{
    let mut items = Vec::new(alloc);
    for job in jobs {
        if picks(pick, uid, job.get()) {
            push_ref(alloc, &mut items, job.get())?;
        }
    }
    Ok(items)
}

pub(crate) fn picked_items(
    alloc: Global,
    pick: Pick,
    by: Sorting,
    uid: &Uid,
    jobs: &[Shared<Job>],
) -> Result<Vec<JobRef>, Refusal>
    ensures ok { IfOk result (λ r. r.items ≡ picked pick by (uid_text uid.now) jobs.now) }
    ensures err { IfErr result (λ e. e ≡ OutOfMemory) }
{
    let mut items = gather(alloc, pick, uid, jobs)?;
    sort(by, &mut items)?;
    Ok(items)
}

/// The chosen Jobs of a listing, sorted.
pub fn picked(
    alloc: Global,
    pick: Pick,
    by: Sorting,
    uid: &Uid,
    jobs: &[Shared<Job>],
) -> Result<JobRefs, Refusal>
    ensures ok { IfOk result (λ r. r ≡ picked pick by (uid_text uid.now) jobs.now) }
    ensures err { IfErr result (λ e. e ≡ OutOfMemory) }
{
    let items = picked_items(alloc, pick, by, uid, jobs)?;
    Ok(JobRefs::from_vec(items))
}

// All Jobs of the listing, in the listing's order.
fn gather_all(alloc: Global, jobs: &[Shared<Job>]) -> Result<Vec<JobRef>, Refusal>
    ensures ok { IfOk result (λ r. r.items ≡ refs jobs.now) }
    ensures err { IfErr result (λ e. e ≡ OutOfMemory) }
{
    let mut items = Vec::new(alloc);
    for job in jobs {
        push_ref(alloc, &mut items, job.get())?;
    }
    Ok(items)
}

/// All Jobs of a listing, sorted.
pub fn listed(alloc: Global, by: Sorting, jobs: &[Shared<Job>]) -> Result<JobRefs, Refusal>
    ensures ok { IfOk result (λ r. r ≡ listed by jobs.now) }
    ensures err { IfErr result (λ e. e ≡ OutOfMemory) }
{
    let mut items = gather_all(alloc, jobs)?;
    sort(by, &mut items)?;
    Ok(JobRefs::from_vec(items))
}

// Appends the Job that was found, if there is one and it hasn't finished.
fn push_running(
    alloc: Global,
    uid: &Uid,
    found: &Option<Shared<Job>>,
    items: &mut Vec<JobRef>,
) -> Result<(), Refusal>
    ensures ok { OnOk result (items.new.items
        ≡ items.old.items ++ gathered (is_running (uid_text uid.now)) (present (found.now ∷ []))) }
    ensures err { IfErr result (λ e. e ≡ OutOfMemory) }
{
    let Some(job) = found else {
        return Ok(());
    };
    if !is_running(uid, job.get()) {
        return Ok(());
    }
    push_ref(alloc, items, job.get())
}

// The unfinished Jobs that were found, in the order of the reads.
fn gather_found(
    alloc: Global,
    uid: &Uid,
    found: &[Option<Shared<Job>>],
) -> Result<Vec<JobRef>, Refusal>
    ensures ok { IfOk result (λ r. r.items
        ≡ gathered (is_running (uid_text uid.now)) (present found.now)) }
    ensures err { IfErr result (λ e. e ≡ OutOfMemory) }
{
    let mut items = Vec::new(alloc);
    for one in found {
        push_running(alloc, uid, one, &mut items)?;
    }
    Ok(items)
}

/// The unfinished Jobs of the CronJob that a live read found, by creation time, then name.
pub fn running_found(
    alloc: Global,
    uid: &Uid,
    found: &[Option<Shared<Job>>],
) -> Result<JobRefs, Refusal>
    ensures ok { IfOk result (λ r. r ≡ running (uid_text uid.now) (present found.now)) }
    ensures err { IfErr result (λ e. e ≡ OutOfMemory) }
{
    let mut items = gather_found(alloc, uid, found)?;
    sort(Sorting::ByAge, &mut items)?;
    Ok(JobRefs::from_vec(items))
}
