ghost use Rattle.std.specs.Prelude.{◌≡◌, ◌≤◌, length, not, position, unwrap_or, IfOk, IfErr};
ghost use Rattle.cj_base.specs.declared.refusal.Refusal.TheVariants.{OutOfMemory};
ghost use Rattle.cj_types.specs.Uids.{uid_text};
ghost use Rattle.cj_status.specs.Order.{IsRising};
ghost use Rattle.cj_status.specs.Refs.{is_older};
ghost use Rattle.cj_status.specs.Surplus.{not_kept, surplus_by, surplus_of};

use crate::listing::{Pick, picked_items};
use crate::order::{Sorting, compare};
use crate::refs::{JobRef, JobRefs};
use cj_base::both;
use cj_types::{HistoryLimit, Job, Refusal, Shared, Uid};
use std::alloc::Global;

/// How many finished Jobs of each outcome a CronJob keeps (batch/v1, `successfulJobsHistoryLimit`
/// and `failedJobsHistoryLimit`).
#[derive(Clone, Copy, Debug, PartialEq, Eq)]
pub struct HistoryLimits {
    pub successful: HistoryLimit,
    pub failed: HistoryLimit,
}

fn first_other(items: &[JobRef], pivot: &JobRef) -> Option<usize>
    ensures { result ≡ position (λ r. not (is_older r pivot.now)) items.now }
{
    items
        .iter()
        .position(|job| !compare(Sorting::ByAge, job, pivot).is_lt())
}

// How many Jobs come before the first that isn't older than the pivot.
fn older_count(items: &[JobRef], pivot: &JobRef) -> usize
    ensures place { result ≡ unwrap_or (position (λ r. not (is_older r pivot.now)) items.now)
        (length items.now) }
    ensures bound { result ≤ length items.now }
{
    first_other(items, pivot).unwrap_or(items.len())
}

// Leaves, of Jobs in order of age, those that at least `limit` others are newer than: all that are
// older than the `limit`-th from the end.
fn leave_surplus(items: &mut Vec<JobRef>, limit: usize)
    requires rises { IsRising is_older items.old.items }
    ensures { items.new.items ≡ not_kept limit items.old.items }
{
    let count = items.len();
    if limit > count {
        items.clear();
    } else if limit > 0 {
        let keep = older_count(items.as_slice(), &items[count - limit]);
        items.truncate(keep);
    }
}

fn surplus_by(
    alloc: Global,
    pick: Pick,
    limit: HistoryLimit,
    uid: &Uid,
    jobs: &[Shared<Job>],
) -> Result<JobRefs, Refusal>
    ensures ok { IfOk result (λ r. r ≡ surplus_by pick limit (uid_text uid.now) jobs.now) }
    ensures err { IfErr result (λ e. e ≡ OutOfMemory) }
{
    let mut items = picked_items(alloc, pick, Sorting::ByAge, uid, jobs)?;
    leave_surplus(&mut items, limit.get() as usize);
    Ok(JobRefs::from_vec(items))
}

/// The finished Jobs of the CronJob that are no longer kept. A finished Job is kept where fewer
/// Jobs of its outcome than that outcome's limit are newer, by creation time, then name. First come
/// those that succeeded, then those that failed, each group oldest first.
pub fn surplus(
    alloc: Global,
    limits: HistoryLimits,
    uid: &Uid,
    jobs: &[Shared<Job>],
) -> Result<JobRefs, Refusal>
    ensures ok { IfOk result (λ r. r ≡ surplus_of limits (uid_text uid.now) jobs.now) }
    ensures err { IfErr result (λ e. e ≡ OutOfMemory) }
{
    let (mut all, failed) = both(
        surplus_by(alloc, Pick::Completed, limits.successful, uid, jobs),
        surplus_by(alloc, Pick::Failed, limits.failed, uid, jobs),
    )?;
    all.append(failed)?;
    Ok(all)
}
