// What a sync of a cluster's CronJob sees.
ghost use Rattle.std.specs.Prelude.{◌≡◌, filter, map, IfOk, IfErr};
ghost use Rattle.cj_base.specs.declared.refusal.Refusal.TheVariants.{OutOfMemory};
ghost use Rattle.cj_why.specs.reviews.Seen as seen;

use cj_cluster::{Cluster, ClusterCron};
use cj_types::{
    Job, Listing, Names, ObjectName, OwnerRef, OwnerRefs, Refusal, Shared, Text, TryCopy,
};
use std::alloc::Global;

// The text of the CronJob's number for its own uid, and one that is no number's for any other.
fn number_of(alloc: Global, cron: &ClusterCron, uid: &str) -> Result<Text, Refusal>
    ensures ok { IfOk result (λ t. t ≡ seen.number_of cron.now uid.now) }
    ensures err { IfErr result (λ e. e ≡ OutOfMemory) }
{
    if uid == cron.uid.as_str() {
        cron.cron.meta.uid.text(alloc)
    } else {
        Text::new(alloc, "another")
    }
}

fn numbered_owner(alloc: Global, cron: &ClusterCron, owner: &OwnerRef) -> Result<OwnerRef, Refusal>
    ensures ok { IfOk result (λ o. o ≡ seen.numbered_owner cron.now owner.now) }
    ensures err { IfErr result (λ e. e ≡ OutOfMemory) }
{
    Ok(OwnerRef {
        api_version: owner.api_version.try_copy(alloc)?,
        kind: owner.kind.try_copy(alloc)?,
        name: owner.name.try_copy(alloc)?,
        uid: number_of(alloc, cron, owner.uid.as_str())?,
        controller: owner.controller,
        block_owner_deletion: owner.block_owner_deletion,
    })
}

fn numbered_owners(
    alloc: Global,
    cron: &ClusterCron,
    owners: &[OwnerRef],
) -> Result<OwnerRefs, Refusal>
    ensures ok { IfOk result (λ o. o ≡ map (seen.numbered_owner cron.now) owners.now) }
    ensures err { IfErr result (λ e. e ≡ OutOfMemory) }
{
    let mut numbered = OwnerRefs::new(alloc);
    for owner in owners {
        numbered.push(numbered_owner(alloc, cron, owner)?)?;
    }
    Ok(numbered)
}

// The Job, with numbers for the uids of its owners.
fn numbered(alloc: Global, cron: &ClusterCron, job: &Job) -> Result<Shared<Job>, Refusal>
    ensures ok { IfOk result (λ j. j ≡ seen.numbered cron.now job.now) }
    ensures err { IfErr result (λ e. e ≡ OutOfMemory) }
{
    let owners = numbered_owners(alloc, cron, job.owners.as_slice())?;
    let job = Job {
        key: job.key.try_copy(alloc)?,
        meta: job.meta.try_copy(alloc)?,
        owners,
        spec: job.spec.try_copy(alloc)?,
        outcome: job.outcome,
    };
    Shared::new(alloc, job)
}

fn all_numbered(
    alloc: Global,
    cron: &ClusterCron,
    jobs: &[Shared<Job>],
) -> Result<Vec<Shared<Job>>, Refusal>
    ensures ok { IfOk result (λ r. r.items ≡ map (seen.numbered cron.now) jobs.now) }
    ensures err { IfErr result (λ e. e ≡ OutOfMemory) }
{
    let mut all = Vec::new(alloc);
    for job in jobs {
        all.push(numbered(alloc, cron, job.get())?)
            .map_err(|_| Refusal::OutOfMemory)?;
    }
    Ok(all)
}

/// The Jobs whose controller names the CronJob, whatever its uid, in the order of their names: what
/// a listing shows to a sync of it. The number of the CronJob serves as its uid.
pub fn listed(
    alloc: Global,
    cluster: &Cluster,
    cron: &ClusterCron,
) -> Result<Listing<Shared<Job>>, Refusal>
    ensures ok { IfOk result (λ l. l ≡ seen.listed cluster.now cron.now) }
    ensures err { IfErr result (λ e. e ≡ OutOfMemory) }
{
    let naming = cluster.jobs_naming(alloc, cron.cron.key.key())?;
    Listing::new(alloc, all_numbered(alloc, cron, naming.as_slice())?)
}

fn found_at(
    alloc: Global,
    cluster: &Cluster,
    cron: &ClusterCron,
    name: &ObjectName,
) -> Result<Option<Shared<Job>>, Refusal>
    ensures ok { IfOk result (λ j. j ≡ seen.found_at cluster.now cron.now name.now) }
    ensures err { IfErr result (λ e. e ≡ OutOfMemory) }
{
    let key = cron.cron.key.key().beside(alloc, name)?;
    match cluster.job(&key) {
        Some(job) => Ok(Some(numbered(alloc, cron, job.get())?)),
        None => Ok(None),
    }
}

fn all_found(
    alloc: Global,
    cluster: &Cluster,
    cron: &ClusterCron,
    names: &[ObjectName],
) -> Result<Vec<Option<Shared<Job>>>, Refusal>
    ensures ok { IfOk result (λ r. r.items ≡ map (seen.found_at cluster.now cron.now) names.now) }
    ensures err { IfErr result (λ e. e ≡ OutOfMemory) }
{
    let mut all = Vec::new(alloc);
    for name in names {
        all.push(found_at(alloc, cluster, cron, name)?)
            .map_err(|_| Refusal::OutOfMemory)?;
    }
    Ok(all)
}

/// What a live read finds for each name in the CronJob's `status.active`.
pub fn found(
    alloc: Global,
    cluster: &Cluster,
    cron: &ClusterCron,
) -> Result<Listing<Option<Shared<Job>>>, Refusal>
    ensures ok { IfOk result (λ l. l ≡ seen.found cluster.now cron.now) }
    ensures err { IfErr result (λ e. e ≡ OutOfMemory) }
{
    let names = cron.cron.status.active.as_slice();
    Listing::new(alloc, all_found(alloc, cluster, cron, names)?)
}

fn is_lacking(
    alloc: Global,
    cluster: &Cluster,
    cron: &ClusterCron,
    name: &ObjectName,
) -> Result<bool, Refusal>
    ensures ok { IfOk result (λ b. b ≡ seen.is_lacking cluster.now cron.now name.now) }
    ensures err { IfErr result (λ e. e ≡ OutOfMemory) }
{
    let key = cron.cron.key.key().beside(alloc, name)?;
    Ok(cluster.job(&key).is_none())
}

fn all_lacking(
    alloc: Global,
    cluster: &Cluster,
    cron: &ClusterCron,
    names: &[ObjectName],
) -> Result<Names, Refusal>
    ensures ok { IfOk result (λ r. r ≡ filter (seen.is_lacking cluster.now cron.now) names.now) }
    ensures err { IfErr result (λ e. e ≡ OutOfMemory) }
{
    let mut lacking = Names::new(alloc);
    for name in names {
        if is_lacking(alloc, cluster, cron, name)? {
            lacking.push(name.try_copy(alloc)?)?;
        }
    }
    Ok(lacking)
}

fn has_any(jobs: &[Shared<Job>]) -> bool
    ensures { result ≡ seen.has_any jobs.now }
{
    !jobs.is_empty()
}

// Whether the cluster has Jobs whose controller names the CronJob.
fn lists_jobs(alloc: Global, cluster: &Cluster, cron: &ClusterCron) -> Result<bool, Refusal>
    ensures ok { IfOk result (λ b. b ≡ seen.lists_jobs cluster.now cron.now) }
    ensures err { IfErr result (λ e. e ≡ OutOfMemory) }
{
    let jobs = cluster.jobs_naming(alloc, cron.cron.key.key())?;
    Ok(has_any(jobs.as_slice()))
}

fn where_so(alloc: Global, so: bool, names: Names) -> Names
    ensures { result ≡ seen.where_so so names }
{
    if so { names } else { Names::new(alloc) }
}

/// The names in the CronJob's `status.active` of whose Jobs nothing is known: those of which the
/// cluster has no Job, where it has none of the CronJob at all.
pub(crate) fn unknown(
    alloc: Global,
    cluster: &Cluster,
    cron: &ClusterCron,
) -> Result<Names, Refusal>
    ensures ok { IfOk result (λ r. r ≡ seen.unknown cluster.now cron.now) }
    ensures err { IfErr result (λ e. e ≡ OutOfMemory) }
{
    let lists_jobs = lists_jobs(alloc, cluster, cron)?;
    let names = lacking(alloc, cluster, cron)?;
    Ok(where_so(alloc, !lists_jobs, names))
}

/// The names in the CronJob's `status.active` whose Jobs are gone: the cluster has other Jobs of
/// the CronJob, and not these.
pub(crate) fn gone(alloc: Global, cluster: &Cluster, cron: &ClusterCron) -> Result<Names, Refusal>
    ensures ok { IfOk result (λ r. r ≡ seen.gone cluster.now cron.now) }
    ensures err { IfErr result (λ e. e ≡ OutOfMemory) }
{
    let lists_jobs = lists_jobs(alloc, cluster, cron)?;
    let names = lacking(alloc, cluster, cron)?;
    Ok(where_so(alloc, lists_jobs, names))
}

/// The names in the CronJob's `status.active` of which the cluster has no Job.
pub(crate) fn lacking(
    alloc: Global,
    cluster: &Cluster,
    cron: &ClusterCron,
) -> Result<Names, Refusal>
    ensures ok { IfOk result (λ r. r ≡ seen.lacking cluster.now cron.now) }
    ensures err { IfErr result (λ e. e ≡ OutOfMemory) }
{
    let names = cron.cron.status.active.as_slice();
    all_lacking(alloc, cluster, cron, names)
}
