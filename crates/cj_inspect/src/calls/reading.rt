// The objects of a printed list as a sync reads them.
ghost use Rattle.std.specs.Prelude.{◌≡◌, IfErr};
ghost use Rattle.cj_base.specs.declared.refusal.Refusal.TheVariants.{OutOfMemory};

use cj_cluster::{Cluster, ClusterCron};
use cj_control::{
    ApiVersion, HeldBy, Hold, completed_at, hold_in, is_text, list_of, parts, read_cron, read_job,
    text_at,
};
use cj_decide::JobRefs;
use cj_fence::{At, Cron, Held, Job, Row};
use cj_manifest::present;
use cj_types::{Key, ObjectName, Refusal, Uid};
use serde_json::Value;
use std::alloc::Global;

// Whether a value is one CronJob or Job.
fn is_single(value: &Value) -> bool {
    let kind = text_at(value, "kind");
    is_text("CronJob", kind) || is_text("Job", kind)
}

/// The object at a place of a list, from 1; the value itself, where it is one object.
pub(crate) fn object_at(value: &Value, place: Uid) -> Option<&Value> {
    if is_single(value) {
        return Some(value);
    }
    let items = list_of(present(value, "items"));
    let index = place.get().checked_sub(1)?;
    items.get(index as usize)
}

// The version of an object that says no kind is that of its list.
fn version_of<'v>(list: &'v Value, object: &'v Value) -> Option<&'v str> {
    match present(object, "kind") {
        Some(_) => text_at(object, "apiVersion"),
        None => text_at(list, "apiVersion"),
    }
}

/// The API that serves a CronJob, as it says, and what holds its Jobs: where that is
/// `batch/v1beta1`, the server may be older than 1.24.
pub(crate) fn api_of(list: &Value, object: &Value) -> (ApiVersion, HeldBy) {
    if is_text("batch/v1beta1", version_of(list, object)) {
        (ApiVersion::BatchV1Beta1, HeldBy::Parallelism)
    } else {
        (ApiVersion::BatchV1, HeldBy::Suspend)
    }
}

/// The CronJob; none where it says too little.
pub(crate) fn cron_row(alloc: Global, value: &Value) -> Result<Option<Row<Cron>>, Refusal>
    ensures { IfErr result (λ e. e ≡ OutOfMemory) }
{
    match read_cron(alloc, value) {
        Ok(row) => Ok(Some(row)),
        Err(Refusal::OutOfMemory) => Err(Refusal::OutOfMemory),
        Err(_) => Ok(None),
    }
}

fn job_row(alloc: Global, value: &Value) -> Result<Option<Row<Job>>, Refusal>
    ensures { IfErr result (λ e. e ≡ OutOfMemory) }
{
    match read_job(alloc, value) {
        Ok(row) => Ok(Some(row)),
        Err(Refusal::OutOfMemory) => Err(Refusal::OutOfMemory),
        Err(_) => Ok(None),
    }
}

fn job_at(alloc: Global, list: &Value, place: Uid) -> Result<Option<Row<Job>>, Refusal>
    ensures { IfErr result (λ e. e ≡ OutOfMemory) }
{
    match object_at(list, place) {
        Some(value) => job_row(alloc, value),
        None => Ok(None),
    }
}

fn push_row(rows: &mut Vec<Row<Job>>, row: Row<Job>) -> Result<(), Refusal>
    ensures { IfErr result (λ e. e ≡ OutOfMemory) }
{
    rows.push(row).map_err(|_| Refusal::OutOfMemory)
}

fn named_row(
    alloc: Global,
    list: &Value,
    cluster: &Cluster,
    cron: &ClusterCron,
    name: &ObjectName,
) -> Result<Option<Row<Job>>, Refusal>
    ensures { IfErr result (λ e. e ≡ OutOfMemory) }
{
    let key = cron.cron.key.key().beside(alloc, name)?;
    match cluster.job(&key) {
        Some(job) => job_at(alloc, list, job.meta.uid),
        None => Ok(None),
    }
}

/// The Jobs that the CronJob's status names; none where the list lacks one, or one says too little.
pub(crate) fn named_rows(
    alloc: Global,
    list: &Value,
    cluster: &Cluster,
    cron: &ClusterCron,
) -> Result<Option<Vec<Row<Job>>>, Refusal>
    ensures { IfErr result (λ e. e ≡ OutOfMemory) }
{
    let mut rows = Vec::new(alloc);
    for name in cron.cron.status.active.as_slice() {
        let Some(row) = named_row(alloc, list, cluster, cron, name)? else {
            return Ok(None);
        };
        push_row(&mut rows, row)?;
    }
    Ok(Some(rows))
}

fn rows_at(alloc: Global, list: &Value, places: &[Uid]) -> Result<Option<Vec<Row<Job>>>, Refusal>
    ensures { IfErr result (λ e. e ≡ OutOfMemory) }
{
    let mut rows = Vec::new(alloc);
    for place in places {
        let Some(row) = job_at(alloc, list, *place)? else {
            return Ok(None);
        };
        push_row(&mut rows, row)?;
    }
    Ok(Some(rows))
}

// Where the Jobs stand in the list whose controller names the CronJob.
fn own_places(alloc: Global, cluster: &Cluster, cron: &ClusterCron) -> Result<Vec<Uid>, Refusal>
    ensures { IfErr result (λ e. e ≡ OutOfMemory) }
{
    let jobs = cluster.jobs_naming(alloc, cron.cron.key.key())?;
    let mut places = Vec::new(alloc);
    for job in jobs.as_slice() {
        places.push(job.meta.uid).map_err(|_| Refusal::OutOfMemory)?;
    }
    Ok(places)
}

/// The Jobs whose controller names the CronJob, in the order of their names; none where one says
/// too little.
pub(crate) fn own_rows(
    alloc: Global,
    list: &Value,
    cluster: &Cluster,
    cron: &ClusterCron,
) -> Result<Option<Vec<Row<Job>>>, Refusal>
    ensures { IfErr result (λ e. e ≡ OutOfMemory) }
{
    let places = own_places(alloc, cluster, cron)?;
    rows_at(alloc, list, places.as_slice())
}

// Whether a Job is one of these, or all are meant.
fn is_meant(row: &Row<Job>, jobs: Option<&JobRefs>) -> bool {
    let (_, name) = parts(row.name.as_str());
    match jobs {
        Some(jobs) => jobs.as_slice().iter().any(|job| job.key.name() == name),
        None => true,
    }
}

// When the Job at a place was completed, where the CronJob controls it and it is meant; else 0.
fn success_in(
    alloc: Global,
    list: &Value,
    place: Uid,
    at: &At,
    jobs: Option<&JobRefs>,
) -> Result<u64, Refusal>
    ensures { IfErr result (λ e. e ≡ OutOfMemory) }
{
    let is_its = match job_at(alloc, list, place)? {
        Some(row) => row.object.owner.as_str() == at.cron.uid.as_str() && is_meant(&row, jobs),
        None => false,
    };
    match object_at(list, place) {
        Some(value) if is_its => Ok(completed_at(value).unwrap_or(0)),
        _ => Ok(0),
    }
}

// Whether the API that serves the CronJob has a place for its last success.
fn has_success(list: &Value, cron: &ClusterCron) -> bool {
    match object_at(list, cron.cron.meta.uid) {
        Some(object) => api_of(list, object).0 == ApiVersion::BatchV1,
        None => false,
    }
}

/// When one of these Jobs of the CronJob, or of all of them, succeeded last, where that is later
/// than what its status says; only `batch/v1` has a place for it.
pub(crate) fn later_success(
    alloc: Global,
    list: &Value,
    cluster: &Cluster,
    cron: &ClusterCron,
    at: &At,
    jobs: Option<&JobRefs>,
) -> Result<Option<u64>, Refusal>
    ensures { IfErr result (λ e. e ≡ OutOfMemory) }
{
    let mut last = at.cron.success;
    for place in own_places(alloc, cluster, cron)? {
        last = last.max(success_in(alloc, list, place, at, jobs)?);
    }
    if has_success(list, cron) && last > at.cron.success {
        Ok(Some(last))
    } else {
        Ok(None)
    }
}

// The key of NAMESPACE/NAME, where it is one.
fn key_of(alloc: Global, full: &str) -> Result<Option<Key>, Refusal>
    ensures { IfErr result (λ e. e ≡ OutOfMemory) }
{
    let (namespace, name) = parts(full);
    match Key::new(alloc, namespace, name) {
        Ok(key) => Ok(Some(key)),
        Err(Refusal::OutOfMemory) => Err(Refusal::OutOfMemory),
        Err(_) => Ok(None),
    }
}

/// What holds a Job of the list back, if it says so.
pub(crate) fn hold_of(
    alloc: Global,
    list: &Value,
    cluster: &Cluster,
    held: &Held,
) -> Result<Option<Hold>, Refusal>
    ensures { IfErr result (λ e. e ≡ OutOfMemory) }
{
    let Some(key) = key_of(alloc, held.job.name.as_str())? else {
        return Ok(None);
    };
    let object = match cluster.job(&key) {
        Some(job) => object_at(list, job.meta.uid),
        None => None,
    };
    match object {
        Some(object) => Ok(hold_in(object)),
        None => Ok(None),
    }
}
