// A cluster with the CronJobs that are asked about, and their Jobs.
ghost use Rattle.std.specs.Prelude.{◌≡◌, IfOk, option_map};
ghost use Rattle.cj_inspect.specs.Narrowing.{IsPart, is_anywhere, is_everything};

use crate::why::naming::{chosen, has_no_text, is_called_one, is_within, key_text_of, told_items};
use cj_cluster::{Cluster, ClusterCron, ClusterList, ItemNotes, JobTimes};
use cj_types::{Job, Refusal, Shared, TryCopy};
use std::alloc::Global;

// Whether no namespace is given.
fn is_anywhere(within: Option<&str>) -> bool
    ensures { result ≡ is_anywhere (option_map (λ s. s.now) within.entry) }
{
    match within {
        Some(_) => false,
        None => true,
    }
}

/// Whether every CronJob is asked about.
pub fn is_everything(within: Option<&str>, texts: &[&str]) -> bool
    ensures { result ≡ is_everything (option_map (λ s. s.now) within.entry) texts.now }
{
    let is_anywhere = is_anywhere(within);
    let has_no_text = has_no_text(texts);
    is_anywhere && has_no_text
}

// Whether the Job is in the namespace, and of a CronJob that is named, if some are.
fn is_asked(
    alloc: Global,
    within: Option<&str>,
    texts: &[&str],
    job: &Job,
) -> Result<bool, Refusal> {
    let namespace = job.key.namespace();
    if !is_within(within, namespace) {
        return Ok(false);
    }
    if has_no_text(texts) {
        return Ok(true);
    }
    let Some(name) = job.cron_name() else {
        return Ok(false);
    };
    let name = name.as_str();
    let key = key_text_of(alloc, namespace, name)?;
    Ok(is_called_one(within, texts, key.as_str(), namespace, name))
}

// Adds the CronJob, unless one of its key is there.
fn add_cron(alloc: Global, into: &mut Cluster, cron: &ClusterCron) -> Result<(), Refusal> {
    let cron = cron.try_copy(alloc)?;
    if into.cron(cron.cron.key.key()).is_some() {
        return Ok(());
    }
    into.add_cron(alloc, cron)
}

// Adds the Job with its times, unless one of its key is there.
fn add_job(
    alloc: Global,
    into: &mut Cluster,
    job: Shared<Job>,
    times: Shared<JobTimes>,
) -> Result<(), Refusal> {
    if into.job(&job.get().key).is_some() {
        return Ok(());
    }
    into.add_job(alloc, job, times)
}

fn add_crons(
    alloc: Global,
    into: &mut Cluster,
    within: Option<&str>,
    texts: &[&str],
    from: &Cluster,
) -> Result<(), Refusal> {
    let all = from.crons(alloc)?;
    let meant = chosen(alloc, within, texts, all.as_slice())?;
    for cron in meant.as_slice() {
        add_cron(alloc, into, cron.get())?;
    }
    Ok(())
}

fn add_jobs(
    alloc: Global,
    into: &mut Cluster,
    within: Option<&str>,
    texts: &[&str],
    from: &Cluster,
) -> Result<(), Refusal> {
    let all = from.jobs(alloc)?;
    for job in all.as_slice() {
        if !is_asked(alloc, within, texts, job.get())? {
            continue;
        }
        if let Some(times) = from.times(&job.get().key) {
            add_job(alloc, into, job.share()?, times.share()?)?;
        }
    }
    Ok(())
}

/// The CronJobs that are asked about, and their Jobs; of a namespace all of its Jobs.
pub(crate) fn narrowed_cluster(
    alloc: Global,
    within: Option<&str>,
    texts: &[&str],
    cluster: &Cluster,
) -> Result<Cluster, Refusal> {
    let mut part = Cluster::new(alloc);
    add_crons(alloc, &mut part, within, texts, cluster)?;
    add_jobs(alloc, &mut part, within, texts, cluster)?;
    Ok(part)
}

/// The same, with the notes of the items that are told of.
pub(crate) fn narrowed_list(
    alloc: Global,
    within: Option<&str>,
    texts: &[&str],
    list: ClusterList,
) -> Result<ClusterList, Refusal>
    ensures { IfOk result (λ part. IsPart
        (is_everything (option_map (λ s. s.now) within.entry) texts.now) list part) }
{
    if is_everything(within, texts) {
        return Ok(list);
    }
    let (cluster, notes) = list.into_parts();
    let cluster = narrowed_cluster(alloc, within, texts, &cluster)?;
    let notes = ItemNotes::of(told_items(within, texts, notes.into_items()));
    Ok(ClusterList { cluster, notes })
}
