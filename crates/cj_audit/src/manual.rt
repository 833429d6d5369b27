// Jobs that somebody made by hand.
ghost use Rattle.std.specs.Prelude.{◌≡◌, ◌++◌, IfOk, IfErr, OnOk, string_bytes};
ghost use Rattle.std.specs.FinMap as map;
ghost use Rattle.cj_base.specs.declared.refusal.Refusal.TheVariants.{OutOfMemory};
ghost use Rattle.cj_audit.specs.Manual.{is_manual, line_where, manual_line, manual_lines};

use cj_cluster::Cluster;
use cj_types::{Job, Refusal, Shared};
use std::alloc::{AllocError, Global};

/// Whether somebody made the Job by hand.
pub(crate) fn is_manual(cluster: &Cluster, job: &Job) -> bool
    ensures { result ≡ is_manual cluster.now.times job.now }
{
    match cluster.times(&job.key) {
        Some(times) => times.get().is_manual,
        None => false,
    }
}

fn manual_line(alloc: Global, job: &Job) -> Result<String, AllocError>
    ensures { IfOk result (λ s. string_bytes s ≡ manual_line job.now) }
{
    let namespace = job.key.namespace();
    let name = job.key.name();
    format!(in alloc; "manual {namespace}/{name}\n")
}

fn push_manual(
    alloc: Global,
    text: &mut String,
    cluster: &Cluster,
    job: &Job,
) -> Result<(), AllocError>
    ensures { OnOk result (string_bytes text.new ≡ string_bytes text.old
        ++ line_where (is_manual cluster.now.times job.now) job.now) }
{
    if is_manual(cluster, job) {
        let line = manual_line(alloc, job)?;
        text.push_str(line.as_str())?;
    }
    Ok(())
}

fn manual_lines(
    alloc: Global,
    cluster: &Cluster,
    jobs: &[Shared<Job>],
) -> Result<String, AllocError>
    ensures { IfOk result (λ s. string_bytes s ≡ manual_lines cluster.now.times jobs.now) }
{
    let mut text = String::new(alloc);
    for job in jobs {
        push_manual(alloc, &mut text, cluster, job.get())?;
    }
    Ok(text)
}

/// A line for each Job of the cluster that somebody made by hand, in the order of their keys.
pub fn manual_text(alloc: Global, cluster: &Cluster) -> Result<String, Refusal>
    ensures ok { IfOk result (λ s. string_bytes s
        ≡ manual_lines cluster.now.times (map.values cluster.now.jobs)) }
    ensures memory { IfErr result (λ e. e ≡ OutOfMemory) }
{
    let jobs = cluster.jobs(alloc)?;
    Ok(manual_lines(alloc, cluster, jobs.as_slice())?)
}
