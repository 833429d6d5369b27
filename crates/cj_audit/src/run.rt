ghost use Rattle.std.specs.Prelude.{◌≡◌, ◌++◌, IfOk, IfErr, OnOk, IsTrue};
ghost use Rattle.cj_base.specs.declared.refusal.Refusal.TheVariants.{OutOfMemory};
ghost use Rattle.cj_types.specs.Names.{longest_cron};
ghost use Rattle.cj_types.specs.Keys.{is_place};
ghost use Rattle.cj_table.specs.jobs.Owners.{owned_by};
ghost use Rattle.cj_audit.specs.Runs.{run_at, runs_in};

use cj_cluster::{Cluster, ClusterCron, JobTimes};
use cj_types::{Job, Refusal, Shared};
use std::alloc::Global;

/// A Job of a CronJob that its controller made, with its times.
#[derive(Drop)]
pub struct Run {
    pub job: Shared<Job>,
    pub times: JobTimes,
}

// The Job with its times behind the others, if it is the CronJob's and nobody made it by hand.
fn push_run(
    cluster: &Cluster,
    cron: &ClusterCron,
    job: &Shared<Job>,
    runs: &mut Vec<Run>,
) -> Result<(), Refusal>
    ensures ok { OnOk result (runs.new.items
        ≡ runs.old.items ++ run_at cluster.now.times cron.now job.now) }
    ensures memory { IfErr result (λ e. e ≡ OutOfMemory) }
{
    if !cron.controls(job.get()) {
        return Ok(());
    }
    let Some(times) = cluster.times(&job.get().key) else {
        return Ok(());
    };
    if times.get().is_manual {
        return Ok(());
    }
    let run = Run {
        job: job.share()?,
        times: *times.get(),
    };
    runs.push(run).map_err(|_| Refusal::OutOfMemory)
}

fn runs_in(
    alloc: Global,
    cluster: &Cluster,
    cron: &ClusterCron,
    jobs: &[Shared<Job>],
) -> Result<Vec<Run>, Refusal>
    ensures ok { IfOk result (λ v. v.items ≡ runs_in cluster.now.times cron.now jobs.now) }
    ensures memory { IfErr result (λ e. e ≡ OutOfMemory) }
{
    let mut runs = Vec::new(alloc);
    for job in jobs {
        push_run(cluster, cron, job, &mut runs)?;
    }
    Ok(runs)
}

/// The Jobs of the CronJob that its controller made, with their times, in the order of their names.
pub fn runs_of(alloc: Global, cluster: &Cluster, cron: &ClusterCron) -> Result<Vec<Run>, Refusal>
    ensures ok { IfOk result (λ v. v.items ≡ runs_in cluster.now.times cron.now
        (owned_by cluster.now.jobs cron.now.cron.key)) }
    ensures memory { IfErr result (λ e. e ≡ OutOfMemory) }
    ensures short { IsTrue (is_place longest_cron cron.now.cron.key) }
{
    let key = cron.cron.key.key();
    let jobs = cluster.jobs_naming(alloc, key)?;
    runs_in(alloc, cluster, cron, jobs.as_slice())
}
