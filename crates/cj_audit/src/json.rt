// Findings as JSON.
ghost use Rattle.std.specs.Prelude.{◌≡◌, ◌++◌, ◌∷◌, [], map, IfOk, IfErr, OnOk};
ghost use Rattle.std.specs.FinMap as map_of;
ghost use Rattle.cj_base.specs.declared.refusal.Refusal.TheVariants.{OutOfMemory};
ghost use Rattle.serde_json.specs.View.{view};
ghost use Rattle.cj_audit.specs.Json.{finding_data, finding_object, findings_data, job_data, job_where, jobs_data, kind_word, manual_data, manual_jobs, names_data};
ghost use Rattle.cj_audit.specs.Manual.{is_manual};

use crate::finding::Finding;
use crate::findings::Findings;
use crate::kind::FindingKind;
use crate::manual::is_manual;
use cj_cluster::Cluster;
use cj_json::push_value;
use cj_types::{Job, Refusal, Shared};
use cj_zone::time_text;
use serde_json::{Value, json};
use std::alloc::{AllocError, Global};

fn kind_word(kind: FindingKind) -> &'static str
    ensures { result.now ≡ kind_word kind }
{
    match kind {
        FindingKind::Twice => "twice",
        FindingKind::Beside(_) => "beside",
        FindingKind::Undue => "undue",
        FindingKind::Early => "early",
        FindingKind::Missing => "missing",
        FindingKind::Stray => "stray",
        FindingKind::Stuck => "stuck",
    }
}

// The name of the Job, or of both.
fn names_value(alloc: Global, finding: &Finding) -> Result<Value, AllocError>
    ensures { IfOk result (λ v. view v ≡ names_data finding.now.first finding.now.second) }
{
    let first = finding.first.as_str();
    match &finding.second {
        None => json!(in alloc; [first]),
        Some(second) => json!(in alloc; [first, second.as_str()]),
    }
}

// Those of a finding, which of a time that has no Job are none.
fn jobs_value(alloc: Global, finding: &Finding) -> Result<Value, AllocError>
    ensures { IfOk result (λ v. view v ≡ jobs_data finding.now.kind finding.now.first
        finding.now.second) }
{
    match finding.kind {
        FindingKind::Missing | FindingKind::Stuck => json!(in alloc; []),
        FindingKind::Twice
        | FindingKind::Beside(_)
        | FindingKind::Undue
        | FindingKind::Early
        | FindingKind::Stray => names_value(alloc, finding),
    }
}

fn finding_object(
    alloc: Global,
    finding: &Finding,
    jobs: Value,
    time: Value,
) -> Result<Value, AllocError>
    ensures { IfOk result (λ v. view v ≡ finding_object finding.now (view jobs) (view time)) }
{
    json!(in alloc; {
        "finding": kind_word(finding.kind),
        "jobs": jobs,
        "name": finding.cron.as_str(),
        "namespace": finding.namespace.as_str(),
        "time": time
    })
}

fn finding_value(alloc: Global, finding: &Finding) -> Result<Value, Refusal>
    ensures ok { IfOk result (λ v. view v ≡ finding_data finding.now) }
    ensures err { IfErr result (λ e. e ≡ OutOfMemory) }
{
    let jobs = jobs_value(alloc, finding)?;
    let time = Value::String(time_text(alloc, finding.time)?);
    Ok(finding_object(alloc, finding, jobs, time)?)
}

fn finding_values(alloc: Global, findings: &[Finding]) -> Result<Vec<Value>, Refusal>
    ensures ok { IfOk result (λ v. map view v.items ≡ map finding_data findings.now) }
    ensures err { IfErr result (λ e. e ≡ OutOfMemory) }
{
    let mut values = Vec::new(alloc);
    for finding in findings {
        let value = finding_value(alloc, finding)?;
        push_value(&mut values, value)?;
    }
    Ok(values)
}

/// The findings in their order: what each is, the CronJob, the time and the names of the Jobs.
pub fn findings_value(alloc: Global, findings: &Findings) -> Result<Value, Refusal>
    ensures ok { IfOk result (λ v. view v ≡ findings_data findings.now) }
    ensures memory { IfErr result (λ e. e ≡ OutOfMemory) }
{
    Ok(Value::Array(finding_values(alloc, findings.as_slice())?))
}

fn job_value(alloc: Global, job: &Job) -> Result<Value, AllocError>
    ensures { IfOk result (λ v. view v ≡ job_data job.now) }
{
    json!(in alloc; {"name": job.key.name(), "namespace": job.key.namespace()})
}

fn push_manual(
    alloc: Global,
    values: &mut Vec<Value>,
    cluster: &Cluster,
    job: &Job,
) -> Result<(), Refusal>
    ensures ok { OnOk result (map view values.new.items ≡ map view values.old.items
        ++ job_where (is_manual cluster.now.times job.now) job.now) }
    ensures err { IfErr result (λ e. e ≡ OutOfMemory) }
{
    if is_manual(cluster, job) {
        let value = job_value(alloc, job)?;
        push_value(values, value)?;
    }
    Ok(())
}

fn manual_values(
    alloc: Global,
    cluster: &Cluster,
    jobs: &[Shared<Job>],
) -> Result<Vec<Value>, Refusal>
    ensures ok { IfOk result (λ v. map view v.items ≡ manual_jobs cluster.now.times jobs.now) }
    ensures err { IfErr result (λ e. e ≡ OutOfMemory) }
{
    let mut values = Vec::new(alloc);
    for job in jobs {
        push_manual(alloc, &mut values, cluster, job.get())?;
    }
    Ok(values)
}

/// The Jobs of the cluster that somebody made by hand, in the order of their keys.
pub fn manual_value(alloc: Global, cluster: &Cluster) -> Result<Value, Refusal>
    ensures ok { IfOk result (λ v. view v
        ≡ manual_data cluster.now.times (map_of.values cluster.now.jobs)) }
    ensures memory { IfErr result (λ e. e ≡ OutOfMemory) }
{
    let jobs = cluster.jobs(alloc)?;
    Ok(Value::Array(manual_values(alloc, cluster, jobs.as_slice())?))
}
