// What an audit finds, as JSON.
ghost use Rattle.std.specs.Prelude.{◌≡◌, IfOk, IfErr, length};
ghost use Rattle.std.specs.FinMap as map;
ghost use Rattle.cj_base.specs.declared.refusal.Refusal.TheVariants.{OutOfMemory};
ghost use Rattle.serde_json.specs.View.{view};
ghost use Rattle.cj_audit.specs.Audit.{audit_data, audit_object};

use crate::findings::Findings;
use crate::items::others_value;
use crate::json::{findings_value, manual_value};
use cj_base::{Refusal, all_three, both};
use cj_cluster::ClusterList;
use serde_json::{Value, json};
use std::alloc::{AllocError, Global};

// The counts of the CronJobs and of the Jobs.
fn counts(alloc: Global, list: &ClusterList) -> Result<(usize, usize), Refusal>
    ensures crons { IfOk result (λ n. n.0 ≡ length (map.values list.now.cluster.crons)) }
    ensures jobs { IfOk result (λ n. n.1 ≡ length (map.values list.now.cluster.jobs)) }
    ensures err { IfErr result (λ e. e ≡ OutOfMemory) }
{
    let (crons, jobs) = both(list.cluster.crons(alloc), list.cluster.jobs(alloc))?;
    Ok((crons.as_slice().len(), jobs.as_slice().len()))
}

fn audit_object(
    alloc: Global,
    crons: usize,
    jobs: usize,
    findings: Value,
    manual: Value,
    items: (Value, Value),
) -> Result<Value, AllocError>
    ensures { IfOk result (λ v. view v ≡ audit_object crons jobs (view findings) (view manual)
        (view items.0) (view items.1)) }
{
    let (others, refused) = items;
    json!(in alloc; {
        "cronJobs": crons,
        "findings": findings,
        "jobs": jobs,
        "manual": manual,
        "others": others,
        "refused": refused
    })
}

/// The findings, the counts of what was looked at, the Jobs that somebody made by hand, and the
/// items that can't be used, as one object. The value of the refused ones is given.
pub fn audit_value(
    alloc: Global,
    list: &ClusterList,
    findings: &Findings,
    refused: Value,
) -> Result<Value, Refusal>
    ensures ok { IfOk result (λ v. view v ≡ audit_data list.now findings.now (view refused)) }
    ensures err { IfErr result (λ e. e ≡ OutOfMemory) }
{
    let (crons, jobs) = counts(alloc, list)?;
    let (findings, manual, others) = all_three(
        findings_value(alloc, findings),
        manual_value(alloc, &list.cluster),
        others_value(alloc, list.notes.as_slice()),
    )?;
    let items = (others, refused);
    Ok(audit_object(alloc, crons, jobs, findings, manual, items)?)
}
