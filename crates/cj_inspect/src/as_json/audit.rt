// What `audit` prints as JSON.
ghost use Rattle.std.specs.Prelude.{◌≡◌, IfOk, IfErr, length, string_bytes};
ghost use Rattle.std.specs.FinMap as map;
ghost use Rattle.cj_base.specs.declared.refusal.Refusal.TheVariants.{OutOfMemory};
ghost use Rattle.serde_json.specs.View.{view};
ghost use Rattle.cj_audit.specs.Items.{others_data};
ghost use Rattle.cj_audit.specs.Json.{findings_data, manual_data};
ghost use Rattle.cj_explain.specs.RefusedItems.{refused_data};
ghost use Rattle.cj_inspect.specs.Nights.{IsNightData};
ghost use Rattle.cj_inspect.specs.as_json.Audit.{IsAuditJson, audit_data, audit_object};

use crate::as_json::nights::nights_value;
use crate::nights::Look;
use cj_answers::value_line;
use cj_audit::{Findings, findings_value, manual_value, others_value};
use cj_base::{Refusal, all_four, both};
use cj_cluster::ClusterList;
use cj_explain::refused_value;
use cj_json::object_of;
use cj_zone::ZoneTable;
use serde_json::Value;
use std::alloc::{AllocError, Global};

// How many CronJobs and Jobs were looked at.
fn counts(alloc: Global, list: &ClusterList) -> Result<(usize, usize), Refusal>
    ensures crons { IfOk result (λ n. n.0 ≡ length (map.values list.now.cluster.crons)) }
    ensures jobs { IfOk result (λ n. n.1 ≡ length (map.values list.now.cluster.jobs)) }
    ensures err { IfErr result (λ e. e ≡ OutOfMemory) }
{
    let (crons, jobs) = both(list.cluster.crons(alloc), list.cluster.jobs(alloc))?;
    Ok((crons.as_slice().len(), jobs.as_slice().len()))
}

// The names of its members.
const AUDIT_NAMES: &[&str] = &[
    "clockChanges",
    "cronJobs",
    "findings",
    "jobs",
    "manual",
    "others",
    "refused",
];

fn audit_object(
    alloc: Global,
    clocks: Value,
    counts: (usize, usize),
    found: (Value, Value),
    items: (Value, Value),
) -> Result<Value, AllocError>
    ensures { IfOk result (λ v. view v ≡ audit_object (view clocks) counts.0 counts.1
        (view found.0) (view found.1) (view items.0) (view items.1)) }
{
    let (crons, jobs) = (Value::from(counts.0), Value::from(counts.1));
    let (findings, manual) = found;
    let (others, refused) = items;
    let values = [clocks, crons, findings, jobs, manual, others, refused];
    object_of(alloc, AUDIT_NAMES, values)
}

fn audit_value(
    alloc: Global,
    clocks: Value,
    list: &ClusterList,
    findings: &Findings,
) -> Result<Value, Refusal>
    ensures ok { IfOk result (λ v. view v ≡ audit_data (view clocks) list.now findings.now) }
    ensures err { IfErr result (λ e. e ≡ OutOfMemory) }
{
    let counts = counts(alloc, list)?;
    let notes = list.notes.as_slice();
    let (findings, manual, others, refused) = all_four(
        findings_value(alloc, findings),
        manual_value(alloc, &list.cluster),
        others_value(alloc, notes),
        refused_value(alloc, notes),
    )?;
    let (found, items) = ((findings, manual), (others, refused));
    Ok(audit_object(alloc, clocks, counts, found, items)?)
}

// What the clocks of the CronJobs do.
fn clocks_value(
    alloc: Global,
    zones: &ZoneTable,
    look: &Look,
    list: &ClusterList,
) -> Result<Value, Refusal>
    ensures ok { IfOk result (λ v. IsNightData (view v)) }
    ensures err { IfErr result (λ e. e ≡ OutOfMemory) }
{
    let crons = list.cluster.crons(alloc)?;
    nights_value(alloc, zones, look, crons.as_slice())
}

/// The findings, what was looked at, what couldn't be, and what the clocks of the CronJobs do, as
/// one JSON value.
pub(crate) fn audit_json(
    alloc: Global,
    zones: &ZoneTable,
    look: &Look,
    list: &ClusterList,
    findings: &Findings,
) -> Result<String, Refusal>
    ensures ok { IfOk result (λ s. IsAuditJson list.now findings.now (string_bytes s)) }
    ensures err { IfErr result (λ e. e ≡ OutOfMemory) }
{
    let clocks = clocks_value(alloc, zones, look, list)?;
    let value = audit_value(alloc, clocks, list, findings)?;
    Ok(value_line(alloc, &value)?)
}
