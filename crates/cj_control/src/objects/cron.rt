// A CronJob as the fenced start sees it.
ghost use Rattle.std.specs.Prelude.{◌≡◌, ◌≢◌, Ok, Err, IfOk, IfErr, option_map};
ghost use Rattle.serde_json.specs.Find.{as_str};
ghost use Rattle.serde_json.specs.View.{view, items_view};
ghost use Rattle.cj_base.specs.declared.refusal.Refusal.TheVariants.{OutOfMemory};
ghost use Rattle.cj_fence.specs.declared.policy.Policy.TheVariants.{Allow};
ghost use Rattle.cj_cluster.specs.kubectl.Rows.{IsOptionalTime, IsTimeRow};
ghost use Rattle.cj_manifest.specs.Values as row;
ghost use Rattle.cj_control.specs.Objects as seen;

use crate::objects::head::{Head, read_head};
use crate::objects::members::{full_name, optional_text, refused, spec, status};
use cj_base::{Cause, Field, Refusal, Text};
use cj_cluster::read_instant;
use cj_fence::{Cron, Policy, Ref, Refs, Row};
use cj_manifest::present;
use cj_types::name_cause;
use serde_json::Value;
use std::alloc::Global;

/// The times that a CronJob's status says.
#[derive(Clone, Copy)]
pub struct CronTimes {
    /// `status.lastScheduleTime`; 0 where there is none.
    pub last: u64,
    /// `status.lastSuccessfulTime`; 0 where there is none.
    pub success: u64,
}

/// What a CronJob says beside its head and the Jobs of its status.
#[derive(Clone, Copy)]
pub struct CronSaid {
    pub times: CronTimes,
    pub policy: Policy,
    /// `spec.startingDeadlineSeconds`.
    pub deadline: Option<u64>,
}

/// A time as a client prints it, in seconds since 1970.
pub(crate) fn time(value: &Value) -> Result<u64, Cause>
    ensures { IsTimeRow (as_str (view value.now)) result }
{
    match value.as_str() {
        None => Err(Cause::WrongType),
        Some(text) => match read_instant(text) {
            Some(instant) => Ok(instant.get()),
            None => Err(Cause::Format),
        },
    }
}

fn optional_time(value: Option<&Value>) -> Result<Option<u64>, Cause>
    ensures { IsOptionalTime (option_map (λ v. view v.now) value.entry) result }
{
    match value {
        None => Ok(None),
        Some(found) => Ok(Some(time(found)?)),
    }
}

fn policy_named(name: &str) -> Result<Policy, Cause>
    ensures { result ≡ seen.policy_named name.now }
{
    if name.is_empty() || name == "Allow" {
        Ok(Policy::Allow)
    } else if name == "Forbid" {
        Ok(Policy::Forbid)
    } else if name == "Replace" {
        Ok(Policy::Replace)
    } else {
        Err(Cause::NotSupported)
    }
}

fn policy(value: Option<&Value>) -> Result<Policy, Cause>
    ensures { result ≡ row.or_default Allow seen.policy_row
        (option_map (λ v. view v.now) value.entry) }
{
    match value {
        None => Ok(Policy::Allow),
        Some(found) => match found.as_str() {
            Some(name) => policy_named(name),
            None => Err(Cause::WrongType),
        },
    }
}

fn optional_count(value: Option<&Value>) -> Result<Option<u64>, Cause>
    ensures { result ≡ row.optional seen.count_row (option_map (λ v. view v.now) value.entry) }
{
    match value {
        None => Ok(None),
        Some(found) => match found.as_u64() {
            Some(count) => Ok(Some(count)),
            None => Err(Cause::WrongType),
        },
    }
}

// A value, or the refusal of its field.
fn in_field<A: Copy>(alloc: Global, field: Field, read: Result<A, Cause>) -> Result<A, Refusal>
    ensures ok { IfOk result (λ x. seen.in_field field read ≡ Ok x) }
    ensures err { IfErr result (λ e. e ≢ OutOfMemory → seen.in_field field read ≡ Err e) }
{
    match read {
        Ok(found) => Ok(found),
        Err(cause) => Err(refused(alloc, field, cause)),
    }
}

// The times, where both could be read.
fn times_in(
    alloc: Global,
    last: Result<Option<u64>, Cause>,
    success: Result<Option<u64>, Cause>,
) -> Result<CronTimes, Refusal>
    ensures ok { IfOk result (λ t. seen.times last success ≡ Ok t) }
    ensures err { IfErr result (λ e. e ≢ OutOfMemory → seen.times last success ≡ Err e) }
{
    let last = in_field(alloc, Field::LastScheduleTime, last)?;
    let success = in_field(alloc, Field::LastSuccessfulTime, success)?;
    Ok(CronTimes {
        last: last.unwrap_or(0),
        success: success.unwrap_or(0),
    })
}

fn read_times(alloc: Global, value: &Value) -> Result<CronTimes, Refusal>
    ensures ok { IfOk result (λ t. seen.AreTimes (view value.now) (Ok t)) }
    ensures err { IfErr result (λ e. e ≢ OutOfMemory → seen.AreTimes (view value.now) (Err e)) }
{
    let last = optional_time(status(value, "lastScheduleTime"));
    let success = optional_time(status(value, "lastSuccessfulTime"));
    times_in(alloc, last, success)
}

fn read_said(alloc: Global, value: &Value) -> Result<CronSaid, Refusal>
    ensures ok { IfOk result (λ s. seen.IsSaid (view value.now) (Ok s)) }
    ensures err { IfErr result (λ e. e ≢ OutOfMemory → seen.IsSaid (view value.now) (Err e)) }
{
    let times = read_times(alloc, value)?;
    let policy = policy(spec(value, "concurrencyPolicy"));
    let policy = in_field(alloc, Field::ConcurrencyPolicy, policy)?;
    let deadline = optional_count(spec(value, "startingDeadlineSeconds"));
    let deadline = in_field(alloc, Field::StartingDeadlineSeconds, deadline)?;
    Ok(CronSaid {
        times,
        policy,
        deadline,
    })
}

// Whether a Job may have this name.
fn is_job_name(name: &str) -> bool
    ensures { result ≡ seen.is_job_name name.now }
{
    name_cause(253, name).is_none()
}

// The name of a reference, with the namespace; empty where it is no name of a Job.
fn ref_name(alloc: Global, namespace: &str, name: &str) -> Result<Text, Refusal>
    ensures ok { IfOk result (λ t. t ≡ seen.ref_name namespace.now name.now) }
    ensures err { IfErr result (λ e. e ≡ OutOfMemory) }
{
    if is_job_name(name) {
        full_name(alloc, namespace, name)
    } else {
        Text::new(alloc, "")
    }
}

fn read_ref(alloc: Global, namespace: &str, value: &Value) -> Result<Ref, Refusal>
    ensures ok { IfOk result (λ r. seen.ref_row namespace.now (view value.now) ≡ Ok r) }
    ensures err { IfErr result (λ e. e ≢ OutOfMemory →
        seen.ref_row namespace.now (view value.now) ≡ Err e) }
{
    let name = optional_text(alloc, Field::Active, present(value, "name"))?;
    let uid = optional_text(alloc, Field::Active, present(value, "uid"))?;
    let name = ref_name(alloc, namespace, name.as_str())?;
    Ok(Ref { name, uid })
}

// The references in an array, or the first fault.
#[tactic(auto, using(crate::proofs::RefLemmas::refs_on, crate::proofs::RefLemmas::refs_end))]
fn read_refs(alloc: Global, namespace: &str, values: &[Value]) -> Result<Refs, Refusal>
    ensures ok { IfOk result (λ r. seen.refs_in namespace.now (items_view values.now) ≡ Ok r) }
    ensures err { IfErr result (λ e. e ≢ OutOfMemory →
        seen.refs_in namespace.now (items_view values.now) ≡ Err e) }
{
    let mut refs = Refs::new(alloc);
    for value in values {
        let one = read_ref(alloc, namespace, value)?;
        refs.push(one)?;
    }
    Ok(refs)
}

fn read_active(alloc: Global, namespace: &str, value: Option<&Value>) -> Result<Refs, Refusal>
    ensures ok { IfOk result (λ r.
        seen.active namespace.now (option_map (λ v. view v.now) value.entry) ≡ Ok r) }
    ensures err { IfErr result (λ e. e ≢ OutOfMemory →
        seen.active namespace.now (option_map (λ v. view v.now) value.entry) ≡ Err e) }
{
    match value {
        None => Ok(Refs::new(alloc)),
        Some(found) => match found.as_array() {
            Some(list) => read_refs(alloc, namespace, list.as_slice()),
            None => Err(refused(alloc, Field::Active, Cause::WrongType)),
        },
    }
}

fn cron_row(alloc: Global, head: Head, said: CronSaid, active: Refs) -> Result<Row<Cron>, Refusal>
    ensures ok { IfOk result (λ r. r ≡ seen.cron_row head said active) }
    ensures err { IfErr result (λ e. e ≡ OutOfMemory) }
{
    let name = full_name(alloc, head.namespace.as_str(), head.name.as_str())?;
    let Head {
        namespace: _,
        name: _,
        uid,
        version,
    } = head;
    Ok(Row {
        name,
        object: Cron {
            uid,
            version,
            last: said.times.last,
            success: said.times.success,
            active,
            policy: said.policy,
            deadline: said.deadline,
        },
    })
}

/// A CronJob of an API server's answer, under its name with the namespace, or its field at fault.
pub fn read_cron(alloc: Global, value: &Value) -> Result<Row<Cron>, Refusal>
    ensures ok { IfOk result (λ r. seen.IsCron (view value.now) (Ok r)) }
    ensures err { IfErr result (λ e. e ≢ OutOfMemory → seen.IsCron (view value.now) (Err e)) }
{
    let said = read_said(alloc, value)?;
    let head = read_head(alloc, value)?;
    let active = read_active(alloc, head.namespace.as_str(), status(value, "active"))?;
    cron_row(alloc, head, said, active)
}
