// What is ahead of the next sync of a CronJob.
ghost use Rattle.std.specs.Prelude.{◌≡◌, ◌↔◌, IsTrue, None, Some, IfOk, IfErr, IfSome, codes};
ghost use Rattle.cj_base.specs.declared.refusal.Refusal.TheVariants.{OutOfMemory};
ghost use Rattle.cj_zone.specs.Table.{local_zone, zones_of};
ghost use Rattle.cj_zone.specs.Zones.{utc_zone};
ghost use Rattle.cj_inspect.specs.Calls.{IsAhead, IsOf, IsTimed, made_time};

use crate::calls::errands::{errand_of, help_of};
use crate::calls::leaving::gone_of;
use crate::calls::looking::looked;
use crate::calls::reading::{cron_row, later_success, named_rows, own_rows};
use cj_base::{Refusal, Seconds, Text};
use cj_cluster::{Cluster, ClusterCron};
use cj_control::{Ahead, Errand, full_name, meta};
use cj_decide::Steps;
use cj_fence::{At, Held, Refs, Sync, Table};
use cj_why::plan_of;
use cj_zone::ZoneTable;
use serde_json::Value;
use std::alloc::Global;

// A CronJob that is being deleted is left alone.
fn is_deleting(object: &Value) -> bool {
    meta(object, "deletionTimestamp").is_some()
}

fn resting(alloc: Global, at: At) -> Ahead
    ensures { made_time result.errand ≡ None }
{
    Ahead {
        at,
        errand: Errand::Rests,
        success: None,
        gone: Refs::new(alloc),
    }
}

// A sync whose Jobs are all dead or started does what the plan says.
fn planned(
    alloc: Global,
    list: &Value,
    cluster: &Cluster,
    cron: &ClusterCron,
    steps: &Steps,
    now: Seconds,
    at: At,
) -> Result<Option<Ahead>, Refusal>
    ensures ok { IfOk result (λ o. IfSome o (λ a. IsTimed steps.now.claim a.errand)) }
    ensures err { IfErr result (λ e. e ≡ OutOfMemory) }
{
    let Some(rows) = own_rows(alloc, list, cluster, cron)? else {
        return Ok(None);
    };
    let success = later_success(alloc, list, cluster, cron, &at, None)?;
    let going = later_success(alloc, list, cluster, cron, &at, Some(&steps.cleanup))?;
    let errand = errand_of(alloc, cluster, &at, success, going.is_some(), steps, now)?;
    let gone = gone_of(alloc, &at, &errand, rows, steps)?;
    Ok(Some(Ahead {
        at,
        errand,
        success,
        gone,
    }))
}

// One that has found a Job which was claimed, and not started, starts that first.
fn helping(alloc: Global, at: At, held: Held, now: Seconds) -> Ahead
    ensures { made_time result.errand ≡ None }
{
    let errand = help_of(&at, held, now);
    Ahead {
        at,
        errand,
        success: None,
        gone: Refs::new(alloc),
    }
}

fn from_sync(
    alloc: Global,
    list: &Value,
    object: &Value,
    cluster: &Cluster,
    cron: &ClusterCron,
    steps: &Steps,
    now: Seconds,
    sync: Sync,
) -> Result<Option<Ahead>, Refusal>
    ensures ok { IfOk result (λ o. IfSome o (λ a. IsTimed steps.now.claim a.errand)) }
    ensures err { IfErr result (λ e. e ≡ OutOfMemory) }
{
    match sync {
        Sync::Ready(at) if is_deleting(object) => Ok(Some(resting(alloc, at))),
        Sync::Ready(at) => planned(alloc, list, cluster, cron, steps, now, at),
        Sync::Starting(at, held, _) => Ok(Some(helping(alloc, at, held, now))),
        _ => Ok(None),
    }
}

fn has_name(name: &str, at: &At) -> bool
    ensures { IsTrue result ↔ (at.now.name ≡ name.now) }
{
    at.name.as_str() == name
}

fn has_uid(uid: &Text, at: &At) -> bool
    ensures { IsTrue result ↔ (at.now.cron.uid ≡ uid.now) }
{
    at.cron.uid.as_str() == uid.as_str()
}

// Whether that is ahead of a sync of this CronJob.
fn is_of(alloc: Global, cron: &ClusterCron, ahead: &Ahead) -> Result<bool, Refusal>
    ensures ok { IfOk result (λ b. IsTrue b → IsOf cron.now ahead.now) }
    ensures err { IfErr result (λ e. e ≡ OutOfMemory) }
{
    let key = cron.cron.key.key();
    let name = full_name(alloc, key.namespace(), key.name())?;
    let is_named = has_name(name.as_str(), &ahead.at);
    let is_same = has_uid(&cron.uid, &ahead.at);
    Ok(is_named && is_same)
}

// What the sync knows that has read the CronJob; none where the list lacks what it reads.
fn sync_of(
    alloc: Global,
    list: &Value,
    object: &Value,
    cluster: &Cluster,
    cron: &ClusterCron,
) -> Result<Option<Sync>, Refusal>
    ensures { IfErr result (λ e. e ≡ OutOfMemory) }
{
    let Some(row) = cron_row(alloc, object)? else {
        return Ok(None);
    };
    let Some(jobs) = named_rows(alloc, list, cluster, cron)? else {
        return Ok(None);
    };
    Ok(Some(looked(alloc, row, &Table::from_rows(jobs))?))
}

// By the plan.
fn by_plan(
    alloc: Global,
    list: &Value,
    object: &Value,
    cluster: &Cluster,
    cron: &ClusterCron,
    steps: &Steps,
    now: Seconds,
) -> Result<Option<Ahead>, Refusal>
    ensures ok { IfOk result (λ o. IfSome o (λ a.
        IsOf cron.now a × IsTimed steps.now.claim a.errand)) }
    ensures err { IfErr result (λ e. e ≡ OutOfMemory) }
{
    let Some(sync) = sync_of(alloc, list, object, cluster, cron)? else {
        return Ok(None);
    };
    let Some(ahead) = from_sync(alloc, list, object, cluster, cron, steps, now, sync)? else {
        return Ok(None);
    };
    if is_of(alloc, cron, &ahead)? {
        Ok(Some(ahead))
    } else {
        Ok(None)
    }
}

/// What is ahead of the next sync of a CronJob of a list, which is this object; none where the list
/// lacks a Job of its status, or where the CronJob or one of its Jobs says less than a server does.
pub(crate) fn ahead_of(
    alloc: Global,
    zones: &ZoneTable,
    list: &Value,
    object: &Value,
    cluster: &Cluster,
    cron: &ClusterCron,
    now: Seconds,
) -> Result<Option<Ahead>, Refusal>
    requires { local_zone zones.now ≡ Some (utc_zone (codes "UTC")) }
    ensures ok { IfOk result (λ o. IfSome o (IsAhead (zones_of zones.now) cluster.now now
        cron.now)) }
    ensures err { IfErr result (λ e. e ≡ OutOfMemory) }
{
    let plan = plan_of(alloc, zones, cluster, cron, now)?;
    by_plan(alloc, list, object, cluster, cron, plan.steps(), now)
}
