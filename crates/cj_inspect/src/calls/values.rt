// The calls of the next sync of each CronJob of a cluster, as JSON.
ghost use Rattle.std.specs.Prelude.{◌≡◌, map, codes, Some, IfOk, IfErr, IfSome};
ghost use Rattle.cj_base.specs.declared.refusal.Refusal.TheVariants.{OutOfMemory};
ghost use Rattle.serde_json.specs.View.{view};
ghost use Rattle.cj_zone.specs.Table.{local_zone, zones_of};
ghost use Rattle.cj_zone.specs.Zones.{utc_zone};
ghost use Rattle.cj_control.specs.Coming.{AreSentFor, calls_ahead};
ghost use Rattle.cj_inspect.specs.Calls.{AreCallsJson, AreCallsOrNull, AreRequests, IsCallsJson, calls_object, requests_data};

use crate::calls::plans::ahead_of;
use crate::calls::reading::{api_of, hold_of, object_at};
use cj_base::{Refusal, Seconds};
use cj_cluster::{Cluster, ClusterCron};
use cj_control::{
    Ahead, CronParts, Errand, Hold, Request, calls_ahead, parts_of, request_value, requests_for,
};
use cj_json::push_value;
use cj_types::{Key, Shared};
use cj_zone::ZoneTable;
use serde_json::{Value, json};
use std::alloc::{AllocError, Global};

fn requests_value(alloc: Global, requests: Vec<Request>) -> Result<Value, Refusal>
    ensures ok { IfOk result (λ v. view v ≡ requests_data requests.items) }
    ensures err { IfErr result (λ e. e ≡ OutOfMemory) }
{
    let mut values = Vec::new(alloc);
    for request in requests {
        push_value(&mut values, request_value(alloc, request)?)?;
    }
    Ok(Value::Array(values))
}

// The requests of the calls that are ahead; none where a call has no request.
fn ahead_requests(
    alloc: Global,
    source: &CronParts,
    ahead: &Ahead,
) -> Result<Option<Vec<Request>>, Refusal>
    ensures ok { IfOk result (λ o. IfSome o (λ rs.
        AreSentFor (calls_ahead ahead.now) rs.items)) }
    ensures err { IfErr result (λ e. e ≡ OutOfMemory) }
{
    let calls = calls_ahead(alloc, ahead)?;
    requests_for(alloc, source, calls.as_slice())
}

// What held the Job back that is to be started; else what Jobs are created with.
fn hold_for(
    alloc: Global,
    list: &Value,
    cluster: &Cluster,
    ahead: &Ahead,
    usual: Hold,
) -> Result<Hold, Refusal>
    ensures { IfErr result (λ e. e ≡ OutOfMemory) }
{
    match &ahead.errand {
        Errand::Helps(held) => Ok(hold_of(alloc, list, cluster, held)?.unwrap_or(usual)),
        _ => Ok(usual),
    }
}

// What the requests of a sync need, of the CronJob that is this object.
fn source_of(
    alloc: Global,
    list: &Value,
    object: &Value,
    cluster: &Cluster,
    ahead: &Ahead,
) -> Result<Option<CronParts>, Refusal>
    ensures { IfErr result (λ e. e ≡ OutOfMemory) }
{
    let (api, by) = api_of(list, object);
    let hold = hold_for(alloc, list, cluster, ahead, by.hold())?;
    match parts_of(alloc, object, api, by)? {
        Some(source) => {
            let mut source = source;
            source.hold = hold;
            Ok(Some(source))
        }
        None => Ok(None),
    }
}

// The requests of the next sync of a CronJob, which is this object; none where the list lacks what
// the sync reads.
fn cron_requests(
    alloc: Global,
    zones: &ZoneTable,
    list: &Value,
    object: &Value,
    cluster: &Cluster,
    cron: &ClusterCron,
    now: Seconds,
) -> Result<Option<Vec<Request>>, Refusal>
    requires { local_zone zones.now ≡ Some (utc_zone (codes "UTC")) }
    ensures ok { IfOk result (λ o. IfSome o (λ rs.
        AreRequests (zones_of zones.now) cluster.now now cron.now rs.items)) }
    ensures err { IfErr result (λ e. e ≡ OutOfMemory) }
{
    let Some(ahead) = ahead_of(alloc, zones, list, object, cluster, cron, now)? else {
        return Ok(None);
    };
    let Some(source) = source_of(alloc, list, object, cluster, &ahead)? else {
        return Ok(None);
    };
    ahead_requests(alloc, &source, &ahead)
}

fn object_calls(
    alloc: Global,
    zones: &ZoneTable,
    list: &Value,
    object: &Value,
    cluster: &Cluster,
    cron: &ClusterCron,
    now: Seconds,
) -> Result<Value, Refusal>
    requires { local_zone zones.now ≡ Some (utc_zone (codes "UTC")) }
    ensures ok { IfOk result (λ v. AreCallsOrNull (zones_of zones.now) cluster.now now cron.now
        (view v)) }
    ensures err { IfErr result (λ e. e ≡ OutOfMemory) }
{
    match cron_requests(alloc, zones, list, object, cluster, cron, now)? {
        Some(requests) => requests_value(alloc, requests),
        None => Ok(Value::Null),
    }
}

fn calls_of(
    alloc: Global,
    zones: &ZoneTable,
    list: &Value,
    cluster: &Cluster,
    cron: &ClusterCron,
    now: Seconds,
) -> Result<Value, Refusal>
    requires { local_zone zones.now ≡ Some (utc_zone (codes "UTC")) }
    ensures ok { IfOk result (λ v. AreCallsOrNull (zones_of zones.now) cluster.now now cron.now
        (view v)) }
    ensures err { IfErr result (λ e. e ≡ OutOfMemory) }
{
    match object_at(list, cron.cron.meta.uid) {
        Some(object) => object_calls(alloc, zones, list, object, cluster, cron, now),
        None => Ok(Value::Null),
    }
}

fn calls_object(alloc: Global, calls: Value, key: &Key) -> Result<Value, AllocError>
    ensures { IfOk result (λ v. view v
        ≡ calls_object (view calls) key.now.name key.now.namespace) }
{
    json!(in alloc; {
        "calls": calls,
        "name": key.name(),
        "namespace": key.namespace()
    })
}

fn cron_calls(
    alloc: Global,
    zones: &ZoneTable,
    list: &Value,
    cluster: &Cluster,
    cron: &ClusterCron,
    now: Seconds,
) -> Result<Value, Refusal>
    requires { local_zone zones.now ≡ Some (utc_zone (codes "UTC")) }
    ensures ok { IfOk result (λ v. IsCallsJson (zones_of zones.now) cluster.now now cron.now
        (view v)) }
    ensures err { IfErr result (λ e. e ≡ OutOfMemory) }
{
    let calls = calls_of(alloc, zones, list, cluster, cron, now)?;
    Ok(calls_object(alloc, calls, cron.cron.key.key())?)
}

// The value of bytes; null where they aren't JSON.
fn value_of(alloc: Global, bytes: &[u8]) -> Result<Value, Refusal>
    ensures { IfErr result (λ e. e ≡ OutOfMemory) }
{
    match Value::from_slice(alloc, bytes) {
        Ok(value) => Ok(value),
        Err(error) if error.is_memory() => Err(Refusal::OutOfMemory),
        Err(_) => Ok(Value::Null),
    }
}

/// A value for each of these CronJobs of a printed list, in their order: the requests of the calls
/// that its next sync would make, if each is taken and nothing else happens meanwhile. Null in
/// their place where the list lacks a Job of its status, or where the CronJob or one of its Jobs
/// says less than a server does. The only error is want of memory.
pub fn calls_values(
    alloc: Global,
    zones: &ZoneTable,
    bytes: &[u8],
    cluster: &Cluster,
    crons: &[Shared<ClusterCron>],
    now: Seconds,
) -> Result<Vec<Value>, Refusal>
    requires { local_zone zones.now ≡ Some (utc_zone (codes "UTC")) }
    ensures ok { IfOk result (λ v. AreCallsJson (zones_of zones.now) cluster.now now crons.now
        (map view v.items)) }
    ensures err { IfErr result (λ e. e ≡ OutOfMemory) }
{
    let list = value_of(alloc, bytes)?;
    let mut values = Vec::new(alloc);
    for cron in crons {
        let value = cron_calls(alloc, zones, &list, cluster, cron.get(), now)?;
        push_value(&mut values, value)?;
    }
    Ok(values)
}
