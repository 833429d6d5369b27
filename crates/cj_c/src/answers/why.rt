// Why each CronJob of a list starts a Job at a moment, or not.
ghost use Rattle.std.specs.Prelude.{◌≡◌, ℕ, List, IfOk, IfErr, Some, codes, map, string_bytes};
ghost use Rattle.std.specs.FinMap as finmap;
ghost use Rattle.cj_base.specs.declared.refusal.Refusal.TheVariants.{OutOfMemory};
ghost use Rattle.cj_zone.specs.Table.{local_zone, zones_of};
ghost use Rattle.cj_zone.specs.Zones.{utc_zone};
ghost use Rattle.serde_json.specs.View.{view};
ghost use Rattle.cj_c.specs.answers.Buffers.{IsTold};
ghost use Rattle.cj_c.specs.answers.Lists.{IsListRefusal};
ghost use Rattle.cj_c.specs.answers.Why.{IsReviewed, IsWhyAnswered, TellsCrons, why_data, why_object};
ghost use Rattle.cj_c.specs.answers.Zones.{AreZonesOf};

use crate::answers::buffer::leave;
use crate::answers::lists::refused_list;
use crate::answers::text::json_text;
use crate::answers::told::Told;
use crate::answers::zones::{refused_zones, zones_of_text};
use crate::status::RANGE;
use cj_audit::others_value;
use cj_base::{Refusal, Seconds, all_three};
use cj_cluster::{ClusterCron, ClusterList, ItemNote, read_cluster};
use cj_explain::refused_value;
use cj_json::time_value;
use cj_types::Shared;
use cj_why::cron_values;
use cj_zone::ZoneTable;
use serde_json::{Value, json};
use std::alloc::{AllocError, Global};

fn why_object(
    alloc: Global,
    crons: Value,
    now: Value,
    others: Value,
    refused: Value,
) -> Result<Value, AllocError>
    ensures { IfOk result (λ v. view v
        ≡ why_object (view crons) (view now) (view others) (view refused)) }
{
    json!(in alloc; {
        "cronJobs": crons,
        "now": now,
        "others": others,
        "refused": refused
    })
}

fn why_value(
    alloc: Global,
    now: Seconds,
    crons: Vec<Value>,
    notes: &[ItemNote],
) -> Result<Value, Refusal>
    ensures ok { IfOk result (λ v. view v ≡ why_data now (map view crons.items) notes.now) }
    ensures err { IfErr result (λ e. e ≡ OutOfMemory) }
{
    let (now, others, refused) = all_three(
        time_value(alloc, now),
        others_value(alloc, notes),
        refused_value(alloc, notes),
    )?;
    Ok(why_object(alloc, Value::Array(crons), now, others, refused)?)
}

// The text for these CronJobs of a list under these zones.
fn why_text(
    alloc: Global,
    zones: &ZoneTable,
    list: &ClusterList,
    crons: &[Shared<ClusterCron>],
    now: Seconds,
) -> Result<String, Refusal>
    requires { local_zone zones.now ≡ Some (utc_zone (codes "UTC")) }
    ensures ok { IfOk result (λ s. TellsCrons (zones_of zones.now) list.now now crons.now
        (string_bytes s)) }
    ensures err { IfErr result (λ e. e ≡ OutOfMemory) }
{
    let values = cron_values(alloc, zones, &list.cluster, crons, now)?;
    let value = why_value(alloc, now, values, list.notes.as_slice())?;
    json_text(alloc, &value)
}

// The text for a list under these zones.
fn list_text(
    alloc: Global,
    zones: &ZoneTable,
    list: &ClusterList,
    now: Seconds,
) -> Result<String, Refusal>
    requires { local_zone zones.now ≡ Some (utc_zone (codes "UTC")) }
    ensures ok { IfOk result (λ s. TellsCrons (zones_of zones.now) list.now now
        (finmap.values list.now.cluster.crons) (string_bytes s)) }
    ensures err { IfErr result (λ e. e ≡ OutOfMemory) }
{
    let crons = list.cluster.crons(alloc)?;
    why_text(alloc, zones, list, crons.as_slice(), now)
}

// The answer for the bytes of a list under these zones.
fn reviewed_under(
    alloc: Global,
    bytes: &[u8],
    zones: &ZoneTable,
    now: Seconds,
) -> Result<Told, Refusal>
    requires { local_zone zones.now ≡ Some (utc_zone (codes "UTC")) }
    ensures ok { (zones_text : List ℕ) → AreZonesOf zones_text (zones_of zones.now) →
        IfOk result (IsTold (IsReviewed bytes.now zones_text now)
        (IsListRefusal bytes.now zones_text)) }
    ensures err { IfErr result (λ e. e ≡ OutOfMemory) }
{
    match read_cluster(alloc, bytes, zones) {
        Ok(list) => Ok(Told::Done(list_text(alloc, zones, &list, now)?)),
        Err(fault) => Ok(Told::Refused(refused_list(alloc, fault)?)),
    }
}

fn reviewed(alloc: Global, bytes: &[u8], zones: &[u8], now: Seconds) -> Result<Told, Refusal>
    ensures ok { IfOk result (IsTold (IsReviewed bytes.now zones.now now)
        (IsListRefusal bytes.now zones.now)) }
    ensures err { IfErr result (λ e. e ≡ OutOfMemory) }
{
    match zones_of_text(alloc, zones) {
        Ok(zones) => reviewed_under(alloc, bytes, &zones, now),
        Err(fault) => Ok(Told::Refused(refused_zones(alloc, fault)?)),
    }
}

/// Why each CronJob in what `kubectl get cronjobs,jobs -o json` prints starts a Job at a moment, or
/// not, under UTC and the zones of an object from names to POSIX rules, or no text: the times that
/// it missed, what runs, its plan and the reason, as JSON; or why there is no such list.
#[unsafe(no_mangle)]
pub extern "C" fn cronsim_why(
    alloc: Global,
    list: &[u8],
    zones: &[u8],
    now: u64,
    answer: &mut [u8],
    length: &mut usize,
) -> u32
    ensures { IsWhyAnswered list.now zones.now now answer.old answer.new length.old length.new
        result }
{
    let Some(now) = Seconds::new(now) else {
        return RANGE;
    };
    leave(reviewed(alloc, list, zones, now), answer, length)
}
