// What is read of one item of a list.
ghost use Rattle.std.specs.Prelude.{◌≡◌, ◌≤◌, Some, IfOk, IfErr, option_map};
ghost use Rattle.std.specs.Result.{result_ok, result_err};
ghost use Rattle.serde_json.specs.Data.{depth};
ghost use Rattle.serde_json.specs.Read.{max_depth};
ghost use Rattle.serde_json.specs.View.{view};
ghost use Rattle.cj_base.specs.declared.refusal.Refusal.TheVariants.{OutOfMemory};
ghost use Rattle.cj_zone.specs.Table.{zones_of};
ghost use Rattle.cj_types.specs.Keys.{fault_of};
ghost use Rattle.cj_cluster.specs.declared.kubectl.item.Item.TheVariants as Read;
ghost use Rattle.cj_cluster.specs.kubectl.Reading.{IsItem, IsKindItem, kind_field};

use crate::cron::ClusterCron;
use crate::kubectl::crons::cron_item;
use crate::kubectl::faults::fault;
use crate::kubectl::runs::job_item;
use crate::times::JobTimes;
use cj_manifest::{present, text};
use cj_types::{Cause, Field, FieldFaults, Job, Refusal, Shared, Text, Uid};
use cj_zone::ZoneTable;
use serde_json::Value;
use std::alloc::Global;

/// What is read of an item.
#[derive(Drop)]
pub(crate) enum Item {
    /// A CronJob.
    Cron(ClusterCron),
    /// A Job, and its times.
    Run(Shared<Job>, Shared<JobTimes>),
    /// An object of another kind, which is this.
    Other(Text),
    /// An item that is refused.
    Faulty(FieldFaults),
}

fn kind_of(value: &Value) -> Result<&str, Cause>
    ensures fault { result_err result ≡ result_err (kind_field (view value.now)) }
    ensures value { option_map (λ s. s.now) (result_ok result)
        ≡ result_ok (kind_field (view value.now)) }
{
    match present(value, "kind") {
        Some(found) => text(found),
        None => Err(Cause::Required),
    }
}

// An item with one fault.
fn faulty(alloc: Global, field: Field, cause: Cause) -> Result<Item, Refusal>
    ensures ok { IfOk result (λ i. i ≡ Read.Faulty (fault_of field (Some cause))) }
    ensures err { IfErr result (λ e. e ≡ OutOfMemory) }
{
    Ok(Item::Faulty(fault(alloc, field, cause)?))
}

// An item of another kind.
fn other(alloc: Global, kind: &str) -> Result<Item, Refusal>
    ensures ok { IfOk result (λ i. i ≡ Read.Other kind.now) }
    ensures err { IfErr result (λ e. e ≡ OutOfMemory) }
{
    Ok(Item::Other(Text::new(alloc, kind)?))
}

// What is read of an object, by its kind.
fn kind_item(alloc: Global, place: Uid, value: &Value, zones: &ZoneTable) -> Result<Item, Refusal>
    requires flat { depth (view value.now) ≤ max_depth }
    ensures ok { IfOk result (IsKindItem (zones_of zones.now) place (view value.now)
        (kind_field (view value.now))) }
    ensures err { IfErr result (λ e. e ≡ OutOfMemory) }
{
    match kind_of(value) {
        Err(cause) => faulty(alloc, Field::Kind, cause),
        Ok(kind) => {
            if kind == "CronJob" {
                cron_item(alloc, place, value, zones)
            } else if kind == "Job" {
                job_item(alloc, place, value)
            } else {
                other(alloc, kind)
            }
        }
    }
}

/// What is read of the item at a place; it nests no deeper than JSON is read.
pub(crate) fn read_item(
    alloc: Global,
    place: Uid,
    value: &Value,
    zones: &ZoneTable,
) -> Result<Item, Refusal>
    requires flat { depth (view value.now) ≤ max_depth }
    ensures ok { IfOk result (IsItem (zones_of zones.now) place (view value.now)) }
    ensures err { IfErr result (λ e. e ≡ OutOfMemory) }
{
    if value.is_object() {
        kind_item(alloc, place, value, zones)
    } else {
        faulty(alloc, Field::Whole, Cause::WrongType)
    }
}
