// Reading what a client prints of a cluster.
ghost use Rattle.std.specs.Prelude.{◌≡◌, ◌⊎◌, ◌≤◌, IfOk, IfErr, OnOk, OnErr, option_map};
ghost use Rattle.serde_json.specs.Data.{depth, items_depth};
ghost use Rattle.serde_json.specs.Read.{max_depth};
ghost use Rattle.serde_json.specs.View.{view, items_view};
ghost use Rattle.cj_base.specs.declared.refusal.Refusal.TheVariants.{OutOfMemory};
ghost use Rattle.cj_manifest.specs.Reading.{IsNoValue, Reads};
ghost use Rattle.cj_zone.specs.Table.{zones_of};
ghost use Rattle.cj_cluster.specs.kubectl.Lists.{typed};
ghost use Rattle.cj_cluster.specs.kubectl.Reading.{AddsItem, AddsItems, IsClusterList, IsRefusedList, start};
ghost use Rattle.cj_cluster.specs.declared.kubectl.fault.ListFault.TheVariants.{Memory, Syntax};

use crate::kubectl::fault::ListFault;
use crate::kubectl::item::read_item;
use crate::kubectl::list::{ClusterList, add_item, empty_list};
use crate::kubectl::lists::{items_of, text_at};
use crate::kubectl::streamed::stream_list;
use crate::kubectl::typed::{item_kind, typed_copy, unsaid_kind};
use cj_types::{Refusal, Uid};
use cj_zone::ZoneTable;
use serde_json::Value;
use std::alloc::Global;

/// The value that the bytes are. It nests at most as deep as JSON is read.
pub(crate) fn value_of(alloc: Global, bytes: &[u8]) -> Result<Value, ListFault>
    ensures reads { IfOk result (λ v. Reads bytes.now (view v)) }
    ensures flat { IfOk result (λ v. depth (view v) ≤ max_depth) }
    ensures refused { IfErr result (λ e. (e ≡ Memory) ⊎ ((e ≡ Syntax) × IsNoValue bytes.now)) }
{
    match Value::from_slice(alloc, bytes) {
        Ok(value) => Ok(value),
        Err(error) if error.is_memory() => Err(ListFault::Memory),
        Err(_) => Err(ListFault::Syntax),
    }
}

/// Adds the item at a place; unchanged where there is no memory, as for a place past the greatest
/// number that an object may have.
pub(crate) fn add_value(
    alloc: Global,
    list: &mut ClusterList,
    place: u64,
    value: &Value,
    zones: &ZoneTable,
) -> Result<(), Refusal>
    requires flat { depth (view value.now) ≤ max_depth }
    ensures ok { OnOk result (AddsItem (zones_of zones.now) place (view value.now) list.old
        list.new) }
    ensures err { OnErr result (list.new ≡ list.old) }
    ensures memory { IfErr result (λ e. e ≡ OutOfMemory) }
{
    let Some(number) = Uid::new(place) else {
        return Err(Refusal::OutOfMemory);
    };
    let item = read_item(alloc, number, value, zones)?;
    add_item(alloc, list, place, value, item)
}

// The text of an item that may name no kind, in a list of items of that kind and version.
fn add_typed(
    alloc: Global,
    list: &mut ClusterList,
    place: u64,
    value: &Value,
    kind: Option<&str>,
    version: Option<&str>,
    zones: &ZoneTable,
) -> Result<(), Refusal>
    requires flat { depth (view value.now) ≤ max_depth }
    ensures ok { OnOk result (AddsItem (zones_of zones.now) place
        (typed (option_map (λ s. s.now) kind.entry) (option_map (λ s. s.now) version.entry)
        (view value.now)) list.old list.new) }
    ensures err { OnErr result (list.new ≡ list.old) }
    ensures memory { IfErr result (λ e. e ≡ OutOfMemory) }
{
    match unsaid_kind(value, kind) {
        Some(kind) => {
            let copy = typed_copy(alloc, value, kind, version)?;
            add_value(alloc, list, place, &copy, zones)
        }
        None => add_value(alloc, list, place, value, zones),
    }
}

// The list of the items, one after another, of a list of that kind of items and that version.
fn list_of(
    alloc: Global,
    items: &[Value],
    kind: Option<&str>,
    version: Option<&str>,
    zones: &ZoneTable,
) -> Result<ClusterList, ListFault>
    requires flat { items_depth (items_view items.now) ≤ max_depth }
    ensures ok { IfOk result (AddsItems (zones_of zones.now)
        (record {
          kind = option_map (λ s. s.now) kind.entry;
          version = option_map (λ s. s.now) version.entry;
        }) 1 (items_view items.now) start) }
    ensures err { IfErr result (λ e. e ≡ Memory) }
{
    let mut list = empty_list(alloc);
    let mut place = 0;
    for item in items {
        place += 1;
        add_typed(alloc, &mut list, place, item, kind, version, zones)?;
    }
    Ok(list)
}

// Reads the same as a whole, as a value.
fn read_whole(alloc: Global, bytes: &[u8], zones: &ZoneTable) -> Result<ClusterList, ListFault>
    ensures read { IfOk result (IsClusterList (zones_of zones.now) bytes.now) }
    ensures refused { IfErr result (IsRefusedList bytes.now) }
{
    let value = value_of(alloc, bytes)?;
    match items_of(&value) {
        Some(items) => {
            let version = text_at(&value, "apiVersion");
            list_of(alloc, items, item_kind(&value), version, zones)
        }
        None => Err(ListFault::Form),
    }
}

/// Reads what `kubectl get cronjobs,jobs -o json` prints, under the zones of a table: a list of
/// objects, as `kind` says, or one CronJob or Job. In a list of one kind an item that says no kind
/// is of the list's, and of its version.
///
/// The cluster has each CronJob and Job that has no fault, numbered by its place in the list; the
/// first item of a name counts. A note says of each other item: its kind, where that is another, or
/// its faults. These are the faults of its manifest, or else of what its server says of it; the
/// spec of a Job isn't looked at. A member that is null counts as absent.
///
/// `Syntax` for bytes that aren't JSON, `Form` for a value that is neither; `Memory` too for a list
/// of more than 2^40 items.
pub fn read_cluster(
    alloc: Global,
    bytes: &[u8],
    zones: &ZoneTable,
) -> Result<ClusterList, ListFault>
    ensures read { IfOk result (IsClusterList (zones_of zones.now) bytes.now) }
    ensures refused { IfErr result (IsRefusedList bytes.now) }
{
    match stream_list(alloc, bytes, zones) {
        Ok(list) => Ok(list),
        Err(Refusal::OutOfMemory) => Err(ListFault::Memory),
        Err(_) => read_whole(alloc, bytes, zones),
    }
}
