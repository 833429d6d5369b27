// Reading a list item by item: no item is kept as a value while the next is read.
ghost use Rattle.std.specs.Prelude.{◌≡◌, ◌<◌, ◌≤◌, ℕ, List, IfOk, OnOk, Some, codes, length, option_map, string_bytes, true};
ghost use Rattle.serde_json.specs.Data.{depth};
ghost use Rattle.serde_json.specs.Read.{max_depth};
ghost use Rattle.serde_json.specs.View.{view};
ghost use Rattle.cj_zone.specs.Table.{zones_of};
ghost use Rattle.cj_cluster.specs.kubectl.Lists.{is_list};
ghost use Rattle.cj_cluster.specs.kubectl.Reading.{IsClusterList};
ghost use Rattle.cj_cluster.specs.kubectl.Streamed.{AddsAnywhere, BeginsObjects, BeginsSaid, IsListText, TakesMember};

use crate::kubectl::list::{ClusterList, empty_list};
use crate::kubectl::lists::is_list;
use crate::kubectl::read::add_value;
use cj_json::read_value;
use cj_manifest::present;
use cj_types::Refusal;
use cj_zone::ZoneTable;
use json::{Reader, Scratch, Token};
use serde_json::Value;
use std::alloc::Global;

// How many levels a member of the list may nest, and how many one of its items. JSON may nest 127
// levels.
const MEMBER_LEVELS: usize = 126;

const ITEM_LEVELS: usize = 125;

/// What a list says of itself, as far as it is read.
#[derive(Drop)]
pub(crate) struct Said {
    kind: Option<String>,
    listed: Option<ClusterList>,
}

// Adds an item that says its kind, at its place.
fn add_said(
    alloc: Global,
    list: &mut ClusterList,
    place: u64,
    value: Value,
    zones: &ZoneTable,
) -> Result<(), Refusal>
    requires flat { depth (view value) ≤ max_depth }
    ensures ok { OnOk result (AddsAnywhere (zones_of zones.now) place (view value) list.old
        list.new) }
{
    match present(&value, "kind") {
        Some(_) => add_value(alloc, list, place, &value, zones),
        None => Err(Refusal::Syntax),
    }
}

// Reads the items of an array, behind its bracket, and adds each.
fn stream_items(
    alloc: Global,
    reader: &mut Reader<'_>,
    zones: &ZoneTable,
) -> Result<ClusterList, Refusal>
    ensures ok { IfOk result (BeginsObjects (zones_of zones.now) 125 reader.old reader.new) }
    ensures shorter { OnOk result (length reader.new < length reader.old) }
{
    let mut list = empty_list(alloc);
    let mut place = 0u64;
    'items: while !reader.take_end_array() {
        let Some(next) = place.checked_add(1) else {
            return Err(Refusal::OutOfMemory);
        };
        let value = read_value(alloc, reader, ITEM_LEVELS)?;
        add_said(alloc, &mut list, next, value, zones)?;
        place = next;
    }
    Ok(list)
}

// Takes the array of the items.
fn take_items(
    alloc: Global,
    reader: &mut Reader<'_>,
    said: Said,
    zones: &ZoneTable,
) -> Result<Said, Refusal>
    ensures ok { IfOk result (TakesMember (zones_of zones.now) 126 (codes "items") reader.old
        reader.new said) }
    ensures shorter { OnOk result (length reader.new < length reader.old) }
{
    let Some(Token::BeginArray) = reader.next() else {
        return Err(Refusal::Syntax);
    };
    let list = stream_items(alloc, reader, zones)?;
    let Said { kind, listed } = said;
    drop(listed);
    Ok(Said {
        kind,
        listed: Some(list),
    })
}

// Takes the kind.
fn take_kind(
    alloc: Global,
    reader: &mut Reader<'_>,
    said: Said,
    zones: &ZoneTable,
) -> Result<Said, Refusal>
    ensures ok { IfOk result (TakesMember (zones_of zones.now) 126 (codes "kind") reader.old
        reader.new said) }
    ensures shorter { OnOk result (length reader.new < length reader.old) }
{
    let value = read_value(alloc, reader, MEMBER_LEVELS)?;
    let Value::String(kind) = value else {
        return Err(Refusal::Syntax);
    };
    let Said { kind: old, listed } = said;
    drop(old);
    Ok(Said {
        kind: Some(kind),
        listed,
    })
}

// Takes the value of the member of that name.
fn take_member(
    alloc: Global,
    reader: &mut Reader<'_>,
    name: &str,
    said: Said,
    zones: &ZoneTable,
) -> Result<Said, Refusal>
    ensures ok { IfOk result (TakesMember (zones_of zones.now) 126 name.now reader.old reader.new
        said) }
    ensures shorter { OnOk result (length reader.new < length reader.old) }
{
    if name == "items" {
        take_items(alloc, reader, said, zones)
    } else if name == "kind" {
        take_kind(alloc, reader, said, zones)
    } else {
        let _other = read_value(alloc, reader, MEMBER_LEVELS)?;
        Ok(said)
    }
}

// Reads the members of an object, behind its brace.
fn stream_members(
    alloc: Global,
    reader: &mut Reader<'_>,
    zones: &ZoneTable,
) -> Result<Said, Refusal>
    ensures ok { IfOk result (BeginsSaid (zones_of zones.now) 126 reader.old reader.new) }
{
    let mut said = Said {
        kind: None,
        listed: None,
    };
    'members: while let Some(name) = reader.next_key().map_err(|_| Refusal::Syntax)? {
        said = take_member(alloc, reader, name, said, zones)?;
    }
    Ok(said)
}

// The list that is known, if it is one.
fn list_of(said: Said) -> Result<ClusterList, Refusal>
    ensures ok { IfOk result (λ l. (k : List ℕ) × (option_map string_bytes said.kind ≡ Some k)
        × (is_list k ≡ true) × (said.listed ≡ Some l)) }
{
    let Said { kind, listed } = said;
    let (Some(kind), Some(list)) = (kind, listed) else {
        return Err(Refusal::Syntax);
    };
    if is_list(kind.as_str()) {
        Ok(list)
    } else {
        Err(Refusal::Syntax)
    }
}

// Reads a text that is a list whose items say their kinds.
fn stream_text(alloc: Global, text: &str, zones: &ZoneTable) -> Result<ClusterList, Refusal>
    ensures ok { IfOk result (IsListText (zones_of zones.now) text.now) }
{
    let mut scratch = Scratch::new(alloc);
    let mut reader = Reader::new(text, &mut scratch)?;
    let Some(Token::BeginObject) = reader.next() else {
        return Err(Refusal::Syntax);
    };
    let said = stream_members(alloc, &mut reader, zones)?;
    if reader.next().is_some() {
        return Err(Refusal::Syntax);
    }
    list_of(said)
}

/// Reads bytes that are a list whose items say their kinds, item by item. All else is refused, and
/// nothing said of why.
pub(crate) fn stream_list(
    alloc: Global,
    bytes: &[u8],
    zones: &ZoneTable,
) -> Result<ClusterList, Refusal>
    ensures ok { IfOk result (IsClusterList (zones_of zones.now) bytes.now) }
{
    let Ok(text) = simdutf8::compat::from_utf8(bytes) else {
        return Err(Refusal::Syntax);
    };
    stream_text(alloc, text, zones)
}
