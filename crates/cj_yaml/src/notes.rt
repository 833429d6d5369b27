ghost use Rattle.std.specs.Bool.{OnTrue};
ghost use Rattle.std.specs.Prelude.{◌≤◌, IfOk};
ghost use Rattle.serde_json.specs.Data.{depth, items_depth, members_depth};
ghost use Rattle.serde_json.specs.View.{view, items_view, members_view};

use crate::fault::{FaultKind, Stop};
use crate::mark::{Mark, WarningKind};
use crate::places::Spot;
use serde_json::{Map, Value};
use std::alloc::Global;

// The least that anchors and aliases of a text may repeat, and how often its own length beyond.
const LEAST_COPIED: usize = 65_536;

const COPIES: usize = 16;

// A value that an anchor names.
#[derive(Drop)]
struct Anchored {
    value: Value,
    weight: usize,
}

// What is noted of a document while it is read.
#[derive(Drop)]
pub(crate) struct Notes {
    alloc: Global,
    pub spots: Vec<Spot>,
    pub marks: Vec<Mark>,
    anchors: Map<String, Anchored>,
    // (what anchors and aliases may still repeat)
    left: usize,
}

impl Notes {
    pub(crate) fn new(alloc: Global, text: &[u8]) -> Notes {
        Notes {
            alloc,
            spots: Vec::new(alloc),
            marks: Vec::new(alloc),
            anchors: Map::new(alloc),
            left: LEAST_COPIED.saturating_add(text.len().saturating_mul(COPIES)),
        }
    }

    pub(crate) fn warn(&mut self, kind: WarningKind, at: usize) -> Result<(), Stop> {
        self.marks.push(Mark { kind, at })?;
        Ok(())
    }

    // Notes that a value begins there, behind its key; the number of its spot.
    pub(crate) fn open(&mut self, key: (usize, usize), at: usize) -> Result<usize, Stop> {
        let number = self.spots.len();
        self.spots.push(Spot {
            at,
            key_at: key.0,
            key_end: key.1,
            next: 0,
        })?;
        Ok(number)
    }

    // Notes that the value of a spot ends.
    pub(crate) fn close(&mut self, number: usize) {
        let next = self.spots.len();
        if let Some(spot) = self.spots.get_mut(number) {
            spot.next = next;
        }
    }

    // Notes where the value of a spot begins.
    pub(crate) fn place(&mut self, number: usize, at: usize) {
        if let Some(spot) = self.spots.get_mut(number) {
            spot.at = at;
        }
    }

    // Keeps a copy of the value that an anchor names.
    pub(crate) fn anchor(&mut self, name: &str, value: &Value, at: usize) -> Result<(), Stop> {
        let weight = weight(value);
        if weight > self.left {
            return Err(Stop::new(FaultKind::AliasBomb, at));
        }
        self.left -= weight;
        let value = value.clone()?;
        let name = String::from_str(self.alloc, name)?;
        drop(self.anchors.insert(name, Anchored { value, weight })?);
        Ok(())
    }

    // A copy of the value that an anchor names, which may nest `room` deep.
    pub(crate) fn alias(&mut self, name: &str, room: usize, at: usize) -> Result<Value, Stop>
        ensures nests { IfOk result (λ v. depth (view v) ≤ room) }
    {
        let Some(found) = self.anchors.get(name) else {
            return Err(Stop::new(FaultKind::UnknownAlias, at));
        };
        if !nests_within(&found.value, room) {
            return Err(Stop::new(FaultKind::TooDeep, at));
        }
        let weight = found.weight;
        if weight > self.left {
            return Err(Stop::new(FaultKind::AliasBomb, at));
        }
        let copy = found.value.clone()?;
        self.left -= weight;
        Ok(copy)
    }
}

// How much a copy of a value takes: its values, and the bytes of its texts.
#[cycle(weight)]
fn weight(value: &Value) -> usize {
    match value {
        Value::Null => 1,
        Value::Bool(_) => 1,
        Value::Number(_) => 1,
        Value::String(text) => text.len().saturating_add(1),
        Value::Array(items) => items_weight(items),
        Value::Object(members) => members_weight(members),
    }
}

#[cycle(weight)]
fn items_weight(items: &Vec<Value>) -> usize {
    let mut total = 1usize;
    for item in items {
        total = total.saturating_add(weight(item));
    }
    total
}

#[cycle(weight)]
fn members_weight(members: &Map<String, Value>) -> usize {
    let mut total = 1usize;
    for (key, member) in members.iter() {
        total = total
            .saturating_add(key.len())
            .saturating_add(weight(member));
    }
    total
}

// Whether a value nests at most `room` deep.
#[cycle(nests)]
pub(crate) fn nests_within(value: &Value, room: usize) -> bool
    ensures { OnTrue result (depth (view value.now) ≤ room) }
{
    match value {
        Value::Null => true,
        Value::Bool(_) => true,
        Value::Number(_) => true,
        Value::String(_) => true,
        Value::Array(items) => room > 0 && items_within(items, room.saturating_sub(1)),
        Value::Object(members) => room > 0 && members_within(members, room.saturating_sub(1)),
    }
}

#[cycle(nests)]
fn items_within(items: &Vec<Value>, room: usize) -> bool
    ensures { OnTrue result (items_depth (items_view items.now.items) ≤ room) }
{
    for item in items {
        if !nests_within(item, room) {
            return false;
        }
    }
    true
}

#[cycle(nests)]
fn members_within(members: &Map<String, Value>, room: usize) -> bool
    ensures { OnTrue result (members_depth (members_view members.now.entries) ≤ room) }
{
    for (_key, member) in members.iter() {
        if !nests_within(member, room) {
            return false;
        }
    }
    true
}
