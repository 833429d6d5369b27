// Mappings and lists in brackets (YAML 1.2.2, 7.4).
ghost use Rattle.std.specs.Prelude.{◌≤◌, ◌+◌, IfOk};
ghost use Rattle.serde_json.specs.Data.{depth};
ghost use Rattle.serde_json.specs.View.{view};

use crate::block::Reader;
use crate::fault::{FaultKind, Stop};
use crate::grow::{push_item, put_member};
use crate::properties::read_properties;
use crate::scalar::Tag;
use serde_json::{Map, Value};

impl<'a> Reader<'a> {
    // Reads the collection whose bracket is at the cursor, which may nest `room` deep.
    #[cycle(flow)]
    pub(crate) fn brackets(&mut self, room: usize) -> Result<Value, Stop>
        ensures nests { IfOk result (λ v. depth (view v) ≤ room) }
    {
        if room == 0 {
            return Err(self.cursor.fault(FaultKind::TooDeep));
        }
        let list = self.cursor.peek() == b'[';
        self.cursor.step(1);
        if list {
            self.flow_items(room - 1)
        } else {
            self.flow_members(room - 1)
        }
    }

    // Reads a value between brackets, with what is noted of it.
    #[cycle(flow)]
    fn flow_value(&mut self, room: usize, key: (usize, usize)) -> Result<Value, Stop>
        ensures nests { IfOk result (λ v. depth (view v) ≤ room) }
    {
        let spot = self.notes.open(key, self.cursor.at)?;
        let properties = read_properties(&mut self.cursor)?;
        if !properties.is_none() {
            self.cursor.pass_flow()?;
        }
        let value = self.flow_content(room, properties.tag, !properties.is_none())?;
        if let Some(name) = properties.anchor {
            self.notes.anchor(name, &value, properties.at)?;
        }
        self.notes.close(spot);
        Ok(value)
    }

    // Reads a value between brackets behind its anchor and tag, which may be empty if there is one.
    #[cycle(flow)]
    fn flow_content(&mut self, room: usize, tag: Option<Tag>, noted: bool) -> Result<Value, Stop>
        ensures nests { IfOk result (λ v. depth (view v) ≤ room) }
    {
        let at = self.cursor.at;
        let first = self.cursor.peek();
        match first {
            b',' | b']' | b'}' if noted => self.text_value(String::new(self.alloc), tag, at),
            b'*' | b'[' | b'{' if tag.is_some() => Err(self.cursor.fault(FaultKind::TagMismatch)),
            b'*' => self.alias(room),
            b'[' | b'{' => self.brackets(room),
            _ => self.scalar(0, tag, true),
        }
    }

    // Reads the items of a list whose bracket was passed.
    #[cycle(flow)]
    #[tactic(auto, using(crate::proofs::Depths::array_depth))]
    fn flow_items(&mut self, room: usize) -> Result<Value, Stop>
        ensures nests { IfOk result (λ v. depth (view v) ≤ room + 1) }
    {
        let mut items = Vec::new(self.alloc);
        'items: for _ in 0..=self.cursor.text.len() {
            self.cursor.pass_flow()?;
            if self.cursor.peek() == b']' {
                break;
            }
            let value = self.flow_value(room, (0, 0))?;
            push_item(&mut items, value)?;
            if !self.passes_comma(b']')? {
                break;
            }
        }
        self.cursor.step(1);
        Ok(Value::Array(items))
    }

    // Passes over the comma behind an item or member. Whether there is one: else the bracket that
    // closes is at the cursor.
    fn passes_comma(&mut self, close: u8) -> Result<bool, Stop> {
        self.cursor.pass_flow()?;
        let found = self.cursor.peek();
        if found == b',' {
            self.cursor.step(1);
            return Ok(true);
        }
        if found == close {
            return Ok(false);
        }
        Err(
            self.cursor.fault(if found == b':' && close == b']' {
                FaultKind::PairInList
            } else {
                FaultKind::FlowSyntax
            }),
        )
    }

    // Reads the value behind the `:` at the cursor, or the empty one where there is none.
    #[cycle(flow)]
    fn flow_member(&mut self, room: usize, key: (usize, usize)) -> Result<Value, Stop>
        ensures nests { IfOk result (λ v. depth (view v) ≤ room) }
    {
        if self.cursor.peek() == b':' {
            self.cursor.step(1);
            self.cursor.pass_flow()?;
            if !matches!(self.cursor.peek(), b',' | b'}') {
                return self.flow_value(room, key);
            }
        }
        let spot = self.notes.open(key, self.cursor.at)?;
        self.notes.close(spot);
        Ok(Value::Null)
    }

    // Reads the members of a mapping whose bracket was passed.
    #[cycle(flow)]
    #[tactic(auto, using(crate::proofs::Depths::object_depth))]
    fn flow_members(&mut self, room: usize) -> Result<Value, Stop>
        ensures nests { IfOk result (λ v. depth (view v) ≤ room + 1) }
    {
        let mut members = Map::new(self.alloc);
        'members: for _ in 0..=self.cursor.text.len() {
            self.cursor.pass_flow()?;
            if self.cursor.peek() == b'}' {
                break;
            }
            let key = self.key(true)?;
            if members.contains_key(&key.text) {
                return Err(Stop::new(FaultKind::DuplicateKey, key.at));
            }
            let value = self.flow_member(room, (key.at, key.end))?;
            put_member(&mut members, key.text, value)?;
            if !self.passes_comma(b'}')? {
                break;
            }
        }
        self.cursor.step(1);
        Ok(Value::Object(members))
    }
}
