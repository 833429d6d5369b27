// Block mappings and lists (YAML 1.2.2, chapter 8).
ghost use Rattle.std.specs.Prelude.{◌≡◌, ◌≤◌, ◌+◌, ◌==◌, ℕ, List, IfOk, IsOkAnd, IsUtf8, drop, false, slice_index, string_bytes, true};
ghost use Rattle.cj_yaml.specs.Cursors.{IsBefore, IsOnLine, OkOrMemory, goes_on, is_line};
ghost use Rattle.cj_yaml.specs.OnLines.{StandsPlain};
ghost use Rattle.cj_yaml.specs.Words.{IsPlainText};
ghost use Rattle.serde_json.specs.Data.{depth};
ghost use Rattle.serde_json.specs.View.{view};

use crate::block_text::read_block_text;
use crate::chars::{blanks_end, byte, is_gap, is_quote, last_line, part};
use crate::cursor::Cursor;
use crate::fault::{FaultKind, Stop};
use crate::grow::{push_item, put_member};
use crate::notes::Notes;
use crate::plain::{begins_plain, plain_end, plain_on_line, read_plain};
use crate::properties::{read_name, read_properties};
use crate::quoted::{quote_end, quoted_text, read_quoted};
use crate::scalar::{Tag, key_warning, plain_key, plain_value, tagged_value};
use serde_json::{Map, Value};
use std::alloc::Global;

// Reads one document.
#[derive(Drop)]
pub(crate) struct Reader<'a> {
    pub alloc: Global,
    pub cursor: Cursor<'a>,
    pub notes: Notes,
}

// What may stand as a value.
#[derive(Clone, Copy)]
pub(crate) struct Slot {
    // The least indentation of its lines.
    pub least: usize,
    // The indentation at which a list may stand none the less: that of the mapping.
    pub list: Option<usize>,
    // Whether a mapping or list may begin on the line.
    pub compact: bool,
    // How deep it may nest.
    pub room: usize,
}

// A key, and where it stands.
#[derive(Drop)]
pub(crate) struct Key {
    pub text: String,
    pub at: usize,
    pub end: usize,
}

impl<'a> Reader<'a> {
    // Reads the quoted key at the cursor.
    fn quoted_key(&mut self) -> Result<Key, Stop> {
        let at = self.cursor.at;
        let text = self.cursor.text;
        let quote = quote_end(text, at);
        if quote >= text.len() {
            return Err(self.cursor.fault(FaultKind::Unclosed));
        }
        if last_line(text, at, quote).is_some() {
            return Err(self.cursor.fault(FaultKind::ComplexKey));
        }
        let end = quote.saturating_add(1);
        let found = quoted_text(self.alloc, text, at, quote)?;
        self.cursor.at = end;
        Ok(Key {
            text: found,
            at,
            end,
        })
    }

    // Reads the plain key at the cursor.
    fn plain_key(&mut self, flow: bool) -> Result<Key, Stop>
        ensures printed { (t rest : List ℕ) → flow ≡ false
            → StandsPlain self.old.cursor.text.now self.old.cursor.at t rest → IsPlainText t
            → IsUtf8 t → OkOrMemory result (λ key. (string_bytes key.text ≡ t)
            × (drop self.new.cursor.at self.new.cursor.text.now ≡ rest)) }
    {
        let at = self.cursor.at;
        let text = self.cursor.text;
        let (shown, stop) = plain_on_line(text, at, flow);
        let end = at.saturating_add(shown.len());
        let bytes = Vec::from_slice(self.alloc, shown)?;
        let Ok(plain) = String::from_utf8(bytes) else {
            return Err(self.cursor.fault(FaultKind::NotUtf8));
        };
        if let Some(kind) = key_warning(plain.as_str()) {
            self.notes.warn(kind, at)?;
        }
        let found = plain_key(self.alloc, plain, at)?;
        self.cursor.at = stop;
        Ok(Key {
            text: found,
            at,
            end,
        })
    }

    // Why no key begins at the cursor.
    fn no_key(&self, flow: bool) -> Stop {
        let kind = match self.cursor.peek() {
            b'?' | b'[' | b'{' => FaultKind::ComplexKey,
            b'&' | b'!' | b'*' => FaultKind::KeyProperty,
            b':' => FaultKind::NullKey,
            b'-' => FaultKind::ItemHere,
            _ if flow => FaultKind::FlowSyntax,
            _ => FaultKind::Indicator,
        };
        self.cursor.fault(kind)
    }

    // Reads the key at the cursor, and goes to what follows behind blanks.
    pub(crate) fn key(&mut self, flow: bool) -> Result<Key, Stop> {
        let first = self.cursor.peek();
        let found = if is_quote(first) {
            self.quoted_key()?
        } else if begins_plain(first, self.cursor.ahead(1), flow) {
            self.plain_key(flow)?
        } else {
            return Err(self.no_key(flow));
        };
        self.cursor.pass_blanks();
        Ok(found)
    }

    // Reads the key at the cursor and the `:` behind it.
    fn block_key(&mut self) -> Result<Key, Stop> {
        let found = self.key(false)?;
        if self.cursor.peek() != b':' || !is_gap(self.cursor.ahead(1)) {
            return Err(Stop::new(FaultKind::NoColon, found.at));
        }
        self.cursor.step(1);
        Ok(found)
    }

    // Whether a key stands at the cursor, with its `:`.
    fn is_key(&self) -> bool
        ensures printed { (t rest : List ℕ)
            → StandsPlain self.now.cursor.text.now self.now.cursor.at t rest
            → result ≡ (slice_index rest 0 == 58) }
    {
        if is_quote(self.cursor.peek()) {
            is_quoted_key(self.cursor.text, self.cursor.at)
        } else {
            let end = plain_end(self.cursor.text, self.cursor.at, false);
            byte(self.cursor.text, end) == b':'
        }
    }

    // Goes to the value of a slot, where there is one: then whether a mapping or list may begin.
    fn seek(&mut self, slot: Slot) -> Result<Option<bool>, Stop> {
        let start = self.cursor.at;
        self.cursor.pass_blanks();
        if slot.compact && part(self.cursor.text, start, self.cursor.at).contains(&b'\t') {
            return Err(Stop::new(FaultKind::Tab, start));
        }
        if !self.cursor.ends_line() {
            return Ok(Some(slot.compact));
        }
        match self.cursor.next_content()? {
            Some(column) if column >= slot.least => Ok(Some(true)),
            Some(column) if slot.list == Some(column) && self.cursor.is_item() => Ok(Some(true)),
            _ => Ok(None),
        }
    }

    // Reads the value of a slot, with what is noted of it.
    #[cycle(block)]
    pub(crate) fn value(&mut self, slot: Slot, key: (usize, usize)) -> Result<Value, Stop>
        ensures nests { IfOk result (λ v. depth (view v) ≤ slot.room) }
    {
        let spot = self.notes.open(key, self.cursor.at)?;
        let value = match self.seek(slot)? {
            Some(compact) => {
                self.notes.place(spot, self.cursor.at);
                self.present(Slot { compact, ..slot })?
            }
            None => Value::Null,
        };
        self.notes.close(spot);
        Ok(value)
    }

    // Reads the value at the cursor, behind its anchor and tag.
    #[cycle(block)]
    fn present(&mut self, slot: Slot) -> Result<Value, Stop>
        ensures nests { IfOk result (λ v. depth (view v) ≤ slot.room) }
    {
        let properties = read_properties(&mut self.cursor)?;
        if properties.is_none() {
            return self.content(slot, None);
        }
        let later = Slot {
            compact: false,
            ..slot
        };
        let value = match self.seek(later)? {
            Some(compact) => self.content(Slot { compact, ..slot }, properties.tag)?,
            None => self.text_value(String::new(self.alloc), properties.tag, properties.at)?,
        };
        if let Some(name) = properties.anchor {
            self.notes.anchor(name, &value, properties.at)?;
        }
        Ok(value)
    }

    // The value of a plain text.
    pub(crate) fn text_value(
        &mut self,
        text: String,
        tag: Option<Tag>,
        at: usize,
    ) -> Result<Value, Stop>
        ensures flat { IfOk result (λ v. depth (view v) ≡ 0) }
    {
        match tag {
            Some(tag) => tagged_value(tag, text, at),
            None => plain_value(&mut self.notes, text, at),
        }
    }

    // Reads a value at the cursor.
    #[cycle(block)]
    fn content(&mut self, slot: Slot, tag: Option<Tag>) -> Result<Value, Stop>
        ensures nests { IfOk result (λ v. depth (view v) ≤ slot.room) }
    {
        let first = self.cursor.peek();
        if self.cursor.is_item() {
            return self.nested(slot, tag, true);
        }
        match first {
            b'*' | b'[' | b'{' => self.sealed(slot.room, tag),
            b'|' | b'>' => {
                let at = self.cursor.at;
                let text = read_block_text(self.alloc, &mut self.cursor, slot.least)?;
                quoted_value(text, tag, at)
            }
            b'?' if is_gap(self.cursor.ahead(1)) => Err(self.cursor.fault(FaultKind::ComplexKey)),
            b':' if is_gap(self.cursor.ahead(1)) => Err(self.cursor.fault(FaultKind::NullKey)),
            _ if self.is_key() => self.nested(slot, tag, false),
            _ => self.scalar(slot.least, tag, false),
        }
    }

    // Reads the plain or quoted text at the cursor as a value.
    pub(crate) fn scalar(
        &mut self,
        least: usize,
        tag: Option<Tag>,
        flow: bool,
    ) -> Result<Value, Stop>
        ensures flat { IfOk result (λ v. depth (view v) ≡ 0) }
    {
        let at = self.cursor.at;
        let first = self.cursor.peek();
        if is_quote(first) {
            let text = read_quoted(self.alloc, &mut self.cursor)?;
            return quoted_value(text, tag, at);
        }
        if !begins_plain(first, self.cursor.ahead(1), flow) {
            let kind = if flow {
                FaultKind::FlowSyntax
            } else {
                FaultKind::Indicator
            };
            return Err(self.cursor.fault(kind));
        }
        let text = read_plain(self.alloc, &mut self.cursor, least, flow)?;
        self.text_value(text, tag, at)
    }

    // Reads the mapping or list that begins at the cursor, where one may.
    #[cycle(block)]
    fn nested(&mut self, slot: Slot, tag: Option<Tag>, list: bool) -> Result<Value, Stop>
        ensures nests { IfOk result (λ v. depth (view v) ≤ slot.room) }
    {
        if !slot.compact {
            return Err(
                self.cursor.fault(if list {
                    FaultKind::ItemHere
                } else {
                    FaultKind::MappingHere
                }),
            );
        }
        if tag.is_some() {
            return Err(self.cursor.fault(FaultKind::TagMismatch));
        }
        if slot.room == 0 {
            return Err(self.cursor.fault(FaultKind::TooDeep));
        }
        if list {
            self.list(slot.room - 1)
        } else {
            self.mapping(slot.room - 1)
        }
    }

    // Reads the mapping whose first key is at the cursor; its values may nest `room` deep.
    #[cycle(block)]
    #[tactic(auto, using(crate::proofs::Depths::object_depth))]
    fn mapping(&mut self, room: usize) -> Result<Value, Stop>
        ensures nests { IfOk result (λ v. depth (view v) ≤ room + 1) }
    {
        let column = self.cursor.column();
        let mut members = Map::new(self.alloc);
        'members: for _ in 0..=self.cursor.text.len() {
            let key = self.block_key()?;
            if members.contains_key(&key.text) {
                return Err(Stop::new(FaultKind::DuplicateKey, key.at));
            }
            let slot = Slot {
                least: column.saturating_add(1),
                list: Some(column),
                compact: false,
                room,
            };
            let value = self.value(slot, (key.at, key.end))?;
            put_member(&mut members, key.text, value)?;
            if !self.goes_on(column)? {
                break;
            }
        }
        Ok(Value::Object(members))
    }

    // Whether a further line of the collection at this column follows.
    fn goes_on(&mut self, column: usize) -> Result<bool, Stop>
        ensures printed { (n : ℕ) (rest : List ℕ) → is_line n rest ≡ true
            → IsBefore self.old.cursor n rest → n ≤ column
            → IsOkAnd result (λ more. more ≡ goes_on column n rest)
            × IsOnLine self.new.cursor n rest }
    {
        match self.cursor.next_content()? {
            Some(next) if next > column => Err(self.cursor.fault(FaultKind::Indentation)),
            Some(next) => Ok(next == column),
            None => Ok(false),
        }
    }

    // Reads the list whose first `-` is at the cursor; its items may nest `room` deep.
    #[cycle(block)]
    #[tactic(auto, using(crate::proofs::Depths::array_depth))]
    fn list(&mut self, room: usize) -> Result<Value, Stop>
        ensures nests { IfOk result (λ v. depth (view v) ≤ room + 1) }
    {
        let column = self.cursor.column();
        let mut items = Vec::new(self.alloc);
        'items: for _ in 0..=self.cursor.text.len() {
            self.cursor.step(1);
            let slot = Slot {
                least: column.saturating_add(1),
                list: None,
                compact: true,
                room,
            };
            let value = self.value(slot, (0, 0))?;
            push_item(&mut items, value)?;
            if !self.goes_on(column)? || !self.cursor.is_item() {
                break;
            }
        }
        Ok(Value::Array(items))
    }

    // Reads an alias, or a collection in brackets. No `:` may follow, since neither is a key.
    fn sealed(&mut self, room: usize, tag: Option<Tag>) -> Result<Value, Stop>
        ensures nests { IfOk result (λ v. depth (view v) ≤ room) }
    {
        let at = self.cursor.at;
        if tag.is_some() {
            return Err(self.cursor.fault(FaultKind::TagMismatch));
        }
        let alias = self.cursor.peek() == b'*';
        let value = if alias {
            self.alias(room)?
        } else {
            self.brackets(room)?
        };
        self.cursor.pass_blanks();
        if self.cursor.peek() == b':' {
            let kind = if alias {
                FaultKind::KeyProperty
            } else {
                FaultKind::ComplexKey
            };
            return Err(Stop::new(kind, at));
        }
        Ok(value)
    }

    // Reads the alias at the cursor.
    pub(crate) fn alias(&mut self, room: usize) -> Result<Value, Stop>
        ensures nests { IfOk result (λ v. depth (view v) ≤ room) }
    {
        let at = self.cursor.at;
        let name = read_name(&mut self.cursor)?;
        self.notes.alias(name, room, at)
    }
}

// Whether a quoted key stands at an offset, with its `:`.
fn is_quoted_key(text: &[u8], at: usize) -> bool {
    let quote = quote_end(text, at);
    let behind = blanks_end(text, quote.saturating_add(1));
    byte(text, behind) == b':'
        && is_gap(byte(text, behind.saturating_add(1)))
        && last_line(text, at, quote).is_none()
}

// The value of a quoted, literal or folded text.
fn quoted_value(text: String, tag: Option<Tag>, at: usize) -> Result<Value, Stop>
    ensures flat { IfOk result (λ v. depth (view v) ≡ 0) }
{
    match tag {
        Some(tag) => tagged_value(tag, text, at),
        None => Ok(Value::String(text)),
    }
}
