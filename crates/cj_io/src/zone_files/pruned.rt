// A list read item by item: an item is kept only if it names a zone.
ghost use Rattle.std.specs.Prelude.{◌≡◌, ◌<◌, IfOk, OnOk, IsUtf8, length};
ghost use Rattle.serde_json.specs.View.{items_view, members_view, view};
ghost use Rattle.cj_io.specs.zone_files.Named.{zones_in};
ghost use Rattle.cj_io.specs.zone_files.Pruned.{BeginsItemsLike, BeginsLike, BeginsMembersLike, IsLike};

use crate::zone_files::named::names_in;
use cj_base::Refusal;
use cj_json::read_value;
use json::{Reader, Scratch, Token};
use serde_json::{Map, Value, push, put};
use std::alloc::Global;

// How many levels a member of the list may nest, and how many one of its items. JSON may nest 127
// levels.
const MEMBER_LEVELS: usize = 126;

const ITEM_LEVELS: usize = 125;

// The item if it names a zone, and else null.
fn pruned_item(alloc: Global, value: Value) -> Result<Value, Refusal>
    ensures ok { IfOk result (λ v. zones_in (view v) ≡ zones_in (view value)) }
{
    let names = names_in(alloc, &value)?;
    if names.as_slice().is_empty() {
        Ok(Value::Null)
    } else {
        Ok(value)
    }
}

// Reads the items of an array, behind its bracket.
fn pruned_items(alloc: Global, reader: &mut Reader<'_>) -> Result<Vec<Value>, Refusal>
    ensures ok { IfOk result
        (λ v. BeginsItemsLike 125 reader.old reader.new (items_view v.items)) }
    ensures shorter { OnOk result (length reader.new < length reader.old) }
{
    let mut found = Vec::new(alloc);
    'items: while !reader.take_end_array() {
        let value = read_value(alloc, reader, ITEM_LEVELS)?;
        let item = pruned_item(alloc, value)?;
        push(&mut found, item)?;
    }
    Ok(found)
}

// Reads the array of the items.
fn pruned_array(alloc: Global, reader: &mut Reader<'_>) -> Result<Value, Refusal>
    ensures ok { IfOk result (λ v. BeginsLike 126 reader.old reader.new (view v)) }
    ensures shorter { OnOk result (length reader.new < length reader.old) }
{
    let Some(Token::BeginArray) = reader.next() else {
        return Err(Refusal::Syntax);
    };
    Ok(Value::Array(pruned_items(alloc, reader)?))
}

// Reads the value of the member of that name.
fn pruned_member(alloc: Global, reader: &mut Reader<'_>, name: &str) -> Result<Value, Refusal>
    ensures ok { IfOk result (λ v. BeginsLike 126 reader.old reader.new (view v)) }
    ensures shorter { OnOk result (length reader.new < length reader.old) }
{
    if name == "items" {
        pruned_array(alloc, reader)
    } else {
        read_value(alloc, reader, MEMBER_LEVELS)
    }
}

// Reads the members of an object, behind its brace.
fn pruned_members(alloc: Global, reader: &mut Reader<'_>) -> Result<Map<String, Value>, Refusal>
    ensures ok { IfOk result
        (λ m. BeginsMembersLike 126 reader.old reader.new (members_view m.entries)) }
{
    let mut found = Map::new(alloc);
    'members: while let Some(name) = reader.next_key().map_err(|_| Refusal::Syntax)? {
        let member = pruned_member(alloc, reader, name)?;
        put(&mut found, alloc, name, member)?;
    }
    Ok(found)
}

// Reads a text that is an object.
fn pruned_text(alloc: Global, text: &str) -> Result<Value, Refusal>
    ensures ok { IfOk result (λ v. IsLike text.now (view v)) }
{
    let mut scratch = Scratch::new(alloc);
    let mut reader = Reader::new(text, &mut scratch)?;
    let Some(Token::BeginObject) = reader.next() else {
        return Err(Refusal::Syntax);
    };
    let members = pruned_members(alloc, &mut reader)?;
    if reader.next().is_some() {
        return Err(Refusal::Syntax);
    }
    Ok(Value::Object(members))
}

/// Reads bytes that are an object whose member `items`, if it has one, is an array. The value names
/// the zones that the object names: each of those items that names none is null in it. All else is
/// refused, and nothing said of why.
pub(crate) fn pruned_value(alloc: Global, bytes: &[u8]) -> Result<Value, Refusal>
    ensures utf8 { OnOk result (IsUtf8 bytes.now) }
    ensures ok { IfOk result (λ v. IsLike bytes.now (view v)) }
{
    let Ok(text) = simdutf8::compat::from_utf8(bytes) else {
        return Err(Refusal::Syntax);
    };
    pruned_text(alloc, text)
}
