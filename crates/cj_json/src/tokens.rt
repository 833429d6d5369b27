// One value of a text, from its tokens.
ghost use Rattle.std.specs.Prelude.{◌≡◌, ◌<◌, ◌≤◌, length, None, Some, IfErr, IfOk, IfSome, OnOk, option_map};
ghost use Rattle.json.specs.Print.{IsNumber};
ghost use Rattle.serde_json.specs.Data.{depth, items_depth, members_depth, number, unsigned};
ghost use Rattle.serde_json.specs.Read.{number_of};
ghost use Rattle.serde_json.specs.View.{items_view, members_view, view};
ghost use Rattle.cj_json.specs.Tokens.{Begins, BeginsItems, BeginsMembers, BeginsNoItems, BeginsNoMembers, BeginsNone, IsUnread};

use cj_base::Refusal;
use itoa::Buffer;
use json::{Reader, Token};
use serde_json::{Map, Value, push, put};
use std::alloc::Global;

// The number that a text writes, where that is what the number is printed as.
fn plain_number(text: &str) -> Option<u64>
    ensures { IfSome result (λ n. number_of text.now ≡ Some (unsigned n)) }
{
    let number = text.parse::<u64>().ok()?;
    let mut buffer = Buffer::new();
    if buffer.format(number) == text {
        Some(number)
    } else {
        None
    }
}

// The value of a number, which is refused where it is out of range. (To read a text as a whole
// takes longer, whatever its length.)
fn number_value(alloc: Global, text: &str) -> Result<Value, Refusal>
    requires number { IsNumber text.now }
    ensures ok { IfOk result (λ v. option_map number (number_of text.now) ≡ Some (view v)) }
    ensures flat { IfOk result (λ v. depth (view v) ≡ 0) }
    ensures err { IfErr result (IsUnread (number_of text.now ≡ None)) }
{
    if let Some(number) = plain_number(text) {
        return Ok(Value::from(number));
    }
    match Value::from_str(alloc, text) {
        Ok(value) => Ok(value),
        Err(error) if error.is_memory() => Err(Refusal::OutOfMemory),
        Err(_) => Err(Refusal::Syntax),
    }
}

/// Reads the value that the tokens to come begin with, which nests at most so many levels. `Syntax`
/// where they begin with none; the only other error is want of memory. Behind an error nothing is
/// said of where the reader stands.
#[cycle(read_value)]
pub fn read_value(alloc: Global, reader: &mut Reader<'_>, levels: usize) -> Result<Value, Refusal>
    ensures ok { IfOk result (λ v. Begins levels reader.old reader.new (view v)) }
    ensures flat { IfOk result (λ v. depth (view v) ≤ levels) }
    ensures shorter { OnOk result (length reader.new < length reader.old) }
    ensures err { IfErr result (IsUnread (BeginsNone levels reader.old)) }
{
    let token = reader.next().ok_or(Refusal::Syntax)?;
    match token {
        Token::String(text) => Ok(Value::String(String::from_str(alloc, text)?)),
        Token::Number(text) => number_value(alloc, text),
        Token::Bool(b) => Ok(Value::Bool(b)),
        Token::Null => Ok(Value::Null),
        Token::EndObject | Token::EndArray | Token::Key(_) | Token::Bad => Err(Refusal::Syntax),
        Token::BeginArray => {
            if levels == 0 {
                return Err(Refusal::Syntax);
            }
            Ok(Value::Array(read_items(alloc, reader, levels - 1)?))
        }
        Token::BeginObject => {
            if levels == 0 {
                return Err(Refusal::Syntax);
            }
            Ok(Value::Object(read_members(alloc, reader, levels - 1)?))
        }
    }
}

// The items of an array, behind its bracket.
#[cycle(read_value)]
fn read_items(alloc: Global, reader: &mut Reader<'_>, levels: usize) -> Result<Vec<Value>, Refusal>
    ensures ok { IfOk result
        (λ v. BeginsItems levels reader.old reader.new (items_view v.items)) }
    ensures flat { IfOk result (λ v. items_depth (items_view v.items) ≤ levels) }
    ensures shorter { OnOk result (length reader.new < length reader.old) }
    ensures err { IfErr result (IsUnread (BeginsNoItems levels reader.old)) }
{
    let mut found = Vec::new(alloc);
    'items: while !reader.take_end_array() {
        let item = read_value(alloc, reader, levels)?;
        push(&mut found, item)?;
    }
    Ok(found)
}

// The members of an object, behind its brace.
#[cycle(read_value)]
fn read_members(
    alloc: Global,
    reader: &mut Reader<'_>,
    levels: usize,
) -> Result<Map<String, Value>, Refusal>
    ensures ok { IfOk result
        (λ m. BeginsMembers levels reader.old reader.new (members_view m.entries)) }
    ensures flat { IfOk result (λ m. members_depth (members_view m.entries) ≤ levels) }
    ensures shorter { OnOk result (length reader.new < length reader.old) }
    ensures err { IfErr result (IsUnread (BeginsNoMembers levels reader.old)) }
{
    let mut found = Map::new(alloc);
    'members: while let Some(name) = reader.next_key().map_err(|_| Refusal::Syntax)? {
        let member = read_value(alloc, reader, levels)?;
        put(&mut found, alloc, name, member)?;
    }
    Ok(found)
}
