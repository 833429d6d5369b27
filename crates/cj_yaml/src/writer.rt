// Values in block style, as `kubectl get -o yaml` prints them.
ghost use Rattle.std.specs.Prelude.{◌≡◌, ◌+◌, ◌≤◌, ◌++◌, IfOk, OnOk, string_bytes, true};
ghost use Rattle.cj_yaml.specs.BlockStyle.{GrowsBy, IsBlock, IsEntry, IsItem, IsLeaf, IsList, IsMapping, IsMember, front, is_flow, is_leaf};
ghost use Rattle.serde_json.specs.Data.{depth, items_depth, members_depth, string};
ghost use Rattle.serde_json.specs.Read.{max_depth};
ghost use Rattle.serde_json.specs.View.{items_view, members_view, view};

use crate::escape::push_text;
use crate::literal::{is_literal, push_indent, push_literal};
use crate::write_fault::WriteFault;
use serde_json::{Map, Value};
use std::alloc::{AllocError, Global};

// The text of a value: one document in block style, members in the order of their keys, two
// spaces a level, a list at the indentation of its key. A text is plain where it reads back so,
// literal where it has several lines, and else in double quotes.
#[tactic(auto, using(crate::proofs::Blocks::mapping_alone, crate::proofs::Blocks::list_alone, crate::proofs::Blocks::leaf_alone, crate::proofs::Blocks::no_members_leaf, crate::proofs::Blocks::no_items_leaf))]
pub(crate) fn write_block(alloc: Global, value: &Value) -> Result<String, WriteFault>
    requires { depth (view value.now) ≤ max_depth }
    ensures { IfOk result (λ text. IsBlock (view value.now) (string_bytes text)) }
{
    let mut out = String::new(alloc);
    match value {
        Value::Object(members) if !members.is_empty() => {
            write_members(alloc, &mut out, members, 0, false)?;
        }
        Value::Array(items) if !items.as_slice().is_empty() => write_items(
            alloc, &mut out, items, 0, false,
        )?,
        _ => write_leaf(alloc, &mut out, value, 2)?,
    }
    Ok(out)
}

// The column two further in.
fn deeper(column: usize) -> Result<usize, WriteFault>
    ensures { IfOk result (λ inner. inner ≡ column + 2) }
{
    column.checked_add(2).ok_or(WriteFault::Nested)
}

// Appends what is in front of an entry at this column, which may stand behind a `- `.
fn push_front(
    alloc: Global,
    out: &mut String,
    column: usize,
    compact: bool,
) -> Result<(), AllocError>
    ensures { OnOk result (string_bytes out.new ≡ string_bytes out.old ++ front column compact) }
{
    if compact {
        return Ok(());
    }
    push_indent(alloc, out, column)
}

// Appends the members at this column. The first one is behind a `- `, if `compact`.
#[cycle(writing)]
fn write_members(
    alloc: Global,
    out: &mut String,
    members: &Map<String, Value>,
    column: usize,
    compact: bool,
) -> Result<(), WriteFault>
    requires { members_depth (members_view members.now.entries) ≤ max_depth }
    ensures { OnOk result
        (GrowsBy (IsMapping column compact (members_view members.now.entries))
        (string_bytes out.old) (string_bytes out.new)) }
{
    let mut behind = compact;
    for (key, member) in members.iter() {
        write_entry(alloc, out, key.as_str(), member, column, behind)?;
        behind = false;
    }
    Ok(())
}

// Appends a member at this column.
#[cycle(writing)]
#[tactic(auto, using(crate::proofs::Blocks::entry_grows))]
fn write_entry(
    alloc: Global,
    out: &mut String,
    key: &str,
    member: &Value,
    column: usize,
    compact: bool,
) -> Result<(), WriteFault>
    requires { depth (view member.now) ≤ max_depth }
    ensures { OnOk result (GrowsBy (IsEntry column compact key.now (view member.now))
        (string_bytes out.old) (string_bytes out.new)) }
{
    push_front(alloc, out, column, compact)?;
    push_text(alloc, out, key)?;
    out.push_str(":")?;
    write_member(alloc, out, member, column)
}

// Appends the value of a member, behind the `:` of a key at this column.
#[cycle(writing)]
#[tactic(auto, using(crate::proofs::Blocks::mapping_below, crate::proofs::Blocks::list_below, crate::proofs::Blocks::leaf_behind, crate::proofs::Blocks::no_members_leaf, crate::proofs::Blocks::no_items_leaf))]
fn write_member(
    alloc: Global,
    out: &mut String,
    value: &Value,
    column: usize,
) -> Result<(), WriteFault>
    requires { depth (view value.now) ≤ max_depth }
    ensures { OnOk result (GrowsBy (IsMember column (view value.now))
        (string_bytes out.old) (string_bytes out.new)) }
{
    match value {
        Value::Object(members) if !members.is_empty() => {
            out.push_str("\n")?;
            write_members(alloc, out, members, deeper(column)?, false)
        }
        Value::Array(items) if !items.as_slice().is_empty() => {
            out.push_str("\n")?;
            write_items(alloc, out, items, column, false)
        }
        _ => {
            out.push_str(" ")?;
            write_leaf(alloc, out, value, deeper(column)?)
        }
    }
}

// Appends the items at this column. The first one is behind a `- `, if `compact`.
#[cycle(writing)]
fn write_items(
    alloc: Global,
    out: &mut String,
    items: &Vec<Value>,
    column: usize,
    compact: bool,
) -> Result<(), WriteFault>
    requires { items_depth (items_view items.now.items) ≤ max_depth }
    ensures { OnOk result (GrowsBy (IsList column compact (items_view items.now.items))
        (string_bytes out.old) (string_bytes out.new)) }
{
    let inner = deeper(column)?;
    let mut behind = compact;
    for item in items {
        push_front(alloc, out, column, behind)?;
        out.push_str("- ")?;
        write_item(alloc, out, item, inner)?;
        behind = false;
    }
    Ok(())
}

// Appends an item, behind its `- `.
#[cycle(writing)]
#[tactic(auto, using(crate::proofs::Blocks::mapping_here, crate::proofs::Blocks::list_here, crate::proofs::Blocks::leaf_here, crate::proofs::Blocks::no_members_leaf, crate::proofs::Blocks::no_items_leaf))]
fn write_item(
    alloc: Global,
    out: &mut String,
    item: &Value,
    column: usize,
) -> Result<(), WriteFault>
    requires { depth (view item.now) ≤ max_depth }
    ensures { OnOk result (GrowsBy (IsItem column (view item.now))
        (string_bytes out.old) (string_bytes out.new)) }
{
    match item {
        Value::Object(members) if !members.is_empty() => {
            write_members(alloc, out, members, column, true)
        }
        Value::Array(items) if !items.as_slice().is_empty() => write_items(
            alloc, out, items, column, true,
        ),
        _ => write_leaf(alloc, out, item, column),
    }
}

// Appends a text, or a value that has no lines, and ends the line. The lines of a literal text are
// at this column.
fn write_leaf(
    alloc: Global,
    out: &mut String,
    value: &Value,
    column: usize,
) -> Result<(), WriteFault>
    requires nests { depth (view value.now) ≤ max_depth }
    requires leaf { is_leaf (view value.now) ≡ true }
    ensures { OnOk result (GrowsBy (IsLeaf column (view value.now))
        (string_bytes out.old) (string_bytes out.new)) }
{
    match value {
        Value::String(text) => write_text(alloc, out, text.as_str(), column),
        _ => write_flow(alloc, out, value, column),
    }
}

// Appends a text, likewise.
#[tactic(auto, using(crate::proofs::Blocks::literal_grows, crate::proofs::Blocks::line_grows))]
fn write_text(alloc: Global, out: &mut String, text: &str, column: usize) -> Result<(), WriteFault>
    ensures { OnOk result (GrowsBy (IsLeaf column (string text.now))
        (string_bytes out.old) (string_bytes out.new)) }
{
    if is_literal(text) {
        return push_literal(alloc, out, text, column);
    }
    push_text(alloc, out, text)?;
    Ok(out.push_str("\n")?)
}

// Appends a value that has no lines as JSON has it, likewise.
#[tactic(auto, using(crate::proofs::Blocks::flow_grows))]
fn write_flow(
    alloc: Global,
    out: &mut String,
    value: &Value,
    column: usize,
) -> Result<(), WriteFault>
    requires nests { depth (view value.now) ≤ max_depth }
    requires flow { is_flow (view value.now) ≡ true }
    ensures { OnOk result (GrowsBy (IsLeaf column (view value.now))
        (string_bytes out.old) (string_bytes out.new)) }
{
    let text = value.to_string(alloc)?;
    out.push_str(text.as_str())?;
    Ok(out.push_str("\n")?)
}
