// The first number with a fraction.
ghost use Rattle.std.specs.Prelude.{◌≡◌, ◌++◌, OnOk, IfOk, IfErr, string_bytes};
ghost use Rattle.cj_base.specs.declared.refusal.Refusal.TheVariants.{OutOfMemory};
ghost use Rattle.serde_json.specs.View.{view, items_view, members_view};
ghost use Rattle.cj_scenario.specs.detection.Fractions.{fraction_path, fraction_words, items_path, member_step, members_path};

use cj_json::has_float;
use cj_types::Refusal;
use serde_json::{Map, Value};
use std::alloc::{AllocError, Global};

fn push_step(text: &mut String, key: &str) -> Result<(), AllocError>
    ensures { OnOk result (string_bytes text.new ≡ string_bytes text.old ++ member_step key.now) }
{
    text.push_str(".")?;
    text.push_str(key)
}

#[cycle(fractions)]
fn push_path(text: &mut String, value: &Value) -> Result<(), AllocError>
    ensures { OnOk result (string_bytes text.new
        ≡ string_bytes text.old ++ fraction_path (view value.now)) }
{
    match value {
        Value::Null => Ok(()),
        Value::Bool(_) => Ok(()),
        Value::Number(_) => Ok(()),
        Value::String(_) => Ok(()),
        Value::Array(items) => push_in_items(text, items),
        Value::Object(members) => push_in_members(text, members),
    }
}

#[cycle(fractions)]
fn push_in_items(text: &mut String, items: &Vec<Value>) -> Result<(), AllocError>
    ensures { OnOk result (string_bytes text.new
        ≡ string_bytes text.old ++ items_path (items_view items.now.items)) }
{
    for item in items {
        if has_float(item) {
            text.push_str("[]")?;
            return push_path(text, item);
        }
    }
    Ok(())
}

#[cycle(fractions)]
fn push_in_members(text: &mut String, members: &Map<String, Value>) -> Result<(), AllocError>
    ensures { OnOk result (string_bytes text.new
        ≡ string_bytes text.old ++ members_path (members_view members.now.entries)) }
{
    for (key, member) in members.iter() {
        if has_float(member) {
            push_step(text, key.as_str())?;
            return push_path(text, member);
        }
    }
    Ok(())
}

/// A line that says where the first number with a fraction stands, if there is one.
pub(crate) fn fraction_words(alloc: Global, value: &Value) -> Result<String, Refusal>
    ensures ok { IfOk result (λ s. string_bytes s ≡ fraction_words (view value.now)) }
    ensures err { IfErr result (λ e. e ≡ OutOfMemory) }
{
    let mut text = String::new(alloc);
    if has_float(value) {
        text.push_str("$")?;
        push_path(&mut text, value)?;
        text.push_str(": a number with a fraction, or of more than 64 bits\n")?;
    }
    Ok(text)
}
