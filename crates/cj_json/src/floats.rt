ghost use Rattle.std.specs.Prelude.{◌≡◌};
ghost use Rattle.serde_json.specs.View.{view, items_view, members_view};
ghost use Rattle.serde_json.specs.Written.{has_float as number_apart, items_have_float as items_apart, members_have_float as members_apart};

use serde_json::{Map, Value};

/// Whether a number in the value is neither an i64 nor a u64.
#[cycle(floats)]
pub fn has_float(value: &Value) -> bool
    ensures { result ≡ number_apart (view value.now) }
{
    match value {
        Value::Null => false,
        Value::Bool(_) => false,
        Value::Number(n) => n.is_f64(),
        Value::String(_) => false,
        Value::Array(items) => items_have_float(items),
        Value::Object(members) => members_have_float(members),
    }
}

#[cycle(floats)]
fn items_have_float(items: &Vec<Value>) -> bool
    ensures { result ≡ items_apart (items_view items.now.items) }
{
    for item in items {
        if has_float(item) {
            return true;
        }
    }
    false
}

#[cycle(floats)]
fn members_have_float(members: &Map<String, Value>) -> bool
    ensures { result ≡ members_apart (members_view members.now.entries) }
{
    for (_key, member) in members.iter() {
        if has_float(member) {
            return true;
        }
    }
    false
}
