// A mapping and a list that are being read get one more value.
ghost use Rattle.std.specs.Prelude.{◌≡◌, ◌≤◌, max, OnOk};
ghost use Rattle.serde_json.specs.Data.{depth, items_depth, members_depth};
ghost use Rattle.serde_json.specs.View.{view, items_view, members_view};

use crate::fault::Stop;
use serde_json::{Map, Value};

pub(crate) fn put_member(
    members: &mut Map<String, Value>,
    key: String,
    value: Value,
) -> Result<(), Stop>
    ensures nests { OnOk result (members_depth (members_view members.new.entries)
        ≤ max (depth (view value)) (members_depth (members_view members.old.entries))) }
{
    drop(members.insert(key, value)?);
    Ok(())
}

pub(crate) fn push_item(items: &mut Vec<Value>, value: Value) -> Result<(), Stop>
    ensures nests { OnOk result (items_depth (items_view items.new.items)
        ≤ max (depth (view value)) (items_depth (items_view items.old.items))) }
{
    items.push(value)?;
    Ok(())
}
