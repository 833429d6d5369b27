// Objects of JSON with many members. `json!` costs a proof the square of their number, since each
// member may leave, and then drops all that are left.
ghost use Rattle.std.specs.Prelude.{◌≡◌, ◌≤◌, IfOk};
ghost use Rattle.serde_json.specs.Data.{no_members, object};
ghost use Rattle.serde_json.specs.View.{view};
ghost use Rattle.cj_json.specs.Named.{put_all};

use serde_json::{Map, Value, put};
use std::alloc::{AllocError, Global};

/// An object with these values under these names.
pub fn object_of<const N: usize>(
    alloc: Global,
    names: &[&str],
    values: [Value; N],
) -> Result<Value, AllocError>
    requires { N ≤ 64 }
    ensures { IfOk result (λ v. view v ≡ object (put_all names.now values.entry no_members)) }
{
    let mut map = Map::new(alloc);
    let mut names = names.iter();
    for value in values {
        if let Some(name) = names.next() {
            put(&mut map, alloc, name, value)?;
        }
    }
    Ok(Value::Object(map))
}
