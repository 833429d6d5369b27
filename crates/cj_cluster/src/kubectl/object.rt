// The object that an item is, as far as its value says.
ghost use Rattle.std.specs.Prelude.{◌≡◌, IfOk, IfErr, option_map};
ghost use Rattle.serde_json.specs.View.{view};
ghost use Rattle.cj_base.specs.declared.refusal.Refusal.TheVariants.{OutOfMemory};
ghost use Rattle.cj_cluster.specs.kubectl.Named as told;

use crate::kubectl::lists::text_at;
use crate::kubectl::named::{meta_text, namespace_of};
use cj_types::{Refusal, Text};
use serde_json::Value;
use std::alloc::Global;

/// An object by its kind, its namespace and its name, as an item says them that may be no such
/// object.
#[derive(Debug, Drop)]
pub struct ObjectNamed {
    pub kind: Text,
    /// Its namespace, `default` where none is written.
    pub namespace: Text,
    pub name: Text,
}

fn object_with(
    alloc: Global,
    value: &Value,
    kind: &str,
    name: Option<&str>,
) -> Result<Option<ObjectNamed>, Refusal>
    ensures ok { IfOk result (λ n. n
        ≡ told.object_with (view value.now) kind.now (option_map (λ s. s.now) name.entry)) }
    ensures err { IfErr result (λ e. e ≡ OutOfMemory) }
{
    let Some(name) = name else {
        return Ok(None);
    };
    Ok(Some(ObjectNamed {
        kind: Text::new(alloc, kind)?,
        namespace: Text::new(alloc, namespace_of(value))?,
        name: Text::new(alloc, name)?,
    }))
}

/// Kind, namespace and name of an object, where its kind and its name are texts.
pub(crate) fn object_named(alloc: Global, value: &Value) -> Result<Option<ObjectNamed>, Refusal>
    ensures ok { IfOk result (λ n. n ≡ told.object_named (view value.now)) }
    ensures err { IfErr result (λ e. e ≡ OutOfMemory) }
{
    match text_at(value, "kind") {
        Some(kind) => object_with(alloc, value, kind, meta_text(value, "name")),
        None => Ok(None),
    }
}
