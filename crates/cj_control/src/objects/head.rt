// What an API server gives each object.
ghost use Rattle.std.specs.Prelude.{◌≡◌, ◌≢◌, Ok, Err, IfOk, IfErr};
ghost use Rattle.serde_json.specs.View.{view};
ghost use Rattle.cj_base.specs.declared.refusal.Refusal.TheVariants.{OutOfMemory};
ghost use Rattle.cj_control.specs.Objects.{head};

use crate::objects::members::{meta, required_text};
use cj_base::{Field, Refusal, Text, TryCopy};
use serde_json::Value;
use std::alloc::Global;

/// What an API server gives each object.
#[derive(Drop)]
pub struct Head {
    pub namespace: Text,
    pub name: Text,
    pub uid: Text,
    /// `metadata.resourceVersion`.
    pub version: Text,
}

impl TryCopy for Head {
    fn try_copy(&self, alloc: Global) -> Result<Head, Refusal> {
        Ok(Head {
            namespace: self.namespace.try_copy(alloc)?,
            name: self.name.try_copy(alloc)?,
            uid: self.uid.try_copy(alloc)?,
            version: self.version.try_copy(alloc)?,
        })
    }
}

/// The head of an object, or its field at fault.
pub fn read_head(alloc: Global, value: &Value) -> Result<Head, Refusal>
    ensures ok { IfOk result (λ h. head (view value.now) ≡ Ok h) }
    ensures err { IfErr result (λ e. e ≢ OutOfMemory → head (view value.now) ≡ Err e) }
{
    let namespace = required_text(alloc, Field::Namespace, meta(value, "namespace"))?;
    let name = required_text(alloc, Field::Name, meta(value, "name"))?;
    let uid = required_text(alloc, Field::Uid, meta(value, "uid"))?;
    let version = required_text(
        alloc,
        Field::ResourceVersion,
        meta(value, "resourceVersion"),
    )?;
    Ok(Head {
        namespace,
        name,
        uid,
        version,
    })
}
