ghost use Rattle.std.specs.Prelude.{◌≡◌, ◌≢◌, IfOk, IfErr, IsTrue, Ok, Err};
ghost use Rattle.cj_types.specs.Names.{is_name};
ghost use Rattle.cj_types.specs.Keys.{new_name};
ghost use Rattle.cj_base.specs.declared.refusal.Refusal.TheVariants.{OutOfMemory};

use crate::{Key, name_cause};
use cj_base::{Field, FieldFault, FieldFaults, Refusal, Same, Text, TryCopy};
use std::alloc::Global;
use std::marker::Model;

/// A name of an object: a DNS subdomain of at most 63 characters. Contracts see its bytes.
#[derive(Debug)]
pub struct ObjectName {
    text: Text,
}

impl Drop for ObjectName {
    fn drop(self) {
        let ObjectName { text } = self;
        drop(text);
    }
}

impl Model for ObjectName {
    ghost use Rattle.std.specs.Prelude.{ℕ, List, IsTrue};
    ghost use Rattle.cj_types.specs.Names.{is_name};

    ghost Value = { List ℕ };

    ghost view = { λ n. n.text };

    ghost invariant = { λ n. IsTrue (is_name n.text) };
}

impl ObjectName {
    /// The name of this text, or `Invalid` with the fault of `metadata.name`: `TooLong` for more
    /// than 63 characters, else `Format`.
    pub fn new(alloc: Global, text: &str) -> Result<ObjectName, Refusal>
        ensures ok { IfOk result (λ n. new_name text.now ≡ Ok n) }
        ensures err { IfErr result (λ e. e ≢ OutOfMemory → new_name text.now ≡ Err e) }
    {
        if let Some(cause) = name_cause(63, text) {
            let field = Field::Name;
            let faults = FieldFaults::one(alloc, FieldFault { field, cause })?;
            return Err(Refusal::Invalid(faults));
        }
        let text = Text::new(alloc, text)?;
        Ok(ObjectName { text })
    }

    /// The name in a key.
    pub fn of_key(alloc: Global, key: &Key) -> Result<ObjectName, Refusal>
        ensures ok { IfOk result (λ n. n ≡ key.now.name) }
        ensures err { IfErr result (λ e. e ≡ OutOfMemory) }
    {
        let text = Text::new(alloc, key.name())?;
        Ok(ObjectName { text })
    }

    /// The bytes of the name.
    pub fn as_str(&self) -> &str
        ensures value { result.now ≡ self.now }
        ensures well_formed { IsTrue (is_name self.now) }
    {
        self.text.as_str()
    }
}

impl TryCopy for ObjectName {
    fn try_copy(&self, alloc: Global) -> Result<ObjectName, Refusal> {
        let text = self.text.try_copy(alloc)?;
        Ok(ObjectName { text })
    }
}

impl Same for ObjectName {
    fn same(&self, other: &ObjectName) -> bool {
        self.text.same(&other.text)
    }
}
