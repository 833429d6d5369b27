ghost use Rattle.std.specs.Prelude.{◌≡◌, [], ◌∷◌, ◌++◌, IfErr, OnOk, OnErr};
ghost use Rattle.cj_base.specs.declared.refusal.Refusal.TheVariants.{OutOfMemory};

use crate::ObjectName;
use cj_base::{Refusal, Same, TryCopy, copy_all, same_all};
use std::alloc::Global;
use std::marker::Model;

/// Names of objects, each well formed by its type. Contracts see a list of texts.
#[derive(Debug)]
pub struct Names {
    items: Vec<ObjectName>,
}

impl Drop for Names {
    fn drop(self) {
        let Names { items: _ } = self;
    }
}

impl Model for Names {
    ghost use Rattle.std.specs.Prelude.{ℕ, List};

    ghost Value = { List (List ℕ) };

    ghost view = { λ t. t.items.items };
}

impl Names {
    /// An empty list.
    pub fn new(alloc: Global) -> Names
        ensures { result ≡ [] }
    {
        Names {
            items: Vec::new(alloc),
        }
    }

    /// The names in their order.
    pub fn as_slice(&self) -> &[ObjectName]
        ensures { result.now ≡ self.now }
    {
        self.items.as_slice()
    }

    /// Appends a name; unchanged where there is no memory.
    pub fn push(&mut self, name: ObjectName) -> Result<(), Refusal>
        ensures ok { OnOk result (self.new ≡ self.old ++ name ∷ []) }
        ensures err { OnErr result (self.new ≡ self.old) }
        ensures memory { IfErr result (λ e. e ≡ OutOfMemory) }
    {
        self.items.push(name).map_err(|_| Refusal::OutOfMemory)
    }
}

impl TryCopy for Names {
    fn try_copy(&self, alloc: Global) -> Result<Names, Refusal> {
        Ok(Names {
            items: copy_all(alloc, self.items.as_slice())?,
        })
    }
}

impl Same for Names {
    fn same(&self, other: &Names) -> bool {
        same_all(self.as_slice(), other.as_slice())
    }
}
