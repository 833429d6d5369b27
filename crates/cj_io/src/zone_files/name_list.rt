ghost use Rattle.std.specs.Prelude.{◌≡◌, [], ◌∷◌, ◌++◌, IfErr, OnOk, OnErr};
ghost use Rattle.cj_base.specs.declared.refusal.Refusal.TheVariants.{OutOfMemory};

use cj_base::{Refusal, Text};
use std::alloc::Global;
use std::marker::Model;

/// Names of zones as they were found, which contracts see as a list of texts.
#[derive(Debug, Drop)]
pub struct ZoneNames {
    items: Vec<Text>,
}

impl Model for ZoneNames {
    ghost use Rattle.std.specs.Prelude.{ℕ, List};

    ghost Value = { List (List ℕ) };

    ghost view = { λ t. t.items.items };
}

impl ZoneNames {
    /// No name.
    pub fn new(alloc: Global) -> ZoneNames
        ensures { result ≡ [] }
    {
        ZoneNames {
            items: Vec::new(alloc),
        }
    }

    /// The names in their order.
    pub fn as_slice(&self) -> &[Text]
        ensures { result.now ≡ self.now }
    {
        self.items.as_slice()
    }

    /// One name more, at the end; unchanged where there is no memory.
    pub fn push(&mut self, name: Text) -> Result<(), Refusal>
        ensures ok { OnOk result (self.new ≡ self.old ++ name ∷ []) }
        ensures err { OnErr result (self.new ≡ self.old) }
        ensures memory { IfErr result (λ e. e ≡ OutOfMemory) }
    {
        self.items.push(name).map_err(|_| Refusal::OutOfMemory)
    }
}
