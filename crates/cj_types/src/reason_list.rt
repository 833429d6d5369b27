ghost use Rattle.std.specs.Prelude.{◌≡◌, [], ◌∷◌, ◌++◌, IfErr, OnOk, OnErr};
ghost use Rattle.cj_base.specs.declared.refusal.Refusal.TheVariants.{OutOfMemory};

use crate::Reason;
use cj_base::{Refusal, Same, TryCopy, same_all};
use std::alloc::Global;
use std::marker::Model;

/// Reasons, which contracts see as a list.
#[derive(Debug)]
pub struct Reasons {
    items: Vec<Reason>,
}

impl Drop for Reasons {
    fn drop(self) {
        let Reasons { items: _ } = self;
    }
}

impl Model for Reasons {
    ghost use Rattle.std.specs.Prelude.{List};
    ghost use Rattle.cj_types.specs.declared.policy.Reason.{Reason};

    ghost Value = { List Reason };

    ghost view = { λ t. t.items.items };
}

impl Reasons {
    /// An empty list.
    pub fn new(alloc: Global) -> Reasons
        ensures { result ≡ [] }
    {
        Reasons {
            items: Vec::new(alloc),
        }
    }

    /// The reasons in their order.
    pub fn as_slice(&self) -> &[Reason]
        ensures { result.now ≡ self.now }
    {
        self.items.as_slice()
    }

    /// Appends a reason; unchanged where there is no memory.
    pub fn push(&mut self, reason: Reason) -> Result<(), Refusal>
        ensures ok { OnOk result (self.new ≡ self.old ++ reason ∷ []) }
        ensures err { OnErr result (self.new ≡ self.old) }
        ensures memory { IfErr result (λ e. e ≡ OutOfMemory) }
    {
        self.items.push(reason).map_err(|_| Refusal::OutOfMemory)
    }
}

impl TryCopy for Reasons {
    fn try_copy(&self, alloc: Global) -> Result<Reasons, Refusal> {
        let items = Vec::from_slice(alloc, self.items.as_slice())?;
        Ok(Reasons { items })
    }
}

impl Same for Reasons {
    fn same(&self, other: &Reasons) -> bool {
        same_all(self.as_slice(), other.as_slice())
    }
}
