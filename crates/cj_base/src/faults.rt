ghost use Rattle.std.specs.Prelude.{◌≡◌, [], ◌∷◌, ◌++◌, IfOk, OnOk, OnErr};

use crate::{Cause, Field, Refusal, TryCopy};
use std::alloc::{AllocError, Global};
use std::marker::Model;
use thiserror::Error;

/// A field and why it is refused.
#[derive(Clone, Copy, Debug, PartialEq, Eq, Error)]
#[error("{field} {cause}")]
pub struct FieldFault {
    pub field: Field,
    pub cause: Cause,
}

/// The faults of a manifest or a call, in the order of the manifest's table. Contracts see the
/// list.
#[derive(Debug)]
pub struct FieldFaults {
    items: Vec<FieldFault>,
}

impl Drop for FieldFaults {
    fn drop(self) {
        let FieldFaults { items: _ } = self;
    }
}

impl Model for FieldFaults {
    ghost use Rattle.std.specs.Prelude.{List};
    ghost use Rattle.cj_base.specs.declared.faults.FieldFault.{FieldFault};

    ghost Value = { List FieldFault };

    ghost view = { λ t. t.items.items };
}

impl FieldFaults {
    /// An empty list.
    pub fn new(alloc: Global) -> FieldFaults
        ensures { result ≡ [] }
    {
        FieldFaults {
            items: Vec::new(alloc),
        }
    }

    /// A list of one fault.
    pub fn one(alloc: Global, fault: FieldFault) -> Result<FieldFaults, AllocError>
        ensures { IfOk result (λ f. f ≡ fault ∷ []) }
    {
        let mut faults = FieldFaults::new(alloc);
        faults.push(fault)?;
        Ok(faults)
    }

    /// The faults in their order.
    pub fn as_slice(&self) -> &[FieldFault]
        ensures { result.now ≡ self.now }
    {
        self.items.as_slice()
    }

    /// Appends a fault; unchanged where there is no memory.
    pub fn push(&mut self, fault: FieldFault) -> Result<(), AllocError>
        ensures ok { OnOk result (self.new ≡ self.old ++ fault ∷ []) }
        ensures err { OnErr result (self.new ≡ self.old) }
    {
        self.items.push(fault)?;
        Ok(())
    }
}

impl TryCopy for FieldFaults {
    fn try_copy(&self, alloc: Global) -> Result<FieldFaults, Refusal> {
        let items = Vec::from_slice(alloc, self.items.as_slice())?;
        Ok(FieldFaults { items })
    }
}
