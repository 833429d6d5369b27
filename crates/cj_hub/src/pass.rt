ghost use Rattle.std.specs.Prelude.{◌≡◌};
ghost use Rattle.cj_hub.specs.Receipts.{caller_of};

use crate::receipt::Receipt;
use cj_calls::{Caller, Role};
use std::marker::Model;

/// The token of a caller, with the receipts that it got, in order. It can't be copied.
///
/// Contracts see its number, its role and its receipts.
pub struct Pass {
    pub(crate) number: u64,
    pub(crate) role: Role,
    pub(crate) receipts: Vec<Receipt>,
}

impl Model for Pass {
    ghost use Rattle.cj_hub.specs.Receipts.{PassView};

    ghost Value = { PassView };

    ghost view = { λ p. record { number = p.number; role = p.role; receipts = p.receipts.items } };
}

impl Drop for Pass {
    fn drop(self) {
        let Pass {
            number: _,
            role: _,
            receipts: _,
        } = self;
    }
}

impl Pass {
    /// Who calls through this pass.
    pub fn caller(&self) -> Caller
        ensures { result ≡ caller_of self.now }
    {
        Caller {
            number: self.number,
            role: self.role,
        }
    }

    /// The receipts of the calls made through it, in order.
    pub fn receipts(&self) -> &[Receipt]
        ensures { result.now ≡ self.now.receipts }
    {
        self.receipts.as_slice()
    }
}
