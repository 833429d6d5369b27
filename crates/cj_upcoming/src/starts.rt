ghost use Rattle.std.specs.Prelude.{◌≡◌, IfOk, IfErr};
ghost use Rattle.std.specs.BTreeSet.{IsOrdered};
ghost use Rattle.cj_upcoming.specs.Starts.{start_cmp};
ghost use Rattle.cj_upcoming.specs.declared.fault.StartsFault.TheVariants.{Memory};

use crate::fault::StartsFault;
use crate::start::Start;
use std::alloc::Global;
use std::collections::BTreeSet;
use std::marker::Model;

/// Starts in their order. Contracts see their list.
#[derive(Debug, Drop)]
pub struct Starts {
    items: Vec<Start>,
}

impl Model for Starts {
    ghost use Rattle.std.specs.Prelude.{List};
    ghost use Rattle.cj_upcoming.specs.declared.start.Start.{Start};

    ghost Value = { List Start };

    ghost view = { λ s. s.items.items };
}

impl Starts {
    /// The starts in their order.
    pub fn as_slice(&self) -> &[Start]
        ensures { result.now ≡ self.now }
    {
        self.items.as_slice()
    }

    /// The starts of the set.
    pub(crate) fn of_set(alloc: Global, mut starts: BTreeSet<Start>) -> Result<Starts, StartsFault>
        ensures ok { IfOk result (λ s. s ≡ starts.keys) }
        ensures ordered { IsOrdered start_cmp starts }
        ensures memory { IfErr result (λ e. e ≡ Memory) }
    {
        let mut items = Vec::with_capacity(alloc, starts.len())?;
        while let Some(start) = starts.pop_first() {
            items.push(start).map_err(|_| StartsFault::Memory)?;
        }
        Ok(Starts { items })
    }
}
