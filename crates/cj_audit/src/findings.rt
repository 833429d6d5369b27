ghost use Rattle.std.specs.Prelude.{◌≡◌, IfOk, IfErr, filter};
ghost use Rattle.std.specs.BTreeSet.{IsOrdered};
ghost use Rattle.cj_base.specs.declared.refusal.Refusal.TheVariants.{OutOfMemory};
ghost use Rattle.cj_audit.specs.Order.{finding_cmp};
ghost use Rattle.cj_audit.specs.Since.{is_since};

use crate::finding::Finding;
use crate::kind::FindingKind;
use cj_types::{Refusal, Seconds};
use std::alloc::Global;
use std::collections::BTreeSet;
use std::marker::Model;

fn is_since(first: Seconds, finding: &Finding) -> bool
    ensures { result ≡ is_since first finding.now }
{
    let is_stuck = match finding.kind {
        FindingKind::Stuck => true,
        FindingKind::Twice | FindingKind::Beside(_) | FindingKind::Undue => false,
        FindingKind::Early | FindingKind::Missing | FindingKind::Stray => false,
    };
    let is_later = first.get() <= finding.time.get();
    is_stuck || is_later
}

/// Findings in their order. Contracts see their list.
#[derive(Debug, Drop)]
pub struct Findings {
    items: Vec<Finding>,
}

impl Model for Findings {
    ghost use Rattle.std.specs.Prelude.{List};
    ghost use Rattle.cj_audit.specs.declared.finding.Finding.{Finding};

    ghost Value = { List Finding };

    ghost view = { λ f. f.items.items };
}

impl Findings {
    /// The findings in their order.
    pub fn as_slice(&self) -> &[Finding]
        ensures { result.now ≡ self.now }
    {
        self.items.as_slice()
    }

    /// The findings whose time isn't before then, and those of CronJobs that are stuck.
    pub fn since(self, first: Seconds) -> Findings
        ensures { result ≡ filter (is_since first) self }
    {
        let mut items = self.items;
        items.retain(|finding| is_since(first, finding));
        Findings { items }
    }

    /// The findings of the set.
    pub(crate) fn of_set(alloc: Global, mut notes: BTreeSet<Finding>) -> Result<Findings, Refusal>
        ensures ok { IfOk result (λ f. f ≡ notes.keys) }
        ensures ordered { IsOrdered finding_cmp notes }
        ensures memory { IfErr result (λ e. e ≡ OutOfMemory) }
    {
        let mut items = Vec::with_capacity(alloc, notes.len())?;
        while let Some(finding) = notes.pop_first() {
            items.push(finding).map_err(|_| Refusal::OutOfMemory)?;
        }
        Ok(Findings { items })
    }
}
