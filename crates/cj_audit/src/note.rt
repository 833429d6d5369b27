ghost use Rattle.std.specs.Prelude.{◌≡◌, OnOk, IfErr};
ghost use Rattle.cj_base.specs.declared.refusal.Refusal.TheVariants.{OutOfMemory};
ghost use Rattle.cj_audit.specs.Notes.{Notes};

use crate::finding::Finding;
use cj_types::Refusal;
use std::collections::BTreeSet;

/// The set with the finding.
pub(crate) fn note(notes: &mut BTreeSet<Finding>, finding: Finding) -> Result<(), Refusal>
    ensures ok { OnOk result (Notes (λ f. f ≡ finding) notes.old notes.new) }
    ensures memory { IfErr result (λ e. e ≡ OutOfMemory) }
{
    match notes.insert(finding) {
        Ok(_) => Ok(()),
        Err(_) => Err(Refusal::OutOfMemory),
    }
}
