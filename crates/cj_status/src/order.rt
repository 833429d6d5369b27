ghost use Rattle.std.specs.Prelude.{◌≡◌, IfErr, OnOk};
ghost use Rattle.cj_base.specs.declared.refusal.Refusal.TheVariants.{OutOfMemory};
ghost use Rattle.cj_status.specs.Order.{in_order};
ghost use Rattle.cj_status.specs.Refs.{ref_cmp, precedes};

use crate::refs::JobRef;
use cj_types::Refusal;
use std::cmp::Ordering;

/// An order of Jobs.
#[derive(Clone, Copy, Debug, PartialEq, Eq)]
pub enum Sorting {
    /// By the bytes of the name.
    ByName,
    /// By creation time, then by the bytes of the name.
    ByAge,
}

/// The order of two Jobs.
pub(crate) fn compare(by: Sorting, a: &JobRef, b: &JobRef) -> Ordering
    ensures { result ≡ ref_cmp by a.now b.now }
{
    let names = a.key.name().cmp(b.key.name());
    match by {
        Sorting::ByName => names,
        Sorting::ByAge => a.created.get().cmp(&b.created.get()).then(names),
    }
}

/// Sorts the Jobs.
pub(crate) fn sort(by: Sorting, items: &mut Vec<JobRef>) -> Result<(), Refusal>
    ensures ok { OnOk result (items.new.items ≡ in_order (precedes by) items.old.items) }
    ensures err { IfErr result (λ e. e ≡ OutOfMemory) }
{
    items.sort_by(|a, b| compare(by, a, b))?;
    Ok(())
}
