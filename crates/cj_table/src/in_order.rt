ghost use Rattle.std.specs.Prelude.{◌≡◌, IfOk, IfErr, map};
ghost use Rattle.std.specs.Map.Iter.{deref_pair};
ghost use Rattle.std.specs.FinMap as finite;
ghost use Rattle.cj_base.specs.declared.refusal.Refusal.TheVariants.{OutOfMemory};
ghost use Rattle.cj_types.specs.Keys.{place_cmp};

use crate::tagged::Tagged;
use cj_types::Refusal;
use std::alloc::Global;
use std::collections::BTreeMap;

// The keys with their values, in the order of keys.
pub(crate) fn ordered_rows<'a, X>(
    alloc: Global,
    rows: &'a BTreeMap<Tagged, X>,
) -> Result<Vec<(&'a Tagged, &'a X)>, Refusal>
    ensures ok { IfOk result (λ v. map deref_pair v.items ≡
        finite.entries (finite.from_entries {R = place_cmp} rows.now.entries)) }
    ensures memory { IfErr result (λ e. e ≡ OutOfMemory) }
{
    let mut found: Vec<(&Tagged, &X)> = rows
        .iter()
        .collect(alloc)
        .map_err(|_| Refusal::OutOfMemory)?;
    found.sort_unstable_by(|a, b| a.0.key().cmp(b.0.key()));
    Ok(found)
}
