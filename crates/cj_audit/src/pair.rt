ghost use Rattle.std.specs.Prelude.{◌≡◌, ◌∷◌, IfOk, OnOk, IfErr};
ghost use Rattle.std.specs.List.Sorted.{IsPermutation};
ghost use Rattle.cj_status.specs.Order.{IsRising};
ghost use Rattle.cj_base.specs.declared.refusal.Refusal.TheVariants.{OutOfMemory};
ghost use Rattle.cj_audit.specs.Pairs.{comes_before, pair_finding, IsPairNote};
ghost use Rattle.cj_audit.specs.Notes.{Notes, AnyOf, IsPairIn};

use crate::finding::Finding;
use crate::note::note;
use crate::pairing::Pairing;
use crate::run::Run;
use cj_cluster::ClusterCron;
use cj_types::{Refusal, Text};
use std::alloc::Global;
use std::collections::BTreeSet;

// The finding on two Jobs.
fn pair_finding(
    alloc: Global,
    pairing: Pairing,
    cron: &ClusterCron,
    first: &Run,
    second: &Run,
) -> Result<Finding, Refusal>
    ensures ok { IfOk result (λ f. f ≡ pair_finding pairing cron.now first.now second.now) }
    ensures memory { IfErr result (λ e. e ≡ OutOfMemory) }
{
    let key = cron.cron.key.key();
    Ok(Finding {
        namespace: Text::new(alloc, key.namespace())?,
        cron: Text::new(alloc, key.name())?,
        time: pairing.key(second),
        first: Text::new(alloc, first.job.key.name())?,
        second: Some(Text::new(alloc, second.job.key.name())?),
        kind: pairing.kind(),
    })
}

// Notes the two, if they are a pair.
fn note_pair(
    alloc: Global,
    pairing: Pairing,
    cron: &ClusterCron,
    first: &Run,
    second: &Run,
    notes: &mut BTreeSet<Finding>,
) -> Result<(), Refusal>
    ensures ok { OnOk result (Notes (IsPairNote pairing cron.now first.now second.now)
        notes.old notes.new) }
    ensures memory { IfErr result (λ e. e ≡ OutOfMemory) }
{
    if !pairing.is_pair(first, second) {
        return Ok(());
    }
    note(notes, pair_finding(alloc, pairing, cron, first, second)?)
}

// Notes the pairs of a Job with the Jobs behind it.
fn note_behind(
    alloc: Global,
    pairing: Pairing,
    cron: &ClusterCron,
    first: &Run,
    behind: &[Run],
    notes: &mut BTreeSet<Finding>,
) -> Result<(), Refusal>
    requires { IsRising (comes_before pairing) (first.now ∷ behind.now) }
    ensures ok { OnOk result (Notes (AnyOf (IsPairNote pairing cron.now first.now) behind.now)
        notes.old notes.new) }
    ensures memory { IfErr result (λ e. e ≡ OutOfMemory) }
{
    for second in behind {
        if !pairing.reaches(first, second) {
            return Ok(());
        }
        note_pair(alloc, pairing, cron, first, second, notes)?;
    }
    Ok(())
}

// Notes the pairs of Jobs that are in order.
fn note_sorted(
    alloc: Global,
    pairing: Pairing,
    cron: &ClusterCron,
    runs: &[Run],
    notes: &mut BTreeSet<Finding>,
) -> Result<(), Refusal>
    requires { IsRising (comes_before pairing) runs.now }
    ensures ok { OnOk result (Notes (IsPairIn pairing cron.now runs.now) notes.old notes.new) }
    ensures memory { IfErr result (λ e. e ≡ OutOfMemory) }
{
    for (i, first) in runs.iter().enumerate() {
        note_behind(alloc, pairing, cron, first, &runs[i + 1..], notes)?;
    }
    Ok(())
}

/// Notes the pairs of the Jobs, which are then in order.
pub(crate) fn note_pairs(
    alloc: Global,
    pairing: Pairing,
    cron: &ClusterCron,
    runs: &mut Vec<Run>,
    notes: &mut BTreeSet<Finding>,
) -> Result<(), Refusal>
    ensures ok { OnOk result (Notes (IsPairIn pairing cron.now runs.old.items)
        notes.old notes.new) }
    ensures same { IsPermutation runs.old.items runs.new.items }
    ensures memory { IfErr result (λ e. e ≡ OutOfMemory) }
{
    pairing.sort(runs)?;
    note_sorted(alloc, pairing, cron, runs.as_slice(), notes)
}
