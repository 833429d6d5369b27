ghost use Rattle.std.specs.Prelude.{IfOk, IfErr, OnOk, ◌≡◌};
ghost use Rattle.std.specs.FinMap as map;
ghost use Rattle.cj_base.specs.declared.refusal.Refusal.TheVariants.{OutOfMemory};
ghost use Rattle.cj_zone.specs.Table.{zones_of};
ghost use Rattle.cj_audit.specs.Places.{AreShort};
ghost use Rattle.cj_audit.specs.Notes.{Notes, AnyOf};
ghost use Rattle.cj_audit.specs.Findings.{IsAudit, IsFindingOf};

use crate::cron::note_cron;
use crate::finding::Finding;
use crate::findings::Findings;
use crate::stray::note_strays;
use crate::stuck::note_stuck;
use cj_cluster::{Cluster, ItemNote};
use cj_types::Refusal;
use cj_zone::ZoneTable;
use std::alloc::Global;
use std::collections::BTreeSet;

// Notes what is wrong with the Jobs of the CronJobs.
fn note_crons(
    alloc: Global,
    zones: &ZoneTable,
    cluster: &Cluster,
    notes: &mut BTreeSet<Finding>,
) -> Result<(), Refusal>
    ensures ok { OnOk result (Notes (AnyOf (IsFindingOf (zones_of zones.now) cluster.now)
        (map.values cluster.now.crons)) notes.old notes.new) }
    ensures short { OnOk result (AreShort cluster.now.crons) }
    ensures memory { IfErr result (λ e. e ≡ OutOfMemory) }
{
    let crons = cluster.crons(alloc)?;
    for cron in crons.as_slice() {
        note_cron(alloc, zones, cluster, cron.get(), notes)?;
    }
    Ok(())
}

/// What is wrong in the cluster: each Job, and each two, that a correct controller would not have
/// made, each due time for which it would have made one, and each CronJob that is stuck. The zones
/// are those that its CronJobs may name; one that names none goes by UTC. A Job of a CronJob whose
/// item can't be used, by these notes, is no stray; nor is any where there is no CronJob at all.
pub fn audit(
    alloc: Global,
    zones: &ZoneTable,
    cluster: &Cluster,
    refused: &[ItemNote],
) -> Result<Findings, Refusal>
    ensures ok { IfOk result (λ f. IsAudit (zones_of zones.now) cluster.now refused.now f) }
    ensures memory { IfErr result (λ e. e ≡ OutOfMemory) }
{
    let mut notes = BTreeSet::new(alloc);
    note_crons(alloc, zones, cluster, &mut notes)?;
    note_strays(alloc, cluster, refused, &mut notes)?;
    note_stuck(alloc, cluster, &mut notes)?;
    Findings::of_set(alloc, notes)
}
