// CronJobs that are stuck.
ghost use Rattle.std.specs.Prelude.{◌≡◌, IfOk, IfErr, OnOk, unwrap_or};
ghost use Rattle.std.specs.FinMap as map;
ghost use Rattle.cj_base.specs.declared.refusal.Refusal.TheVariants.{OutOfMemory};
ghost use Rattle.cj_audit.specs.Notes.{Notes, AnyOf};
ghost use Rattle.cj_audit.specs.Findings.{IsStuckCron, since, stuck_finding};

use crate::finding::Finding;
use crate::kind::FindingKind;
use crate::note::note;
use cj_cluster::{Cluster, ClusterCron};
use cj_types::{Refusal, Seconds, Text};
use std::alloc::Global;
use std::collections::BTreeSet;

// The last scheduled time of the CronJob, and without one its creation.
fn since(cron: &ClusterCron) -> Seconds
    ensures { result ≡ since cron.now }
{
    match cron.cron.status.last_schedule_time {
        Some(time) => time,
        None => cron.cron.meta.created,
    }
}

fn stuck_finding(alloc: Global, cron: &ClusterCron) -> Result<Finding, Refusal>
    ensures ok { IfOk result (λ f. f ≡ stuck_finding cron.now) }
    ensures memory { IfErr result (λ e. e ≡ OutOfMemory) }
{
    let key = cron.cron.key.key();
    Ok(Finding {
        namespace: Text::new(alloc, key.namespace())?,
        cron: Text::new(alloc, key.name())?,
        time: since(cron),
        first: Text::new(alloc, "")?,
        second: None,
        kind: FindingKind::Stuck,
    })
}

// Notes the CronJob, if it is stuck.
fn note_one(alloc: Global, cron: &ClusterCron, notes: &mut BTreeSet<Finding>) -> Result<(), Refusal>
    ensures ok { OnOk result (Notes (IsStuckCron cron.now) notes.old notes.new) }
    ensures memory { IfErr result (λ e. e ≡ OutOfMemory) }
{
    if cron.marks.is_stuck {
        note(notes, stuck_finding(alloc, cron)?)
    } else {
        Ok(())
    }
}

/// Notes the CronJobs that are stuck.
pub(crate) fn note_stuck(
    alloc: Global,
    cluster: &Cluster,
    notes: &mut BTreeSet<Finding>,
) -> Result<(), Refusal>
    ensures ok { OnOk result (Notes (AnyOf IsStuckCron (map.values cluster.now.crons)) notes.old
        notes.new) }
    ensures memory { IfErr result (λ e. e ≡ OutOfMemory) }
{
    let crons = cluster.crons(alloc)?;
    for cron in crons.as_slice() {
        note_one(alloc, cron.get(), notes)?;
    }
    Ok(())
}
