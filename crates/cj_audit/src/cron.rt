ghost use Rattle.std.specs.Prelude.{◌≡◌, IfOk, IfErr, OnOk, IsTrue, option_copied};
ghost use Rattle.cj_base.specs.declared.refusal.Refusal.TheVariants.{OutOfMemory};
ghost use Rattle.cj_types.specs.Names.{longest_cron};
ghost use Rattle.cj_types.specs.Keys.{is_place};
ghost use Rattle.cj_zone.specs.Table.{zones_of};
ghost use Rattle.cj_audit.specs.Times.{run_finding, IsUndueNote, IsEarlyRun, IsSingleNote};
ghost use Rattle.cj_audit.specs.Notes.{Notes, AnyOf};
ghost use Rattle.cj_audit.specs.Runs.{AreRunsOf};
ghost use Rattle.cj_audit.specs.Findings.{IsAloneOf, IsFindingOf};

use crate::clock::{is_undue, schedule_of, zone_for};
use crate::finding::Finding;
use crate::kind::{Exclusive, FindingKind};
use crate::missing::note_missing;
use crate::note::note;
use crate::pair::note_pairs;
use crate::pairing::Pairing;
use crate::run::{Run, runs_of};
use cj_cluster::{Cluster, ClusterCron};
use cj_schedule::Schedule;
use cj_types::{Refusal, Seconds, Text};
use cj_zone::{Zone, ZoneTable};
use std::alloc::Global;
use std::collections::BTreeSet;

// The finding on a Job at its scheduled time.
fn run_finding(
    alloc: Global,
    kind: FindingKind,
    cron: &ClusterCron,
    run: &Run,
    time: Seconds,
) -> Result<Finding, Refusal>
    ensures ok { IfOk result (λ f. f ≡ run_finding kind cron.now run.now time) }
    ensures memory { IfErr result (λ e. e ≡ OutOfMemory) }
{
    let key = cron.cron.key.key();
    Ok(Finding {
        namespace: Text::new(alloc, key.namespace())?,
        cron: Text::new(alloc, key.name())?,
        time,
        first: Text::new(alloc, run.job.key.name())?,
        second: None,
        kind,
    })
}

// Notes the Job, if its scheduled time isn't due.
fn note_undue(
    alloc: Global,
    schedule: Option<&Schedule>,
    zone: Option<&Zone>,
    cron: &ClusterCron,
    run: &Run,
    notes: &mut BTreeSet<Finding>,
) -> Result<(), Refusal>
    ensures ok { OnOk result (Notes (IsUndueNote (option_copied schedule.entry)
        (option_copied zone.entry) cron.now run.now)
        notes.old notes.new) }
    ensures memory { IfErr result (λ e. e ≡ OutOfMemory) }
{
    let Some(time) = run.times.scheduled else {
        return Ok(());
    };
    if !is_undue(schedule, zone, time) {
        return Ok(());
    }
    note(
        notes,
        run_finding(alloc, FindingKind::Undue, cron, run, time)?,
    )
}

// Notes the Job, if it was created before its scheduled time.
fn note_early(
    alloc: Global,
    cron: &ClusterCron,
    run: &Run,
    notes: &mut BTreeSet<Finding>,
) -> Result<(), Refusal>
    ensures ok { OnOk result (Notes (IsEarlyRun cron.now run.now) notes.old notes.new) }
    ensures memory { IfErr result (λ e. e ≡ OutOfMemory) }
{
    let Some(time) = run.times.scheduled else {
        return Ok(());
    };
    if run.job.meta.created.get() >= time.get() {
        return Ok(());
    }
    note(
        notes,
        run_finding(alloc, FindingKind::Early, cron, run, time)?,
    )
}

// Notes what is wrong with single Jobs.
fn note_singles(
    alloc: Global,
    schedule: Option<&Schedule>,
    zone: Option<&Zone>,
    cron: &ClusterCron,
    runs: &[Run],
    notes: &mut BTreeSet<Finding>,
) -> Result<(), Refusal>
    ensures ok { OnOk result (Notes (AnyOf (IsSingleNote (option_copied schedule.entry)
        (option_copied zone.entry) cron.now) runs.now) notes.old notes.new) }
    ensures memory { IfErr result (λ e. e ≡ OutOfMemory) }
{
    for run in runs {
        note_undue(alloc, schedule, zone, cron, run, notes)?;
        note_early(alloc, cron, run, notes)?;
    }
    Ok(())
}

// Notes what is wrong with single Jobs of a CronJob, and its due times that have none.
fn note_alone(
    alloc: Global,
    zones: &ZoneTable,
    cluster: &Cluster,
    cron: &ClusterCron,
    runs: &[Run],
    notes: &mut BTreeSet<Finding>,
) -> Result<(), Refusal>
    requires { AreRunsOf cluster.now cron.now runs.now }
    ensures ok { OnOk result (Notes (IsAloneOf (zones_of zones.now) cluster.now cron.now)
        notes.old notes.new) }
    ensures memory { IfErr result (λ e. e ≡ OutOfMemory) }
{
    let spec = cron.cron.spec.get();
    let (schedule, zone) = (schedule_of(spec), zone_for(zones, &spec.time_zone));
    let schedule = schedule.as_ref();
    note_singles(alloc, schedule, zone, cron, runs, notes)?;
    note_missing(alloc, schedule, zone, cluster, cron, runs, notes)
}

/// Notes what is wrong with the Jobs of a CronJob.
pub(crate) fn note_cron(
    alloc: Global,
    zones: &ZoneTable,
    cluster: &Cluster,
    cron: &ClusterCron,
    notes: &mut BTreeSet<Finding>,
) -> Result<(), Refusal>
    ensures ok { OnOk result (Notes (IsFindingOf (zones_of zones.now) cluster.now cron.now)
        notes.old notes.new) }
    ensures memory { IfErr result (λ e. e ≡ OutOfMemory) }
    ensures short { IsTrue (is_place longest_cron cron.now.cron.key) }
{
    let mut runs = runs_of(alloc, cluster, cron)?;
    note_alone(alloc, zones, cluster, cron, runs.as_slice(), notes)?;
    note_pairs(alloc, Pairing::SameTime, cron, &mut runs, notes)?;
    if let Some(exclusive) = Exclusive::of(cron.cron.spec.get().policy) {
        note_pairs(
            alloc,
            Pairing::SideBySide(exclusive),
            cron,
            &mut runs,
            notes,
        )?;
    }
    Ok(())
}
