// Due times that have no Job.
ghost use Rattle.std.specs.Prelude.{◌≡◌, IfOk, IfErr, OnOk, option_copied};
ghost use Rattle.cj_base.specs.declared.refusal.Refusal.TheVariants.{OutOfMemory};
ghost use Rattle.cj_table.specs.jobs.Owners.{owned_by};
ghost use Rattle.cj_audit.specs.Marks.{IsGapNote, IsHoleNote, IsMissingIn, IsRowNote};
ghost use Rattle.cj_audit.specs.Missing.{may_start, missing_finding, row_most};
ghost use Rattle.cj_audit.specs.Notes.{Notes, AnyOf};

use crate::finding::Finding;
use crate::kind::FindingKind;
use crate::marks::Marks;
use crate::note::note;
use crate::pairing::before_end;
use crate::run::Run;
use cj_cluster::{Cluster, ClusterCron};
use cj_due::next_after;
use cj_schedule::Schedule;
use cj_types::{Policy, Refusal, Seconds, Text};
use cj_zone::Zone;
use std::alloc::Global;
use std::collections::BTreeSet;

// Whether the policy lets a Job start at the time, by when the one before it ended.
fn may_start(policy: Policy, ended: Option<Seconds>, time: Seconds) -> bool
    ensures { result ≡ may_start policy ended time }
{
    match policy {
        Policy::Allow => true,
        Policy::Forbid => !before_end(time, ended),
        Policy::Replace => false,
    }
}

fn missing_finding(alloc: Global, cron: &ClusterCron, time: Seconds) -> Result<Finding, Refusal>
    ensures ok { IfOk result (λ f. f ≡ missing_finding cron.now time) }
    ensures memory { IfErr result (λ e. e ≡ OutOfMemory) }
{
    let key = cron.cron.key.key();
    Ok(Finding {
        namespace: Text::new(alloc, key.namespace())?,
        cron: Text::new(alloc, key.name())?,
        time,
        first: Text::new(alloc, "")?,
        second: None,
        kind: FindingKind::Missing,
    })
}

// Notes a time behind the Job's own, where it lacks a Job.
fn note_hole(
    alloc: Global,
    cron: &ClusterCron,
    marks: &Marks,
    run: &Run,
    time: Seconds,
    notes: &mut BTreeSet<Finding>,
) -> Result<(), Refusal>
    ensures ok { OnOk result (Notes (IsHoleNote cron.now marks.now run.now time) notes.old
        notes.new) }
    ensures memory { IfErr result (λ e. e ≡ OutOfMemory) }
{
    let spec = cron.cron.spec.get();
    let starts = may_start(spec.policy, run.times.ended, time);
    let lacks = marks.lacks(spec, time);
    if starts && lacks {
        note(notes, missing_finding(alloc, cron, time)?)
    } else {
        Ok(())
    }
}

// Notes those of the row of due times behind one that have no Job.
fn note_row(
    alloc: Global,
    schedule: &Schedule,
    zone: &Zone,
    cron: &ClusterCron,
    marks: &Marks,
    run: &Run,
    first: Seconds,
    notes: &mut BTreeSet<Finding>,
) -> Result<(), Refusal>
    ensures ok { OnOk result (Notes (IsRowNote row_most schedule.now zone.now cron.now marks.now
        run.now first) notes.old notes.new) }
    ensures memory { IfErr result (λ e. e ≡ OutOfMemory) }
{
    let mut last = first;
    for turn in 0..100_u32 {
        let Some(time) = next_after(schedule, zone, last) else {
            return Ok(());
        };
        note_hole(alloc, cron, marks, run, time, notes)?;
        if marks.has(time) {
            return Ok(());
        }
        last = time;
    }
    Ok(())
}

// Notes the row of due times behind the Job's own that have none.
fn note_gap(
    alloc: Global,
    schedule: &Schedule,
    zone: &Zone,
    cron: &ClusterCron,
    marks: &Marks,
    run: &Run,
    notes: &mut BTreeSet<Finding>,
) -> Result<(), Refusal>
    ensures ok { OnOk result (Notes (IsGapNote schedule.now zone.now cron.now marks.now run.now)
        notes.old notes.new) }
    ensures memory { IfErr result (λ e. e ≡ OutOfMemory) }
{
    match run.times.scheduled {
        Some(first) => note_row(alloc, schedule, zone, cron, marks, run, first, notes),
        None => Ok(()),
    }
}

fn note_gaps(
    alloc: Global,
    schedule: &Schedule,
    zone: &Zone,
    cron: &ClusterCron,
    marks: &Marks,
    runs: &[Run],
    notes: &mut BTreeSet<Finding>,
) -> Result<(), Refusal>
    ensures ok { OnOk result (Notes (AnyOf (IsGapNote schedule.now zone.now cron.now marks.now)
        runs.now) notes.old notes.new) }
    ensures memory { IfErr result (λ e. e ≡ OutOfMemory) }
{
    for run in runs {
        note_gap(alloc, schedule, zone, cron, marks, run, notes)?;
    }
    Ok(())
}

/// Notes the due times that have no Job, by these Jobs, which the CronJob's controller made.
pub(crate) fn note_missing(
    alloc: Global,
    schedule: Option<&Schedule>,
    zone: Option<&Zone>,
    cluster: &Cluster,
    cron: &ClusterCron,
    runs: &[Run],
    notes: &mut BTreeSet<Finding>,
) -> Result<(), Refusal>
    ensures ok { OnOk result (Notes (IsMissingIn (option_copied schedule.entry)
        (option_copied zone.entry) cron.now runs.now (owned_by cluster.now.jobs cron.now.cron.key))
        notes.old notes.new) }
    ensures memory { IfErr result (λ e. e ≡ OutOfMemory) }
{
    let (Some(schedule), Some(zone)) = (schedule, zone) else {
        return Ok(());
    };
    if cron.cron.spec.get().suspend {
        return Ok(());
    }
    let jobs = cluster.jobs_naming(alloc, cron.cron.key.key())?;
    let marks = Marks::of(alloc, cron, runs, jobs.as_slice())?;
    note_gaps(alloc, schedule, zone, cron, &marks, runs, notes)
}
