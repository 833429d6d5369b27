// The times of CronJobs that no sync counted yet.
ghost use Rattle.std.specs.Prelude.{◌≡◌, ◌++◌, IfOk, IfErr, OnOk};
ghost use mathlib.Core.List.{reverse};
ghost use Rattle.cj_base.specs.declared.refusal.Refusal.TheVariants.{OutOfMemory};
ghost use Rattle.cj_due.specs.Due.{missed_times};
ghost use Rattle.cj_history.specs.gaps.Late.{AreAllGaps, unsynced};
ghost use Rattle.cj_history.specs.gaps.reading.Known.{has};
ghost use Rattle.cj_history.specs.gaps.reading.Listed.{gap_if, gaps_with, Adds, LateFrom, AreLateFrom};
ghost use Rattle.cj_history.specs.gaps.Syncs.{last_scheduled};
ghost use Rattle.cj_history.specs.gaps.reading.Settled.{is_settled};

use crate::gaps::find::{is_settled, last_scheduled, list, schedule_of};
use crate::gaps::gap::{Gap, Why};
use crate::gaps::listed::Listed;
use crate::gaps::marks::Marks;
use crate::gaps::times::next_upto;
use cj_calls::Entry;
use cj_schedule::Schedule;
use cj_types::{CronJob, Refusal, Seconds, Shared, TryCopy};
use cj_zone::Zone;
use std::alloc::Global;

/// A CronJob that stands in the end, with its zone.
#[derive(Drop)]
pub struct Standing {
    /// The CronJob.
    pub cron: Shared<CronJob>,
    /// The zone in which its schedule is read.
    pub zone: Zone,
}

// Notes the time, if it isn't settled.
fn note_late(
    alloc: Global,
    marks: &Marks,
    listed: &Listed,
    cron: &Shared<CronJob>,
    time: Seconds,
    late: &mut Vec<Gap>,
) -> Result<(), Refusal>
    ensures ok { OnOk result (late.new.items ≡ late.old.items
        ++ gap_if (is_settled (has marks.now) listed.now cron.now.meta.uid) cron.now unsynced
        time) }
    ensures err { IfErr result (λ e. e ≡ OutOfMemory) }
{
    if is_settled(marks, listed, cron.get(), time) {
        return Ok(());
    }
    let cron = cron.try_copy(alloc)?;
    let why = Why::NeverSynced;
    let gap = Gap { cron, time, why };
    late.push(gap).map_err(|_| Refusal::OutOfMemory)
}

// Notes those of the due times after `lo` and up to `hi` that aren't settled.
fn note_all_late(
    alloc: Global,
    marks: &Marks,
    listed: &Listed,
    standing: &Standing,
    schedule: &Schedule,
    hi: Seconds,
    late: &mut Vec<Gap>,
) -> Result<(), Refusal>
    ensures ok { OnOk result (late.new.items ≡ late.old.items
        ++ gaps_with (is_settled (has marks.now) listed.now standing.now.cron.meta.uid)
        standing.now.cron unsynced (missed_times schedule.now standing.now.zone
        (last_scheduled standing.now.cron) hi)) }
    ensures err { IfErr result (λ e. e ≡ OutOfMemory) }
{
    let mut at = last_scheduled(standing.cron.get());
    while let Some(time) = next_upto(schedule, &standing.zone, at, hi) {
        note_late(alloc, marks, listed, &standing.cron, time, late)?;
        at = time;
    }
    Ok(())
}

// What is late of a CronJob.
fn note_standing(
    alloc: Global,
    marks: &Marks,
    listed: &Listed,
    standing: &Standing,
    at: Seconds,
    late: &mut Vec<Gap>,
) -> Result<(), Refusal>
    ensures ok { OnOk result (Adds (LateFrom (has marks.now) listed.now at standing.now)
        late.old.items late.new.items) }
    ensures err { IfErr result (λ e. e ≡ OutOfMemory) }
{
    match schedule_of(standing.cron.get()) {
        Some(schedule) => note_all_late(alloc, marks, listed, standing, &schedule, at, late),
        None => Ok(()),
    }
}

// What is late of several.
fn late_of(
    alloc: Global,
    marks: &Marks,
    listed: &Listed,
    standing: &[Standing],
    at: Seconds,
) -> Result<Vec<Gap>, Refusal>
    ensures ok { IfOk result (λ late. AreLateFrom (has marks.now) listed.now at standing.now
        late.items) }
    ensures err { IfErr result (λ e. e ≡ OutOfMemory) }
{
    let mut late = Vec::new(alloc);
    for one in standing {
        note_standing(alloc, marks, listed, one, at, &mut late)?;
    }
    Ok(late)
}

/// The gaps of the history, as `gaps_of` lists them, and after them what is late of these CronJobs
/// at an instant: the times that a sync at that instant would be the first to count, and that got
/// no Job. Those of one CronJob come in the order of time.
///
/// A history doesn't know the zone of a CronJob that no sync looked at, nor how late it is: who
/// asks says both. Takes memory in proportion to the claims and the gaps.
///
/// # Errors
///
/// `OutOfMemory`.
pub fn all_gaps_of(
    alloc: Global,
    entries: &[Entry],
    standing: &[Standing],
    at: Seconds,
) -> Result<Vec<Gap>, Refusal>
    ensures ok { IfOk result (λ gs. AreAllGaps (reverse entries.now) at standing.now gs.items) }
    ensures err { IfErr result (λ e. e ≡ OutOfMemory) }
{
    let marks = Marks::read(alloc, entries)?;
    let listed = list(alloc, &marks, entries)?;
    let mut late = late_of(alloc, &marks, &listed, standing, at)?;
    let mut gaps = listed.into_gaps();
    gaps.append(&mut late)?;
    Ok(gaps)
}
