// The gaps of a history.
ghost use Rattle.std.specs.Prelude.{◌≡◌, ◌++◌, List, ◌∷◌, Some, IfOk, IfErr, OnOk, option_copied};
ghost use mathlib.Core.List.{reverse};
ghost use Rattle.cj_base.specs.declared.refusal.Refusal.TheVariants.{OutOfMemory};
ghost use Rattle.cj_calls.specs.Rows.{Told};
ghost use Rattle.cj_schedule.specs.Grammar.{IsSchedule};
ghost use Rattle.cj_schedule.specs.Matches.{Sets};
ghost use Rattle.cj_due.specs.Due.{missed_times};
ghost use Rattle.cj_history.specs.gaps.Causes.{is_forbidden, is_late, why_left, cause};
ghost use Rattle.cj_history.specs.gaps.Gaps.{AreGaps};
ghost use Rattle.cj_history.specs.gaps.Syncs.{plan_in, last_scheduled};
ghost use Rattle.cj_history.specs.gaps.Whole.{MadeOrTold};
ghost use Rattle.cj_history.specs.gaps.reading.Goes.{Goes};
ghost use Rattle.cj_history.specs.gaps.reading.Known.{has};
ghost use Rattle.cj_history.specs.gaps.reading.Listed.{gap_if, gaps_among, AreListed, GapsFrom, GapsBy, GoesOn};
ghost use Rattle.cj_history.specs.gaps.reading.Settled.{is_settled};
ghost use Rattle.cj_history.specs.gaps.reading.Intervals.{Covers};

use crate::gaps::gap::{Gap, Why};
use crate::gaps::intervals::{Interval, Intervals, later};
use crate::gaps::listed::Listed;
use crate::gaps::mark::{Deed, Mark, Start};
use crate::gaps::marks::Marks;
use crate::gaps::times::next_upto;
use cj_calls::{Answer, Call, Entry};
use cj_decide::Plan;
use cj_schedule::Schedule;
use cj_types::{CronJob, Reason, Refusal, Seconds, Shared, TryCopy};
use cj_zone::Zone;
use std::alloc::Global;

// Whether the plan told that a Job runs beside which the policy forbids another.
fn is_forbidden(plan: &Plan) -> bool
    ensures { result ≡ is_forbidden plan.now }
{
    let reasons = plan.steps().reasons.as_slice();
    reasons.iter().any(|r| *r == Reason::JobAlreadyActive)
}

// Whether the time was too long ago at the plan's moment.
fn is_late(cron: &CronJob, plan: &Plan, time: Seconds) -> bool
    ensures { result ≡ is_late cron.now plan.now time }
{
    match cron.spec.get().starting_deadline_seconds {
        Some(deadline) => time.get() <= plan.moment().get().saturating_sub(deadline.get()),
        None => time.get() == 0,
    }
}

// Why the sync that counted the time first claimed nothing for it.
fn why_left(cron: &CronJob, plan: &Plan, time: Seconds) -> Why
    ensures { result ≡ why_left cron.now plan.now time }
{
    if cron.spec.get().suspend {
        Why::Suspended
    } else if is_late(cron, plan, time) {
        Why::TooLate
    } else if is_forbidden(plan) {
        Why::Forbidden
    } else {
        Why::Earlier
    }
}

pub(crate) fn mark_of(cron: &CronJob, time: Seconds, deed: Deed) -> Mark
    ensures { result ≡ record { uid = cron.now.meta.uid; time = time; deed = deed } }
{
    Mark {
        uid: cron.meta.uid,
        time,
        deed,
    }
}

// Why there is no Job.
fn cause(marks: &Marks, cron: &CronJob, plan: &Plan, time: Seconds) -> Why
    ensures { result ≡ cause (has marks.now) cron.now plan.now time }
{
    if marks.has(mark_of(cron, time, Deed::Refused)) {
        Why::NameTaken
    } else if marks.has(mark_of(cron, time, Deed::Claimed)) {
        Why::NotMade
    } else {
        why_left(cron, plan, time)
    }
}

// Whether the time got its Job, or its gap is listed.
pub(crate) fn is_settled(marks: &Marks, listed: &Listed, cron: &CronJob, time: Seconds) -> bool
    ensures { result ≡ is_settled (has marks.now) listed.now cron.now.meta.uid time }
{
    let uid = cron.meta.uid;
    let made = marks.has(mark_of(cron, time, Deed::Made));
    let told = listed.has(Start { uid, time });
    made || told
}

// Lists the time, if it isn't settled.
fn note_time(
    alloc: Global,
    marks: &Marks,
    cron: &Shared<CronJob>,
    plan: &Plan,
    time: Seconds,
    listed: &mut Listed,
) -> Result<(), Refusal>
    ensures ok { OnOk result (listed.new ≡ listed.old
        ++ gap_if (is_settled (has marks.now) listed.old cron.now.meta.uid) cron.now
        (cause (has marks.now) cron.now plan.now) time) }
    ensures err { IfErr result (λ e. e ≡ OutOfMemory) }
{
    if is_settled(marks, listed, cron.get(), time) {
        return Ok(());
    }
    let why = cause(marks, cron.get(), plan, time);
    let cron = cron.try_copy(alloc)?;
    listed.push(Gap { cron, time, why })
}

// Lists those of the due times after `lo` and up to the plan's moment that aren't settled.
fn note_times(
    alloc: Global,
    marks: &Marks,
    cron: &Shared<CronJob>,
    plan: &Plan,
    schedule: &Schedule,
    zone: &Zone,
    lo: Seconds,
    listed: &mut Listed,
) -> Result<(), Refusal>
    ensures ok { OnOk result (listed.new ≡ listed.old
        ++ gaps_among (has marks.now) listed.old cron.now plan.now
        (missed_times schedule.now zone.now lo plan.now.at)) }
    ensures err { IfErr result (λ e. e ≡ OutOfMemory) }
{
    let hi = plan.moment();
    let mut at = lo;
    while let Some(time) = next_upto(schedule, zone, at, hi) {
        note_time(alloc, marks, cron, plan, time, listed)?;
        at = time;
    }
    Ok(())
}

// The schedule of a CronJob, if its text is one.
pub(crate) fn schedule_of(cron: &CronJob) -> Option<Schedule>
    ensures found { (s : Sets) → result ≡ Some s → IsSchedule cron.now.spec.schedule s }
    ensures only { (s : Sets) → IsSchedule cron.now.spec.schedule s → result ≡ Some s }
{
    Schedule::parse(cron.spec.get().schedule.as_str()).ok()
}

// The last time that was scheduled, or the creation before the first.
pub(crate) fn last_scheduled(cron: &CronJob) -> Seconds
    ensures { result ≡ last_scheduled cron.now }
{
    cron.status.last_schedule_time.unwrap_or(cron.meta.created)
}

// Lists what a plan counts by this schedule and in this zone. It goes on where the last sync of the
// CronJob ended, if that had the same schedule and zone.
fn note_schedule(
    alloc: Global,
    marks: &Marks,
    cron: &Shared<CronJob>,
    plan: &Plan,
    schedule: &Schedule,
    zone: &Shared<Zone>,
    intervals: &mut Intervals,
    listed: &mut Listed,
) -> Result<(), Refusal>
    ensures ok { OnOk result (Covers (is_settled (has marks.now) listed.old) intervals.old →
        GoesOn (has marks.now) (λ gs. gs ≡ gaps_among (has marks.now) listed.old cron.now plan.now
        (missed_times schedule.now zone.now (last_scheduled cron.now) plan.now.at))
        listed.old listed.new intervals.new) }
    ensures err { IfErr result (λ e. e ≡ OutOfMemory) }
{
    let uid = cron.get().meta.uid;
    let from = last_scheduled(cron.get());
    let lo = intervals.seen_upto(uid, schedule, zone.get(), from);
    note_times(alloc, marks, cron, plan, schedule, zone.get(), lo, listed)?;
    let interval = Interval {
        schedule: *schedule,
        zone: zone.try_copy(alloc)?,
        from,
        upto: later(lo, plan.moment()),
    };
    intervals.put(uid, interval)
}

// The same by the CronJob's own schedule.
fn note_cron(
    alloc: Global,
    marks: &Marks,
    cron: &Shared<CronJob>,
    plan: &Plan,
    zone: &Shared<Zone>,
    intervals: &mut Intervals,
    listed: &mut Listed,
) -> Result<(), Refusal>
    ensures ok { OnOk result (Covers (is_settled (has marks.now) listed.old) intervals.old →
        GoesOn (has marks.now) (GapsFrom (has marks.now) listed.old cron.now plan.now zone.now)
        listed.old listed.new intervals.new) }
    ensures err { IfErr result (λ e. e ≡ OutOfMemory) }
{
    match schedule_of(cron.get()) {
        Some(schedule) => {
            note_schedule(alloc, marks, cron, plan, &schedule, zone, intervals, listed)
        }
        None => Ok(()),
    }
}

// What a plan, which was claimed, counts first.
fn note_plan(
    alloc: Global,
    marks: &Marks,
    plan: &Plan,
    intervals: &mut Intervals,
    listed: &mut Listed,
) -> Result<(), Refusal>
    ensures ok { OnOk result (Covers (is_settled (has marks.now) listed.old) intervals.old →
        GoesOn (has marks.now) (GapsBy (has marks.now) listed.old plan.now plan.now.cron
        plan.now.zone) listed.old listed.new intervals.new) }
    ensures err { IfErr result (λ e. e ≡ OutOfMemory) }
{
    match (plan.cron(), plan.zone()) {
        (Some(cron), Some(zone)) => { note_cron(alloc, marks, cron, plan, zone, intervals, listed) }
        _ => Ok(()),
    }
}

// The plan of an accepted claim.
fn plan_in<'a>(call: &'a Call, answer: &Answer) -> Option<&'a Plan>
    ensures { option_copied result ≡ plan_in call.now answer.now }
{
    match (call, answer) {
        (Call::Claim(plan), Ok(_)) => Some(plan.get()),
        _ => None,
    }
}

// An entry more, which follows those that were read.
fn note_entry(
    alloc: Global,
    marks: &Marks,
    entry: &Entry,
    intervals: &mut Intervals,
    listed: &mut Listed,
) -> Result<(), Refusal>
    ensures ok { OnOk result ((h : List Told) → Goes (has marks.now) h intervals.old listed.old
        → Goes (has marks.now) (entry.now ∷ h) intervals.new listed.new) }
    ensures err { IfErr result (λ e. e ≡ OutOfMemory) }
{
    match plan_in(entry.call(), entry.answer()) {
        Some(plan) => note_plan(alloc, marks, plan, intervals, listed),
        None => Ok(()),
    }
}

// The gaps of the entries, of which the oldest is the first.
pub(crate) fn list(alloc: Global, marks: &Marks, entries: &[Entry]) -> Result<Listed, Refusal>
    ensures ok { IfOk result (λ gs. AreListed (has marks.now) (reverse entries.now) gs) }
    ensures err { IfErr result (λ e. e ≡ OutOfMemory) }
{
    let mut intervals = Intervals::new(alloc);
    let mut listed = Listed::new(alloc);
    for entry in entries {
        note_entry(alloc, marks, entry, &mut intervals, &mut listed)?;
    }
    Ok(listed)
}

/// The gaps of the history: the times that a sync counted as missed and that got no Job, each once,
/// with its cause. A sync counts the times that are due by the schedule and in the zone that it
/// read, later than the last scheduled time that it read (the creation before the first), and not
/// later than its moment. A time got its Job where an accepted making rests on a claim of it.
///
/// The entries come with the oldest first. The gaps come in the order of the syncs that counted
/// them first, and those of one sync in the order of time. So of each time that a sync counted
/// there is one Job or one gap, and never both.
///
/// A sync counts once its claim was accepted, also where it claimed nothing, and where its zone was
/// known. Times that no sync counted yet are none of these; `all_gaps_of` tells those too. Takes
/// memory in proportion to the claims and the gaps.
///
/// # Errors
///
/// `OutOfMemory`.
pub fn gaps_of(alloc: Global, entries: &[Entry]) -> Result<Vec<Gap>, Refusal>
    ensures ok { IfOk result (λ gs. AreGaps (reverse entries.now) gs.items) }
    ensures whole { IfOk result (λ gs. MadeOrTold (reverse entries.now) gs.items) }
    ensures err { IfErr result (λ e. e ≡ OutOfMemory) }
{
    let marks = Marks::read(alloc, entries)?;
    let listed = list(alloc, &marks, entries)?;
    Ok(listed.into_gaps())
}
