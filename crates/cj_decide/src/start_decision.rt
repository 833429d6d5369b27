ghost use Rattle.std.specs.Prelude.{◌≡◌, option_copied};
ghost use Rattle.cj_decide.specs.StartDecisions.{rests, starts, late, by_policy, by_missed, IsByTimes, IsByText, IsByZone, IsStartDecision};

use crate::times::{missed_of, next_of};
use cj_due::Missed;
use cj_schedule::Schedule;
use cj_types::{CronJob, Policy, Reason, Seconds};
use cj_zone::Zone;

/// The decision whether to start a Job.
#[derive(Clone, Copy, Debug)]
pub struct StartDecision {
    /// The time for which a Job is started, if one is.
    pub time: Option<Seconds>,
    /// Whether the Job replaces those that run.
    pub replaces: bool,
    /// Whether more than 100 times were missed.
    pub is_late: bool,
    /// Why no Job is started, where that has a reason to report.
    pub reason: Option<Reason>,
    /// When to look again.
    pub next: Option<Seconds>,
}

fn rests(reason: Option<Reason>, next: Option<Seconds>) -> StartDecision
    ensures { result ≡ rests reason next }
{
    StartDecision {
        time: None,
        replaces: false,
        is_late: false,
        reason,
        next,
    }
}

fn starts(time: Seconds, replaces: bool, next: Option<Seconds>) -> StartDecision
    ensures { result ≡ starts time replaces next }
{
    StartDecision {
        time: Some(time),
        replaces,
        is_late: false,
        reason: None,
        next,
    }
}

fn by_policy(policy: Policy, busy: bool, time: Seconds, next: Option<Seconds>) -> StartDecision
    ensures { result ≡ by_policy policy busy time next }
{
    match (policy, busy) {
        (Policy::Forbid, true) => rests(Some(Reason::JobAlreadyActive), next),
        (Policy::Replace, _) => starts(time, true, next),
        _ => starts(time, false, next),
    }
}

// A start decision, marked that more than 100 times were missed.
fn late(start: StartDecision) -> StartDecision
    ensures { result ≡ late start }
{
    StartDecision {
        is_late: true,
        ..start
    }
}

fn by_missed(missed: Missed, policy: Policy, busy: bool, next: Option<Seconds>) -> StartDecision
    ensures { result ≡ by_missed missed policy busy next }
{
    match missed {
        Missed::None => rests(None, next),
        Missed::Some { latest, .. } => by_policy(policy, busy, latest, next),
        Missed::Many { latest } => late(by_policy(policy, busy, latest, next)),
    }
}

fn by_times(
    cron: &CronJob,
    schedule: &Schedule,
    zone: &Zone,
    busy: bool,
    now: Seconds,
) -> StartDecision
    ensures { IsByTimes cron.now schedule.now zone.now busy now result }
{
    let missed = missed_of(cron, schedule, zone, now);
    let next = next_of(schedule, zone, now);
    by_missed(missed, cron.spec.policy, busy, next)
}

fn by_text(cron: &CronJob, zone: &Zone, busy: bool, now: Seconds) -> StartDecision
    ensures { IsByText cron.now zone.now busy now result }
{
    match Schedule::parse(cron.spec.schedule.as_str()) {
        Ok(schedule) => by_times(cron, &schedule, zone, busy, now),
        Err(_) => rests(None, None),
    }
}

fn by_zone(cron: &CronJob, zone: Option<&Zone>, busy: bool, now: Seconds) -> StartDecision
    ensures { IsByZone cron.now (option_copied zone.entry) busy now result }
{
    match zone {
        None => rests(Some(Reason::UnknownTimeZone), None),
        Some(zone) => by_text(cron, zone, busy, now),
    }
}

/// The start decision on a CronJob, by whether a Job of it runs. The first case that holds decides:
/// suspended, no zone, nothing missed, forbidden while a Job runs, started in its place, started.
pub fn decide_start(cron: &CronJob, zone: Option<&Zone>, busy: bool, now: Seconds) -> StartDecision
    ensures { IsStartDecision cron.now (option_copied zone.entry) busy now result }
{
    if cron.spec.suspend {
        rests(None, None)
    } else {
        by_zone(cron, zone, busy, now)
    }
}
