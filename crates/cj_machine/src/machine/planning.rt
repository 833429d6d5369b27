// What the decision asks of a sync, by what was read.
ghost use Rattle.std.specs.Prelude.{◌≡◌, Some, IfOk, IfErr};
ghost use Rattle.cj_base.specs.declared.refusal.Refusal.TheVariants.{OutOfMemory};
ghost use Rattle.cj_decide.specs.Decision.{IsPlan};
ghost use Rattle.cj_why.specs.reviews.Seen as seen;
ghost use Rattle.cj_zone.specs.Table.{zones_of};
ghost use Rattle.cj_zone.specs.Zones.{zone_named};
ghost use Rattle.cj_machine.specs.Planning.{zone_name};

use crate::machine::reading::value_of;
use crate::machine::task::Planned;
use cj_base::{Field, FieldFaults, Refusal, Seconds, Text};
use cj_cluster::{Cluster, ClusterCron, ItemNotes, ListFault, Said, read_cluster};
use cj_control::{list_of, spec};
use cj_decide::{JobRefs, Plan, Steps, decide};
use cj_due::{Missed, missed};
use cj_explain::explain_faults;
use cj_manifest::present;
use cj_schedule::Schedule;
use cj_types::{Key, Reason, Shared, TryCopy};
use cj_why::{found, listed};
use cj_zone::{Zone, ZoneTable};
use serde_json::Value;
use std::alloc::Global;

/// What the decision asks of a sync, or why there is none.
#[derive(Drop)]
pub(crate) enum Decided {
    Plan(Planned),
    /// The CronJob is refused: for the reason of an Event, and in words.
    Refused(&'static str, String),
}

// The reason of an Event for a field at fault, as Kubernetes names them.
fn event_reason(field: Field) -> &'static str {
    match field {
        Field::ScheduleText => "InvalidSchedule",
        Field::TimeZone => "UnknownTimeZone",
        _ => "InvalidSpec",
    }
}

// The reason of an Event for these faults: that of the first field.
fn reason_of(faults: &FieldFaults) -> &'static str {
    match faults.as_slice() {
        [first, ..] => event_reason(first.field),
        [] => "InvalidSpec",
    }
}

// The lines of a text, in one.
fn one_line(alloc: Global, lines: &str) -> Result<String, Refusal> {
    let mut text = String::new(alloc);
    for line in lines.lines() {
        if !text.is_empty() {
            text.push_str("; ")?;
        }
        text.push_str(line)?;
    }
    Ok(text)
}

/// Faults of a CronJob, in one line of the words of `check --explain`.
pub(crate) fn one_line_of(alloc: Global, faults: &FieldFaults) -> Result<String, Refusal> {
    let lines = explain_faults(alloc, None, faults.as_slice())?;
    one_line(alloc, lines.as_str())
}

// The text of the schedule of the first object of a list.
fn schedule_in(list: &Value) -> Option<&str> {
    let first = list_of(present(list, "items")).first()?;
    spec(first, "schedule")?.as_str()
}

// The fields at fault, in the words of `check --explain`.
fn fault_words(alloc: Global, list: &str, faults: &FieldFaults) -> Result<Decided, Refusal> {
    let value = value_of(alloc, list)?;
    let schedule = match &value {
        Some(list) => schedule_in(list),
        None => None,
    };
    let lines = explain_faults(alloc, schedule, faults.as_slice())?;
    let words = one_line(alloc, lines.as_str())?;
    Ok(Decided::Refused(reason_of(faults), words))
}

// Why the list has no CronJob.
fn refused(alloc: Global, list: &str, notes: &ItemNotes) -> Result<Decided, Refusal> {
    for note in notes.as_slice() {
        if let Said::Refused(faults) = &note.said {
            return fault_words(alloc, list, faults);
        }
    }
    let text = String::from_str(alloc, "it is no CronJob of a version that is known")?;
    Ok(Decided::Refused("InvalidSpec", text))
}

// The names of Jobs.
fn names(alloc: Global, jobs: &JobRefs) -> Result<Vec<Text>, Refusal> {
    let mut names = Vec::new(alloc);
    for job in jobs.as_slice() {
        let name = Text::new(alloc, job.key.name())?;
        names.push(name).map_err(|_| Refusal::OutOfMemory)?;
    }
    Ok(names)
}

// How many times after the last schedule time were missed beside the latest; 0 where they are more
// than 100, of which an Event tells.
fn passed_of(plan: &Plan) -> u64 {
    let (Some(cron), Some(zone)) = (plan.cron(), plan.zone()) else {
        return 0;
    };
    let cron = cron.get();
    let Ok(schedule) = Schedule::parse(cron.spec.schedule.as_str()) else {
        return 0;
    };
    let since = cron.status.last_schedule_time.unwrap_or(cron.meta.created);
    match missed(&schedule, zone.get(), since, plan.moment()) {
        Missed::Some { count, .. } => u64::from(count).saturating_sub(1),
        _ => 0,
    }
}

fn planned(alloc: Global, steps: &Steps, passed: u64) -> Result<Planned, Refusal> {
    Ok(Planned {
        passed,
        time: match &steps.claim {
            Some(claim) => Some(claim.time.get()),
            None => None,
        },
        surplus: names(alloc, &steps.cleanup)?,
        next: match steps.next {
            Some(next) => Some(next.get()),
            None => None,
        },
        reason: steps.reasons.as_slice().last().copied(),
    })
}

// The zone of that name, or UTC where none is named.
fn zone_copy(
    alloc: Global,
    zones: &ZoneTable,
    name: &Option<Text>,
) -> Result<Option<Shared<Zone>>, Refusal>
    ensures ok { IfOk result (λ z. z ≡ zone_named (zone_name name.now) (zones_of zones.now)) }
    ensures err { IfErr result (λ e. e ≡ OutOfMemory) }
{
    let name = match name {
        Some(name) => name.as_str(),
        None => "UTC",
    };
    match zones.get(name) {
        Some(zone) => Ok(Some(Shared::new(alloc, zone.try_copy(alloc)?)?)),
        None => Ok(None),
    }
}

// The plan of the CronJob's sync: the decision of what the cluster has of it.
fn plan_of(
    alloc: Global,
    zones: &ZoneTable,
    cluster: &Cluster,
    cron: &ClusterCron,
    now: Seconds,
) -> Result<Plan, Refusal>
    ensures ok { IfOk result (λ p. IsPlan (Some cron.now.cron) (seen.listed cluster.now cron.now)
        (seen.found cluster.now cron.now) now
        (zone_named (zone_name cron.now.cron.spec.time_zone) (zones_of zones.now)) p.steps) }
    ensures err { IfErr result (λ e. e ≡ OutOfMemory) }
{
    let jobs = listed(alloc, cluster, cron)?;
    let active = found(alloc, cluster, cron)?;
    let zone = zone_copy(alloc, zones, &cron.cron.spec.time_zone)?;
    decide(alloc, Some(cron.cron.share()?), jobs, active, now, zone)
}

/// The plan of a CronJob's sync at a moment, by a list of it and of its Jobs.
pub(crate) fn plan(
    alloc: Global,
    zones: &ZoneTable,
    list: &str,
    key: &Key,
    now: Seconds,
) -> Result<Decided, Refusal> {
    let read = match read_cluster(alloc, list.as_bytes(), zones) {
        Ok(read) => read,
        Err(ListFault::Memory) => return Err(Refusal::OutOfMemory),
        Err(_) => {
            let text = String::from_str(alloc, "it can't be read")?;
            return Ok(Decided::Refused("InvalidSpec", text));
        }
    };
    let Some(cron) = read.cluster.cron(key) else {
        return refused(alloc, list, &read.notes);
    };
    let plan = plan_of(alloc, zones, &read.cluster, cron.get(), now)?;
    Ok(Decided::Plan(planned(alloc, plan.steps(), passed_of(&plan))?))
}
