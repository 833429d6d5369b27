ghost use Rattle.std.specs.Prelude.{◌≡◌, None, IfOk, IfErr, option_copied};
ghost use Rattle.cj_base.specs.declared.refusal.Refusal.TheVariants.{OutOfMemory};
ghost use Rattle.cj_script.specs.operations.Plans.{IsPlanFor, inputs_at, inputs_of, no_inputs, reasons_at, reasons_of, zone_named_by, zone_of};

use cj_base::{all_four, both};
use cj_decide::{Plan, decide};
use cj_state::{InFlight, Phase};
use cj_types::{CronJob, Job, Listing, Reasons, Refusal, Seconds, Shared, Text, TryCopy};
use cj_zone::{Zone, ZoneTable};
use std::alloc::Global;

fn zone_named<'t>(zones: &'t ZoneTable, name: &Option<Text>) -> Option<&'t Zone>
    ensures { option_copied result ≡ zone_named_by zones.now name.now }
{
    match name {
        Some(name) => zones.get(name.as_str()),
        None => Some(zones.default_zone()),
    }
}

// A copy of the zone of that name, if it is known.
fn zone_copy(
    alloc: Global,
    zones: &ZoneTable,
    name: &Option<Text>,
) -> Result<Option<Shared<Zone>>, Refusal>
    ensures ok { IfOk result (λ z. z ≡ zone_named_by zones.now name.now) }
    ensures err { IfErr result (λ e. e ≡ OutOfMemory) }
{
    match zone_named(zones, name) {
        Some(zone) => Ok(Some(Shared::new(alloc, zone.try_copy(alloc)?)?)),
        None => Ok(None),
    }
}

// The zone of a CronJob, if it is known.
fn zone_of_cron(
    alloc: Global,
    zones: &ZoneTable,
    cron: &Option<Shared<CronJob>>,
) -> Result<Option<Shared<Zone>>, Refusal>
    ensures ok { IfOk result (λ z. z ≡ zone_of zones.now cron.now) }
    ensures err { IfErr result (λ e. e ≡ OutOfMemory) }
{
    match cron {
        Some(cron) => zone_copy(alloc, zones, &cron.get().spec.time_zone),
        None => Ok(None),
    }
}

fn plan_of(
    alloc: Global,
    zones: &ZoneTable,
    cron: &Option<Shared<CronJob>>,
    jobs: &Listing<Shared<Job>>,
    active: &Listing<Option<Shared<Job>>>,
    at: Seconds,
) -> Result<Plan, Refusal>
    ensures ok { IfOk result (IsPlanFor zones.now (record {
      cron = cron.now;
      jobs = jobs.now;
      active = active.now;
    }) at) }
    ensures err { IfErr result (λ e. e ≡ OutOfMemory) }
{
    let (zone, cron, jobs, active) = all_four(
        zone_of_cron(alloc, zones, cron),
        cron.try_copy(alloc),
        jobs.try_copy(alloc),
        active.try_copy(alloc),
    )?;
    decide(alloc, cron, jobs, active, at, zone)
}

// The plan of a sync that lacks one of the three readings.
fn empty_plan(alloc: Global, zones: &ZoneTable, at: Seconds) -> Result<Plan, Refusal>
    ensures ok { IfOk result (IsPlanFor zones.now no_inputs at) }
    ensures err { IfErr result (λ e. e ≡ OutOfMemory) }
{
    let (jobs, active) = both(
        Listing::new(alloc, Vec::new(alloc)),
        Listing::new(alloc, Vec::new(alloc)),
    )?;
    plan_of(alloc, zones, &None, &jobs, &active, at)
}

fn plan_at(alloc: Global, zones: &ZoneTable, phase: &Phase, at: Seconds) -> Result<Plan, Refusal>
    ensures ok { IfOk result (IsPlanFor zones.now (inputs_at phase.now) at) }
    ensures err { IfErr result (λ e. e ≡ OutOfMemory) }
{
    match phase {
        Phase::Checked(cron, jobs, active) => plan_of(alloc, zones, cron, jobs, active, at),
        _ => empty_plan(alloc, zones, at),
    }
}

/// The plan of what a worker's sync has seen, at the moment and in the CronJob's zone. A sync that
/// lacks one of the three readings, or whose plan is claimed, counts as one that has seen nothing.
pub(crate) fn plan_for(
    alloc: Global,
    zones: &ZoneTable,
    sync: Option<&InFlight>,
    at: Seconds,
) -> Result<Plan, Refusal>
    ensures ok { IfOk result (IsPlanFor zones.now (inputs_of (option_copied sync.entry)) at) }
    ensures err { IfErr result (λ e. e ≡ OutOfMemory) }
{
    match sync {
        Some(sync) => plan_at(alloc, zones, &sync.phase, at),
        None => empty_plan(alloc, zones, at),
    }
}

fn reasons_at(alloc: Global, phase: &Phase) -> Result<Reasons, Refusal>
    ensures ok { IfOk result (λ r. r ≡ reasons_at phase.now) }
    ensures err { IfErr result (λ e. e ≡ OutOfMemory) }
{
    match phase {
        Phase::Works(work) => work.plan.get().steps().reasons.try_copy(alloc),
        _ => Ok(Reasons::new(alloc)),
    }
}

/// The reasons of the plan that the worker's sync claimed; none where it claimed none.
pub(crate) fn reasons_for(alloc: Global, sync: Option<&InFlight>) -> Result<Reasons, Refusal>
    ensures ok { IfOk result (λ r. r ≡ reasons_of (option_copied sync.entry)) }
    ensures err { IfErr result (λ e. e ≡ OutOfMemory) }
{
    match sync {
        Some(sync) => reasons_at(alloc, &sync.phase),
        None => Ok(Reasons::new(alloc)),
    }
}
