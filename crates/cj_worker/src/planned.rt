ghost use Rattle.std.specs.Prelude.{◌≡◌, IfOk, IfErr};
ghost use Rattle.cj_base.specs.declared.refusal.Refusal.TheVariants.{OutOfMemory};
ghost use Rattle.cj_decide.specs.Decision.{RestsOn};
ghost use Rattle.cj_worker.specs.Outlines.{IsOutline};
ghost use Rattle.cj_worker.specs.Syncs.{IsTimely};

use crate::context::SyncContext;
use crate::gate::{Clock, Gate};
use crate::outline::Outline;
use crate::zones::zone_for;
use cj_base::both;
use cj_decide::{Plan, decide};
use cj_types::{CronJob, Job, Listing, Refusal, Shared};
use std::alloc::Global;

/// A plan with what it asks for after its claim.
#[derive(Drop)]
pub(crate) struct Decided {
    pub(crate) plan: Shared<Plan>,
    pub(crate) outline: Outline,
}

// The plan to be shared, with its outline.
fn with_outline(alloc: Global, plan: Plan) -> Result<Decided, Refusal>
    ensures plan { IfOk result (λ d. d.plan ≡ plan) }
    ensures outline { IfOk result (λ d. IsOutline plan d.outline) }
    ensures memory { IfErr result (λ e. e ≡ OutOfMemory) }
{
    let outline = Outline::of(alloc, &plan);
    let (outline, plan) = both(outline, Shared::new(alloc, plan))?;
    Ok(Decided { plan, outline })
}

/// The decision on what was seen, at one reading of the clock.
pub(crate) fn decide_now<G: Gate, C: Clock>(
    context: SyncContext<'_, G, C>,
    cron: Option<Shared<CronJob>>,
    jobs: Listing<Shared<Job>>,
    active: Listing<Option<Shared<Job>>>,
) -> Result<Decided, Refusal>
    ensures timely { IfOk result (λ d. IsTimely (C.gives context.entry.clock.now)
        context.entry.zones.now d.plan) }
    ensures inputs { IfOk result (λ d. RestsOn d.plan cron jobs active) }
    ensures outline { IfOk result (λ d. IsOutline d.plan d.outline) }
    ensures memory { IfErr result (λ e. e ≡ OutOfMemory) }
{
    let SyncContext {
        alloc,
        gate: _,
        clock,
        zones,
    } = context;
    let reading = clock.now();
    let zone = zone_for(alloc, zones, &cron);
    let (zone, seen) = both(zone, Ok((cron, jobs, active)))?;
    let (cron, jobs, active) = seen;
    let plan = decide(alloc, cron, jobs, active, reading.seconds, zone)?;
    with_outline(alloc, plan)
}
