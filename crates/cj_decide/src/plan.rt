ghost use Rattle.std.specs.Prelude.{◌≡◌, IfOk, IfErr, option_copied};
ghost use Rattle.cj_base.specs.declared.refusal.Refusal.TheVariants.{OutOfMemory};
ghost use Rattle.cj_decide.specs.Decision.{IsDecided, IsPlan};

use crate::steps::{Steps, plan_steps};
use cj_base::{all_three, both};
use cj_types::{CronJob, Job, Listing, Refusal, Same, Seconds, Shared, TryCopy};
use cj_zone::Zone;
use std::alloc::Global;
use std::marker::Model;

/// The steps of a sync of a CronJob, with their inputs: the CronJob, the listed Jobs, the answer of
/// a live read for each name of its `status.active`, the moment and the zone.
///
/// Its type keeps that the steps are the decision of the inputs. Contracts see both. Copies share
/// all of it.
pub struct Plan {
    cron: Option<Shared<CronJob>>,
    jobs: Listing<Shared<Job>>,
    active: Listing<Option<Shared<Job>>>,
    at: Seconds,
    zone: Option<Shared<Zone>>,
    steps: Shared<Steps>,
}

impl Model for Plan {
    ghost use Rattle.cj_decide.specs.Decision.{Planned, IsDecided};

    ghost Value = { Planned };

    ghost view = { λ p. record {
      cron = p.cron;
      jobs = p.jobs;
      active = p.active;
      at = p.at;
      zone = p.zone;
      steps = p.steps;
    } };

    ghost invariant = { λ p. IsDecided (record {
      cron = p.cron;
      jobs = p.jobs;
      active = p.active;
      at = p.at;
      zone = p.zone;
      steps = p.steps;
    }) };
}

impl Drop for Plan {
    fn drop(self) {
        let Plan {
            cron,
            jobs: _,
            active: _,
            at: _,
            zone,
            steps: _,
        } = self;
        drop(cron);
        drop(zone);
    }
}

fn seen<T>(value: &Option<Shared<T>>) -> Option<&T>
    ensures { option_copied result ≡ value.now }
{
    match value {
        Some(value) => Some(value.get()),
        None => None,
    }
}

// The steps of the sync with these inputs, as a shared value.
fn shared_steps(
    alloc: Global,
    cron: Option<&CronJob>,
    jobs: &[Shared<Job>],
    found: &[Option<Shared<Job>>],
    now: Seconds,
    zone: Option<&Zone>,
) -> Result<Shared<Steps>, Refusal>
    ensures ok { IfOk result (λ s. IsPlan (option_copied cron.entry) jobs.now found.now now
        (option_copied zone.entry) s) }
    ensures err { IfErr result (λ e. e ≡ OutOfMemory) }
{
    let steps = plan_steps(alloc, cron, jobs, found, now, zone)?;
    Shared::new(alloc, steps)
}

/// The one plan of these inputs: a CronJob or none, the Jobs listed for it, the answers of a live
/// read for the names of its `status.active` in their order, the moment, and its zone, if that is
/// known.
pub fn decide(
    alloc: Global,
    cron: Option<Shared<CronJob>>,
    jobs: Listing<Shared<Job>>,
    active: Listing<Option<Shared<Job>>>,
    now: Seconds,
    zone: Option<Shared<Zone>>,
) -> Result<Plan, Refusal>
    ensures cron { IfOk result (λ p. p.cron ≡ cron) }
    ensures jobs { IfOk result (λ p. p.jobs ≡ jobs) }
    ensures active { IfOk result (λ p. p.active ≡ active) }
    ensures at { IfOk result (λ p. p.at ≡ now) }
    ensures zone { IfOk result (λ p. p.zone ≡ zone) }
    ensures decided { IfOk result (λ p. IsDecided p) }
    ensures err { IfErr result (λ e. e ≡ OutOfMemory) }
{
    let steps = shared_steps(
        alloc,
        seen(&cron),
        jobs.as_slice(),
        active.as_slice(),
        now,
        seen(&zone),
    )?;
    Ok(Plan {
        cron,
        jobs,
        active,
        at: now,
        zone,
        steps,
    })
}

impl Plan {
    /// The steps of the plan.
    pub fn steps(&self) -> &Steps
        ensures steps { result.now ≡ self.now.steps }
        ensures decided { IsDecided self.now }
    {
        self.steps.get()
    }

    /// The CronJob of the plan's inputs, if there is one.
    pub fn cron(&self) -> &Option<Shared<CronJob>>
        ensures { result.now ≡ self.now.cron }
    {
        &self.cron
    }

    /// The listed Jobs of the plan's inputs.
    pub fn jobs(&self) -> &[Shared<Job>]
        ensures { result.now ≡ self.now.jobs }
    {
        self.jobs.as_slice()
    }

    /// The answers of the live read for the CronJob's active names.
    pub fn active(&self) -> &[Option<Shared<Job>>]
        ensures { result.now ≡ self.now.active }
    {
        self.active.as_slice()
    }

    /// The moment of the plan.
    pub fn moment(&self) -> Seconds
        ensures { result ≡ self.now.at }
    {
        self.at
    }

    /// The zone of the plan's inputs, if it is known.
    pub fn zone(&self) -> &Option<Shared<Zone>>
        ensures { result.now ≡ self.now.zone }
    {
        &self.zone
    }
}

impl TryCopy for Plan {
    fn try_copy(&self, alloc: Global) -> Result<Plan, Refusal> {
        let ((cron, jobs, active), (zone, steps)) = both(
            all_three(
                self.cron.try_copy(alloc),
                self.jobs.try_copy(alloc),
                self.active.try_copy(alloc),
            ),
            both(self.zone.try_copy(alloc), self.steps.try_copy(alloc)),
        )?;
        Ok(Plan {
            cron,
            jobs,
            active,
            at: self.at,
            zone,
            steps,
        })
    }
}

impl Same for Plan {
    fn same(&self, other: &Plan) -> bool {
        let cron = self.cron.same(&other.cron);
        let jobs = self.jobs.same(&other.jobs);
        let active = self.active.same(&other.active);
        let at = self.at == other.at;
        let zone = self.zone.same(&other.zone);
        let steps = self.steps.same(&other.steps);
        cron && jobs && active && at && zone && steps
    }
}
