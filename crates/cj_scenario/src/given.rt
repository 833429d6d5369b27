// The Jobs of a scenario.
ghost use Rattle.std.specs.Prelude.{◌≡◌, ◌/◌, List, [], false, Some, IfOk, IfErr, IfSome, option_map};
ghost use Rattle.std.specs.BTreeSet.{contains};
ghost use Rattle.std.specs.Ordering.{nat_cmp};
ghost use Rattle.serde_json.specs.View.{view, items_view};
ghost use Rattle.cj_manifest.specs.Members.{present as member_at};
ghost use Rattle.cj_scenario.specs.Minutes.{AddsMinute};
ghost use Rattle.cj_scenario.specs.Scenes as form;
ghost use Rattle.cj_scenario.specs.declared.given.GivenJob.{GivenJob};

use crate::fault::SceneFault;
use crate::times::{present, time_at};
use cj_types::{Outcome, Seconds};
use serde_json::Value;
use std::alloc::Global;
use std::collections::BTreeSet;

/// A Job as a scenario gives it: its time, and how it ended, if it did.
#[derive(Clone, Copy, Debug)]
pub(crate) struct GivenJob {
    pub time: Seconds,
    pub outcome: Option<Outcome>,
}

fn outcome_named(time: Seconds, word: &str) -> Option<Option<Outcome>>
    ensures { result ≡ form.outcome_named time word.now }
{
    if word == "Running" {
        Some(None)
    } else if word == "Complete" {
        Some(Some(Outcome::Complete(time)))
    } else if word == "Failed" {
        Some(Some(Outcome::Failed))
    } else {
        None
    }
}

fn outcome_at(time: Seconds, value: &Value, name: &str) -> Option<Option<Outcome>>
    ensures { result ≡ form.outcome_in time (member_at name.now (view value.now)) }
{
    let word = present(value, name)?.as_str()?;
    outcome_named(time, word)
}

fn given(value: &Value) -> Option<GivenJob>
    ensures found { IfSome result (form.IsGiven (view value.now)) }
    ensures only { (job : GivenJob) → form.IsGiven (view value.now) job → result ≡ Some job }
{
    let time = time_at(value, "time")?;
    let outcome = outcome_at(time, value, "outcome")?;
    Some(GivenJob { time, outcome })
}

// The Job that a value says, in a minute in which no other Job is. Adds its minute to theirs.
fn new_job(minutes: &mut BTreeSet<u64>, value: &Value) -> Result<GivenJob, SceneFault>
    ensures ok { IfOk result (form.IsGiven (view value.now)) }
    ensures only { IfOk result (λ job. (other : GivenJob) → form.IsGiven (view value.now) other →
        other ≡ job) }
    ensures free { IfOk result (λ job. contains nat_cmp minutes.old (job.time / 60) ≡ false) }
    ensures added { IfOk result (λ job. AddsMinute minutes.old (job.time / 60) minutes.new) }
    ensures refused { IfErr result (λ e. form.Refuses e ((job : GivenJob) →
        form.IsGiven (view value.now) job → contains nat_cmp minutes.old (job.time / 60) ≡ false →
        ⊥)) }
{
    let Some(job) = given(value) else {
        return Err(SceneFault::Form);
    };
    match minutes.insert(job.time.get() / 60) {
        Ok(true) => Ok(job),
        Ok(false) => Err(SceneFault::Form),
        Err(_) => Err(SceneFault::Memory),
    }
}

fn items_of(alloc: Global, items: &Vec<Value>) -> Result<Vec<GivenJob>, SceneFault>
    ensures ok { IfOk result (λ jobs. form.AddsItems [] (items_view items.now.items) jobs.items) }
    ensures refused { IfErr result (λ e. form.Refuses e ((all : List GivenJob) →
        form.AddsItems [] (items_view items.now.items) all → ⊥)) }
{
    let mut jobs = Vec::new(alloc);
    let mut minutes = BTreeSet::new(alloc);
    for item in items {
        let GivenJob { time, outcome } = new_job(&mut minutes, item)?;
        jobs.push(GivenJob { time, outcome })
            .map_err(|_| SceneFault::Memory)?;
    }
    Ok(jobs)
}

/// The Jobs of a list, where there is one.
pub(crate) fn jobs_of(alloc: Global, list: Option<&Value>) -> Result<Vec<GivenJob>, SceneFault>
    ensures ok { IfOk result (λ jobs. form.AreJobs (option_map (λ v. view v.now) list.entry)
        jobs.items) }
    ensures refused { IfErr result (λ e. form.Refuses e ((all : List GivenJob) →
        form.AreJobs (option_map (λ v. view v.now) list.entry) all → ⊥)) }
{
    match list {
        None => Ok(Vec::new(alloc)),
        Some(found) => match found.as_array() {
            Some(items) => items_of(alloc, items),
            None => Err(SceneFault::Form),
        },
    }
}
