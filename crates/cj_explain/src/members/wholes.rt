// The members of each form, in the order in which they are looked at.
ghost use Rattle.std.specs.Prelude.{◌≡◌, ◌≢◌, Ok, Err, IfOk, IfErr};
ghost use Rattle.serde_json.specs.View.{view};
ghost use Rattle.cj_explain.specs.declared.members.wrong.Wrong.TheVariants.{Memory};
ghost use Rattle.cj_explain.specs.members.Wholes as said;

use crate::members::entries::{Entry, entries};
use crate::members::items::{Item, items};
use crate::members::member::{may, must};
use crate::members::want::{Range, Want, Word};
use crate::members::wrong::Wrong;
use cj_scenario::Form;
use serde_json::Value;
use std::alloc::Global;

fn zones(alloc: Global, value: &Value) -> Result<(), Wrong>
    ensures ok { IfOk result (λ _. said.zones (view value.now) ≡ Ok tt) }
    ensures err { IfErr result (λ e. e ≢ Memory → said.zones (view value.now) ≡ Err e) }
{
    may(alloc, "", value, "zones", Want::Object)?;
    entries(alloc, Entry::Zone, value, "zones")
}

fn jobs(alloc: Global, value: &Value) -> Result<(), Wrong>
    ensures ok { IfOk result (λ _. said.jobs (view value.now) ≡ Ok tt) }
    ensures err { IfErr result (λ e. e ≢ Memory → said.jobs (view value.now) ≡ Err e) }
{
    may(alloc, "", value, "jobs", Want::List)?;
    items(alloc, Item::Job, value, "jobs")
}

fn scenario(alloc: Global, value: &Value) -> Result<(), Wrong>
    ensures ok { IfOk result (λ _. said.scenario (view value.now) ≡ Ok tt) }
    ensures err { IfErr result (λ e. e ≢ Memory → said.scenario (view value.now) ≡ Err e) }
{
    must(alloc, "", value, "manifest", Want::Manifest)?;
    must(alloc, "", value, "created", Want::Text(Word::Time))?;
    may(alloc, "", value, "last", Want::Text(Word::Time))?;
    jobs(alloc, value)?;
    zones(alloc, value)
}

fn limits(alloc: Global, value: &Value) -> Result<(), Wrong>
    ensures ok { IfOk result (λ _. said.limits (view value.now) ≡ Ok tt) }
    ensures err { IfErr result (λ e. e ≢ Memory → said.limits (view value.now) ≡ Err e) }
{
    may(alloc, "", value, "history", Want::Number(Range::History))?;
    may(alloc, "", value, "window", Want::Number(Range::Window))
}

fn callers(alloc: Global, value: &Value) -> Result<(), Wrong>
    ensures ok { IfOk result (λ _. said.callers (view value.now) ≡ Ok tt) }
    ensures err { IfErr result (λ e. e ≢ Memory → said.callers (view value.now) ≡ Err e) }
{
    must(alloc, "", value, "callers", Want::Object)?;
    entries(alloc, Entry::Caller, value, "callers")
}

fn steps(alloc: Global, value: &Value) -> Result<(), Wrong>
    ensures ok { IfOk result (λ _. said.steps (view value.now) ≡ Ok tt) }
    ensures err { IfErr result (λ e. e ≢ Memory → said.steps (view value.now) ≡ Err e) }
{
    must(alloc, "", value, "steps", Want::List)?;
    items(alloc, Item::Step, value, "steps")
}

fn script(alloc: Global, value: &Value) -> Result<(), Wrong>
    ensures ok { IfOk result (λ _. said.script (view value.now) ≡ Ok tt) }
    ensures err { IfErr result (λ e. e ≢ Memory → said.script (view value.now) ≡ Err e) }
{
    limits(alloc, value)?;
    callers(alloc, value)?;
    steps(alloc, value)?;
    zones(alloc, value)
}

fn span(alloc: Global, value: &Value) -> Result<(), Wrong>
    ensures ok { IfOk result (λ _. said.span (view value.now) ≡ Ok tt) }
    ensures err { IfErr result (λ e. e ≢ Memory → said.span (view value.now) ≡ Err e) }
{
    must(alloc, "", value, "start", Want::Text(Word::Time))?;
    must(alloc, "", value, "end", Want::Text(Word::Time))?;
    may(alloc, "", value, "stepSeconds", Want::Number(Range::Step))
}

fn seeds(alloc: Global, value: &Value) -> Result<(), Wrong>
    ensures ok { IfOk result (λ _. said.seeds (view value.now) ≡ Ok tt) }
    ensures err { IfErr result (λ e. e ≢ Memory → said.seeds (view value.now) ≡ Err e) }
{
    must(alloc, "", value, "cronJobs", Want::List)?;
    items(alloc, Item::Seed, value, "cronJobs")
}

fn runs(alloc: Global, value: &Value) -> Result<(), Wrong>
    ensures ok { IfOk result (λ _. said.runs (view value.now) ≡ Ok tt) }
    ensures err { IfErr result (λ e. e ≢ Memory → said.runs (view value.now) ≡ Err e) }
{
    may(alloc, "", value, "runs", Want::Object)?;
    entries(alloc, Entry::Runs, value, "runs")
}

fn edits(alloc: Global, value: &Value) -> Result<(), Wrong>
    ensures ok { IfOk result (λ _. said.edits (view value.now) ≡ Ok tt) }
    ensures err { IfErr result (λ e. e ≢ Memory → said.edits (view value.now) ≡ Err e) }
{
    may(alloc, "", value, "edits", Want::List)?;
    items(alloc, Item::Edit, value, "edits")
}

fn simulation(alloc: Global, value: &Value) -> Result<(), Wrong>
    ensures ok { IfOk result (λ _. said.simulation (view value.now) ≡ Ok tt) }
    ensures err { IfErr result (λ e. e ≢ Memory → said.simulation (view value.now) ≡ Err e) }
{
    span(alloc, value)?;
    seeds(alloc, value)?;
    runs(alloc, value)?;
    edits(alloc, value)?;
    zones(alloc, value)
}

/// A value that is to be of that form.
pub(crate) fn whole(alloc: Global, form: Form, value: &Value) -> Result<(), Wrong>
    ensures ok { IfOk result (λ _. said.whole form (view value.now) ≡ Ok tt) }
    ensures err { IfErr result (λ e. e ≢ Memory → said.whole form (view value.now) ≡ Err e) }
{
    match form {
        Form::Scenario => scenario(alloc, value),
        Form::Script => script(alloc, value),
        Form::Simulation => simulation(alloc, value),
        _ => Ok(()),
    }
}
