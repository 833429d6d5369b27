// One step of a script.
ghost use Rattle.std.specs.Prelude.{◌≡◌, ◌≢◌, ◌≤◌, Ok, Err, IfOk, IfErr, option_copied};
ghost use Rattle.serde_json.specs.Data.{depth};
ghost use Rattle.serde_json.specs.Read.{max_depth};
ghost use Rattle.serde_json.specs.View.{view};
ghost use Rattle.cj_zone.specs.Table.{zones_of};
ghost use Rattle.cj_scenario.specs.declared.fault.SceneFault.TheVariants.{Memory};
ghost use Rattle.cj_script.specs.Steps as said;

use crate::callers::{Named, caller_named};
use crate::operations::{Operation, Verb, plain_operation, present, verb_named};
use crate::writes::write_operation;
use cj_base::{Shared, Text};
use cj_calls::Caller;
use cj_scenario::SceneFault;
use cj_zone::ZoneTable;
use serde_json::Value;
use std::alloc::Global;

/// What a step does: the verb with its operation.
#[derive(Drop)]
pub(crate) struct Action {
    pub verb: Verb,
    pub operation: Operation,
}

/// Who does what: the caller with its name, and the verb with its operation.
pub struct Step {
    pub who: Shared<Text>,
    pub caller: Caller,
    pub verb: Verb,
    pub operation: Operation,
}

impl Drop for Step {
    fn drop(self) {
        let Step {
            who: _,
            caller: _,
            verb: _,
            operation,
        } = self;
        drop(operation);
    }
}

fn who_at<'c>(callers: &'c [Named], value: &Value) -> Option<&'c Named>
    ensures { option_copied result ≡ said.who_in callers.now (view value.now) }
{
    caller_named(callers, present(value, "who")?.as_str()?)
}

fn verb_at(value: &Value) -> Option<Verb>
    ensures { result ≡ said.verb_in (view value.now) }
{
    verb_named(present(value, "do")?.as_str()?)
}

fn operation_of(
    alloc: Global,
    zones: &ZoneTable,
    verb: Verb,
    value: &Value,
) -> Result<Operation, SceneFault>
    requires flat { depth (view value.now) ≤ max_depth }
    ensures ok { IfOk result (λ a.
        said.operation_of (zones_of zones.now) verb (view value.now) ≡ Ok a) }
    ensures err { IfErr result (λ e. e ≢ Memory →
        said.operation_of (zones_of zones.now) verb (view value.now) ≡ Err e) }
{
    match verb {
        Verb::Writes(write) => write_operation(alloc, zones, write, value),
        Verb::Does(plain) => match plain_operation(alloc, plain, value)? {
            Some(operation) => Ok(operation),
            None => Err(SceneFault::Form),
        },
    }
}

/// The action that a value says, under these zones: `Form` where it has another form, else its
/// manifest's first fault.
#[tactic(auto, unfolding(crate::specs::Steps::action_in))]
pub(crate) fn action_of(
    alloc: Global,
    zones: &ZoneTable,
    value: &Value,
) -> Result<Action, SceneFault>
    requires flat { depth (view value.now) ≤ max_depth }
    ensures ok { IfOk result (λ s. said.action_in (zones_of zones.now) (view value.now) ≡ Ok s) }
    ensures err { IfErr result (λ e. e ≢ Memory →
        said.action_in (zones_of zones.now) (view value.now) ≡ Err e) }
{
    let Some(verb) = verb_at(value) else {
        return Err(SceneFault::Form);
    };
    let operation = operation_of(alloc, zones, verb, value)?;
    Ok(Action { verb, operation })
}

/// The step that a value says, by these callers and under these zones: `Form` where it has another
/// form, else its manifest's first fault.
#[tactic(auto, unfolding(crate::specs::Steps::step_of))]
pub(crate) fn step_of(
    alloc: Global,
    zones: &ZoneTable,
    callers: &[Named],
    value: &Value,
) -> Result<Step, SceneFault>
    requires flat { depth (view value.now) ≤ max_depth }
    ensures ok { IfOk result (λ s. said.step_of (zones_of zones.now) callers.now (view value.now)
        ≡ Ok s) }
    ensures err { IfErr result (λ e. e ≢ Memory →
        said.step_of (zones_of zones.now) callers.now (view value.now) ≡ Err e) }
{
    let Some(named) = who_at(callers, value) else {
        return Err(SceneFault::Form);
    };
    let who = named.name.share()?;
    let Action { verb, operation } = action_of(alloc, zones, value)?;
    Ok(Step {
        who,
        caller: named.caller,
        verb,
        operation,
    })
}
