// The steps of a script, one after another.
ghost use Rattle.std.specs.Prelude.{◌≡◌, ◌≢◌, ◌≤◌, Ok, Err, IfOk, IfErr};
ghost use Rattle.serde_json.specs.Data.{items_depth};
ghost use Rattle.serde_json.specs.Read.{max_depth};
ghost use Rattle.serde_json.specs.View.{items_view};
ghost use Rattle.cj_zone.specs.Table.{zones_of};
ghost use Rattle.cj_scenario.specs.declared.fault.SceneFault.TheVariants.{Memory};
ghost use Rattle.cj_script.specs.Steps.{step_of, steps_of};

use crate::callers::Named;
use crate::lists::{Reads, list_of};
use crate::step::{Step, step_of};
use cj_scenario::SceneFault;
use cj_zone::ZoneTable;
use serde_json::Value;
use std::alloc::Global;

// Reads the steps of a script with these zones and callers.
#[derive(Clone, Copy)]
struct Steps<'a> {
    zones: &'a ZoneTable,
    callers: &'a [Named],
}

impl Reads for Steps<'_> {
    type Item = Step;

    ghost said = { λ s d. step_of (zones_of s.zones.now) s.callers.now d };

    fn read(&self, alloc: Global, value: &Value) -> Result<Step, SceneFault> {
        step_of(alloc, self.zones, self.callers, value)
    }
}

/// The steps of a list: `Form` where one of them has another form, else the first fault of a
/// manifest.
pub(crate) fn steps_of(
    alloc: Global,
    zones: &ZoneTable,
    callers: &[Named],
    items: &Vec<Value>,
) -> Result<Vec<Step>, SceneFault>
    requires flat { items_depth (items_view items.now.items) ≤ max_depth }
    ensures ok { IfOk result (λ ss. steps_of (zones_of zones.now) callers.now
        (items_view items.now.items) ≡ Ok ss.items) }
    ensures err { IfErr result (λ e. e ≢ Memory →
        steps_of (zones_of zones.now) callers.now (items_view items.now.items) ≡ Err e) }
{
    list_of(alloc, &Steps { zones, callers }, items)
}
