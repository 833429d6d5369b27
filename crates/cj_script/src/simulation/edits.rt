// What a user does in a run, at instants of its clock.
ghost use Rattle.std.specs.Prelude.{◌≡◌, ◌≢◌, ◌≤◌, Ok, Err, IfOk, IfErr};
ghost use Rattle.serde_json.specs.Data.{depth};
ghost use Rattle.serde_json.specs.Read.{max_depth};
ghost use Rattle.serde_json.specs.View.{view};
ghost use Rattle.cj_zone.specs.Table.{zones_of};
ghost use Rattle.cj_scenario.specs.declared.fault.SceneFault.TheVariants.{Memory};
ghost use Rattle.cj_script.specs.simulation.Edits.{edit_of, edits_in, instant_in};

use crate::lists::{Reads, list_of};
use crate::operations::{present, time_at};
use crate::simulation::scenario::Edit;
use crate::simulation::span::Span;
use crate::step::{Action, action_of};
use cj_scenario::SceneFault;
use cj_types::Seconds;
use cj_zone::ZoneTable;
use serde_json::Value;
use std::alloc::Global;

// The instant of an edit.
fn instant_at(span: &Span, value: &Value) -> Option<Seconds>
    ensures { result ≡ instant_in span.now (view value.now) }
{
    let at = time_at(value, "at")?;
    if span.has(at) { Some(at) } else { None }
}

// The edit that a value says.
#[tactic(auto, unfolding(crate::specs::simulation::Edits::edit_of))]
fn edit_of(alloc: Global, zones: &ZoneTable, span: &Span, value: &Value) -> Result<Edit, SceneFault>
    requires flat { depth (view value.now) ≤ max_depth }
    ensures ok { IfOk result (λ e. edit_of (zones_of zones.now) span.now (view value.now) ≡ Ok e) }
    ensures err { IfErr result (λ e. e ≢ Memory →
        edit_of (zones_of zones.now) span.now (view value.now) ≡ Err e) }
{
    let Some(at) = instant_at(span, value) else {
        return Err(SceneFault::Form);
    };
    let Action { verb: _, operation } = action_of(alloc, zones, value)?;
    Ok(Edit { at, operation })
}

// Reads the edits of a scenario with these zones and this clock.
#[derive(Clone, Copy)]
struct Edits<'a> {
    zones: &'a ZoneTable,
    span: Span,
}

impl Reads for Edits<'_> {
    type Item = Edit;

    ghost said = { λ s d. edit_of (zones_of s.zones.now) s.span d };

    fn read(&self, alloc: Global, value: &Value) -> Result<Edit, SceneFault> {
        edit_of(alloc, self.zones, &self.span, value)
    }
}

/// The edits of a scenario, none where their list is missing: `Form` where one of them has another
/// form, else the first fault of a manifest.
pub(crate) fn edits_at(
    alloc: Global,
    zones: &ZoneTable,
    span: Span,
    value: &Value,
) -> Result<Vec<Edit>, SceneFault>
    requires flat { depth (view value.now) ≤ max_depth }
    ensures ok { IfOk result (λ es. edits_in (zones_of zones.now) span (view value.now)
        ≡ Ok es.items) }
    ensures err { IfErr result (λ e. e ≢ Memory →
        edits_in (zones_of zones.now) span (view value.now) ≡ Err e) }
{
    let Some(list) = present(value, "edits") else {
        return Ok(Vec::new(alloc));
    };
    let Some(values) = list.as_array() else {
        return Err(SceneFault::Form);
    };
    list_of(alloc, &Edits { zones, span }, values)
}
