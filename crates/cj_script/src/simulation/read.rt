// Reading the scenario of a run.
ghost use Rattle.std.specs.Prelude.{◌≡◌, ◌≢◌, ◌≤◌, Ok, Err, IfOk, IfErr};
ghost use Rattle.serde_json.specs.Data.{depth};
ghost use Rattle.serde_json.specs.Read.{max_depth};
ghost use Rattle.serde_json.specs.View.{view};
ghost use Rattle.cj_zone.specs.Table.{zones_of};
ghost use Rattle.cj_scenario.specs.declared.fault.SceneFault.TheVariants.{Memory};
ghost use Rattle.cj_script.specs.Lists.{fault_after};
ghost use Rattle.cj_script.specs.simulation.Simulations.{IsSimulation, IsRefusedSimulation, IsRefusedValue, Says, lists_in, told, told_in};
ghost use Rattle.cj_script.specs.simulation.Edits.{edits_in};

use crate::operations::present;
use crate::simulation::edits::edits_at;
use crate::simulation::run_lists::runs_at;
use crate::simulation::runs::Runs;
use crate::simulation::scenario::{Edit, Simulation};
use crate::simulation::seeds::crons_at;
use crate::simulation::span::Span;
use crate::simulation::times::span_at;
use cj_io::GivenZones;
use cj_scenario::{SceneFault, table_of, value_of};
use cj_types::{CronJobDraft, FieldFault, Shared};
use cj_zone::ZoneTable;
use serde_json::Value;
use std::alloc::Global;

// The CronJobs and the edits of a scenario.
#[derive(Drop)]
struct Lists {
    crons: Vec<Shared<CronJobDraft>>,
    edits: Vec<Edit>,
}

// What a scenario says, but for its zones.
#[derive(Drop)]
struct Content {
    span: Span,
    runs: Runs,
    lists: Lists,
}

// Why a scenario is refused of whose CronJobs this is the first fault in a manifest.
fn fault_of(
    alloc: Global,
    zones: &ZoneTable,
    span: Span,
    value: &Value,
    fault: FieldFault,
) -> SceneFault
    requires flat { depth (view value.now) ≤ max_depth }
    ensures { result ≢ Memory → fault_after fault
        (edits_in (zones_of zones.now) span (view value.now)) ≡ result }
{
    match edits_at(alloc, zones, span, value) {
        Ok(_) => SceneFault::Manifest(fault),
        Err(SceneFault::Manifest(_)) => SceneFault::Manifest(fault),
        Err(other) => other,
    }
}

fn lists_of(
    alloc: Global,
    zones: &ZoneTable,
    span: Span,
    value: &Value,
) -> Result<Lists, SceneFault>
    requires flat { depth (view value.now) ≤ max_depth }
    ensures ok { IfOk result (λ l. lists_in (zones_of zones.now) span (view value.now)
        ≡ Ok (l.crons.items, l.edits.items)) }
    ensures err { IfErr result (λ e. e ≢ Memory →
        lists_in (zones_of zones.now) span (view value.now) ≡ Err e) }
{
    match crons_at(alloc, zones, value) {
        Ok(crons) => {
            let edits = edits_at(alloc, zones, span, value)?;
            Ok(Lists { crons, edits })
        }
        Err(SceneFault::Manifest(fault)) => Err(fault_of(alloc, zones, span, value, fault)),
        Err(other) => Err(other),
    }
}

fn content_of(alloc: Global, zones: &ZoneTable, value: &Value) -> Result<Content, SceneFault>
    requires flat { depth (view value.now) ≤ max_depth }
    ensures ok { IfOk result (λ c. told_in (zones_of zones.now) (view value.now)
        ≡ Ok (told c.span c.runs (c.lists.crons.items, c.lists.edits.items))) }
    ensures err { IfErr result (λ e. e ≢ Memory →
        told_in (zones_of zones.now) (view value.now) ≡ Err e) }
{
    let Some(span) = span_at(value) else {
        return Err(SceneFault::Form);
    };
    let Some(runs) = runs_at(alloc, value)? else {
        return Err(SceneFault::Form);
    };
    let lists = lists_of(alloc, zones, span, value)?;
    Ok(Content { span, runs, lists })
}

// The scenario that the value says.
fn simulation_of(
    alloc: Global,
    given: GivenZones<'_>,
    value: &Value,
) -> Result<Simulation, SceneFault>
    requires flat { depth (view value.now) ≤ max_depth }
    ensures said { IfOk result (Says given.entry (view value.now)) }
    ensures refused { IfErr result (IsRefusedValue given.entry (view value.now)) }
{
    let zones = table_of(given, present(value, "zones"))?;
    let Content { span, runs, lists } = content_of(alloc, &zones, value)?;
    let Lists { crons, edits } = lists;
    Ok(Simulation {
        zones,
        span,
        crons,
        runs,
        edits,
    })
}

/// Reads the scenario of a run under the zones that are given. It is a JSON object with the times
/// `start` and `end` of its clock; `stepSeconds`, from one instant of the clock to the next, 1 to
/// 3,600, by default 60; and `cronJobs`, the manifests of the CronJobs that are there from the
/// start. It may have `runs`, an object from CronJobs' keys to lists of objects with `seconds` and
/// `outcome`, `Complete` or `Failed`, which say how their Jobs run; `edits`, a list of objects that
/// each say what a user does, `do`, with what that needs, and when, `at`, an instant of the clock;
/// and `zones`, an object from names to POSIX rules. Members of other names, or that are null, are
/// ignored.
///
/// Refused in this order: `Syntax` for bytes that aren't JSON, `Form` for a value of another form
/// or with a zone that is refused, and `Manifest` with the first fault of the first manifest that
/// has one, those of `cronJobs` before those of `edits`.
pub fn read_simulation(
    alloc: Global,
    given: GivenZones<'_>,
    bytes: &[u8],
) -> Result<Simulation, SceneFault>
    ensures read { IfOk result (IsSimulation given.entry bytes.now) }
    ensures refused { IfErr result (IsRefusedSimulation given.entry bytes.now) }
{
    let value = value_of(alloc, bytes)?;
    simulation_of(alloc, given, &value)
}
