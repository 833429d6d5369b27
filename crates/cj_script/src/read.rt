// Reading a script's bytes.
ghost use Rattle.std.specs.Prelude.{◌≡◌, ◌≢◌, ◌≤◌, Ok, Err, Some, IfOk, IfErr};
ghost use Rattle.serde_json.specs.Data.{depth};
ghost use Rattle.serde_json.specs.Read.{max_depth};
ghost use Rattle.serde_json.specs.View.{view};
ghost use Rattle.cj_zone.specs.Table.{zones_of};
ghost use Rattle.cj_scenario.specs.declared.fault.SceneFault.TheVariants.{Memory};
ghost use Rattle.cj_script.specs.Scripts.{IsScript, IsRefusedScript, IsRefusedValue, Says, told_in};

use crate::callers::callers_at;
use crate::limits::limits_at;
use crate::operations::present;
use crate::script::Script;
use crate::step::Step;
use crate::steps::steps_of;
use cj_io::GivenZones;
use cj_scenario::{SceneFault, table_of, value_of};
use cj_types::Limits;
use cj_zone::ZoneTable;
use serde_json::Value;
use std::alloc::Global;

// What a script says, but for its zones.
#[derive(Drop)]
struct Told {
    limits: Limits,
    steps: Vec<Step>,
}

fn told_of(alloc: Global, zones: &ZoneTable, value: &Value) -> Result<Told, SceneFault>
    requires flat { depth (view value.now) ≤ max_depth }
    ensures ok { IfOk result (λ t. told_in (zones_of zones.now) (view value.now)
        ≡ Ok (t.limits, t.steps.items)) }
    ensures err { IfErr result (λ e. e ≢ Memory →
        told_in (zones_of zones.now) (view value.now) ≡ Err e) }
{
    let Some(limits) = limits_at(value) else {
        return Err(SceneFault::Form);
    };
    let Some(callers) = callers_at(alloc, value)? else {
        return Err(SceneFault::Form);
    };
    let Some(list) = present(value, "steps") else {
        return Err(SceneFault::Form);
    };
    let Some(items) = list.as_array() else {
        return Err(SceneFault::Form);
    };
    let steps = steps_of(alloc, zones, callers.as_slice(), items)?;
    Ok(Told { limits, steps })
}

// The script that the value says.
fn script_of(alloc: Global, given: GivenZones<'_>, value: &Value) -> Result<Script, SceneFault>
    requires flat { depth (view value.now) ≤ max_depth }
    ensures said { IfOk result (Says given.entry (view value.now)) }
    ensures refused { IfErr result (IsRefusedValue given.entry (view value.now)) }
{
    let zones = table_of(given, present(value, "zones"))?;
    let Told { limits, steps } = told_of(alloc, &zones, value)?;
    Ok(Script {
        zones,
        limits,
        steps,
    })
}

/// Reads a script under the zones that are given. It is a JSON object with `callers`, an object
/// from names to roles, `User`, `Runner`, `Informer` or `Worker`; and `steps`, a list of objects
/// that each say `who` does what, `do`, with what that needs. It may have `zones`, an object from
/// names to POSIX rules, and the limits `history` and `window`, by default 1,048,576 and 1,000.
/// Members of other names, or that are null, are ignored.
///
/// Refused in this order: `Syntax` for bytes that aren't JSON, `Form` for a value of another form
/// or with a zone that is refused, and `Manifest` with the first fault of the first manifest that
/// has one.
pub fn read_script(alloc: Global, given: GivenZones<'_>, bytes: &[u8]) -> Result<Script, SceneFault>
    ensures read { IfOk result (IsScript given.entry bytes.now) }
    ensures refused { IfErr result (IsRefusedScript given.entry bytes.now) }
{
    let value = value_of(alloc, bytes)?;
    script_of(alloc, given, &value)
}
