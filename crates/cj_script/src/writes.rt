// What a step does whose verb takes a manifest: one function for each verb.
ghost use Rattle.std.specs.Prelude.{◌≡◌, ◌≢◌, ◌≤◌, Ok, Err, IfOk, IfErr};
ghost use Rattle.serde_json.specs.Data.{depth};
ghost use Rattle.serde_json.specs.Read.{max_depth};
ghost use Rattle.serde_json.specs.View.{view};
ghost use Rattle.cj_zone.specs.Table.{zones_of};
ghost use Rattle.cj_scenario.specs.declared.fault.SceneFault.TheVariants.{Memory};
ghost use Rattle.cj_script.specs.Writes as said;

use crate::drafts::{cron_said, job_said};
use crate::operations::{Operation, Write, present, time_at};
use cj_calls::Call;
use cj_scenario::SceneFault;
use cj_zone::ZoneTable;
use serde_json::Value;
use std::alloc::Global;

fn create_cron(alloc: Global, zones: &ZoneTable, value: &Value) -> Result<Operation, SceneFault>
    requires flat { depth (view value.now) ≤ max_depth }
    ensures ok { IfOk result (λ a. said.create_cron (zones_of zones.now) (view value.now) ≡ Ok a) }
    ensures err { IfErr result (λ e. e ≢ Memory →
        said.create_cron (zones_of zones.now) (view value.now) ≡ Err e) }
{
    let Some(at) = time_at(value, "at") else {
        return Err(SceneFault::Form);
    };
    let Some(manifest) = present(value, "object") else {
        return Err(SceneFault::Form);
    };
    let draft = cron_said(alloc, zones, manifest)?;
    Ok(Operation::Calls(Call::CreateCron(draft, at)))
}

fn update_cron(alloc: Global, zones: &ZoneTable, value: &Value) -> Result<Operation, SceneFault>
    requires flat { depth (view value.now) ≤ max_depth }
    ensures ok { IfOk result (λ a. said.update_cron (zones_of zones.now) (view value.now) ≡ Ok a) }
    ensures err { IfErr result (λ e. e ≢ Memory →
        said.update_cron (zones_of zones.now) (view value.now) ≡ Err e) }
{
    let Some(manifest) = present(value, "object") else {
        return Err(SceneFault::Form);
    };
    let draft = cron_said(alloc, zones, manifest)?;
    Ok(Operation::Calls(Call::UpdateCron(draft)))
}

fn create_job(alloc: Global, value: &Value) -> Result<Operation, SceneFault>
    requires flat { depth (view value.now) ≤ max_depth }
    ensures ok { IfOk result (λ a. said.create_job (view value.now) ≡ Ok a) }
    ensures err { IfErr result (λ e. e ≢ Memory → said.create_job (view value.now) ≡ Err e) }
{
    let Some(at) = time_at(value, "at") else {
        return Err(SceneFault::Form);
    };
    let Some(manifest) = present(value, "object") else {
        return Err(SceneFault::Form);
    };
    let draft = job_said(alloc, manifest)?;
    Ok(Operation::Calls(Call::CreateJob(draft, at)))
}

fn update_job(alloc: Global, value: &Value) -> Result<Operation, SceneFault>
    requires flat { depth (view value.now) ≤ max_depth }
    ensures ok { IfOk result (λ a. said.update_job (view value.now) ≡ Ok a) }
    ensures err { IfErr result (λ e. e ≢ Memory → said.update_job (view value.now) ≡ Err e) }
{
    let Some(manifest) = present(value, "object") else {
        return Err(SceneFault::Form);
    };
    let draft = job_said(alloc, manifest)?;
    Ok(Operation::Calls(Call::UpdateJob(draft)))
}

/// What a step with this verb does under the zones: `Form` where its time or its manifest is
/// missing, else the manifest's first fault.
pub(crate) fn write_operation(
    alloc: Global,
    zones: &ZoneTable,
    verb: Write,
    value: &Value,
) -> Result<Operation, SceneFault>
    requires flat { depth (view value.now) ≤ max_depth }
    ensures ok { IfOk result (λ a. said.write_operation (zones_of zones.now) verb (view value.now)
        ≡ Ok a) }
    ensures err { IfErr result (λ e. e ≢ Memory →
        said.write_operation (zones_of zones.now) verb (view value.now) ≡ Err e) }
{
    match verb {
        Write::CreateCron => create_cron(alloc, zones, value),
        Write::UpdateCron => update_cron(alloc, zones, value),
        Write::CreateJob => create_job(alloc, value),
        Write::UpdateJob => update_job(alloc, value),
    }
}
