// The CronJobs that are there from the start.
ghost use Rattle.std.specs.Prelude.{◌≡◌, ◌≢◌, ◌≤◌, Ok, Err, IfOk, IfErr};
ghost use Rattle.serde_json.specs.Data.{depth};
ghost use Rattle.serde_json.specs.Read.{max_depth};
ghost use Rattle.serde_json.specs.View.{view};
ghost use Rattle.cj_zone.specs.Table.{zones_of};
ghost use Rattle.cj_scenario.specs.declared.fault.SceneFault.TheVariants.{Memory};
ghost use Rattle.cj_script.specs.simulation.Seeds.{crons_in, seed_of};

use crate::drafts::cron_said;
use crate::lists::{Reads, list_of};
use crate::operations::present;
use cj_scenario::SceneFault;
use cj_types::{CronJobDraft, Shared};
use cj_zone::ZoneTable;
use serde_json::Value;
use std::alloc::Global;

// Reads the CronJobs of a scenario with these zones.
#[derive(Clone, Copy)]
struct Seeds<'a> {
    zones: &'a ZoneTable,
}

impl Reads for Seeds<'_> {
    type Item = Shared<CronJobDraft>;

    ghost said = { λ s d. seed_of (zones_of s.zones.now) d };

    fn read(&self, alloc: Global, value: &Value) -> Result<Shared<CronJobDraft>, SceneFault> {
        match value {
            Value::Null => Err(SceneFault::Form),
            _ => cron_said(alloc, self.zones, value),
        }
    }
}

/// The CronJobs of a scenario: `Form` where their list is missing, or one of them is null, else the
/// first fault of a manifest.
pub(crate) fn crons_at(
    alloc: Global,
    zones: &ZoneTable,
    value: &Value,
) -> Result<Vec<Shared<CronJobDraft>>, SceneFault>
    requires flat { depth (view value.now) ≤ max_depth }
    ensures ok { IfOk result (λ ds. crons_in (zones_of zones.now) (view value.now) ≡ Ok ds.items) }
    ensures err { IfErr result (λ e. e ≢ Memory →
        crons_in (zones_of zones.now) (view value.now) ≡ Err e) }
{
    let Some(list) = present(value, "cronJobs") else {
        return Err(SceneFault::Form);
    };
    let Some(values) = list.as_array() else {
        return Err(SceneFault::Form);
    };
    list_of(alloc, &Seeds { zones }, values)
}
