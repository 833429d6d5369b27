// The form of a scenario.
ghost use Rattle.std.specs.Prelude.{◌≡◌, Some, IfOk, IfErr};
ghost use Rattle.serde_json.specs.View.{view};
ghost use Rattle.cj_zone.specs.Table.{local_zone};
ghost use Rattle.cj_scenario.specs.Parts.{form_of};
ghost use Rattle.cj_scenario.specs.Scenes.{IsForm, IsNoForm, Refuses};

use crate::fault::SceneFault;
use crate::given::{GivenJob, jobs_of};
use crate::times::{maybe_time_at, present, time_at};
use crate::zones::table_of;
use cj_io::GivenZones;
use cj_types::Seconds;
use cj_zone::ZoneTable;
use serde_json::Value;
use std::alloc::Global;

/// What a scenario says, with the manifest as it stands in it.
#[derive(Drop)]
pub(crate) struct Parts<'v> {
    pub zones: ZoneTable,
    pub manifest: &'v Value,
    pub created: Seconds,
    pub last: Option<Seconds>,
    pub jobs: Vec<GivenJob>,
}

/// The parts of a scenario under the zones that are given, or `Form` where it has another form.
pub(crate) fn parts_of<'v>(
    alloc: Global,
    given: GivenZones<'_>,
    value: &'v Value,
) -> Result<Parts<'v>, SceneFault>
    ensures ok { IfOk result (λ p. IsForm given.entry (view value.now) (form_of p)) }
    ensures local { IfOk result (λ p. local_zone p.zones ≡ local_zone given.entry.rules) }
    ensures refused { IfErr result (λ e. Refuses e (IsNoForm given.entry (view value.now))) }
{
    let Some(manifest) = present(value, "manifest") else {
        return Err(SceneFault::Form);
    };
    let Some(created) = time_at(value, "created") else {
        return Err(SceneFault::Form);
    };
    let Some(last) = maybe_time_at(value, "last") else {
        return Err(SceneFault::Form);
    };
    let jobs = jobs_of(alloc, present(value, "jobs"))?;
    let zones = table_of(given, present(value, "zones"))?;
    Ok(Parts {
        zones,
        manifest,
        created,
        last,
        jobs,
    })
}
