// Reading a scenario's bytes.
ghost use Rattle.std.specs.Prelude.{◌≡◌, ◌⊎◌, ◌≤◌, [], IfOk, IfErr, Some, List, map};
ghost use Rattle.serde_json.specs.Data.{depth};
ghost use Rattle.serde_json.specs.Read.{max_depth};
ghost use Rattle.serde_json.specs.View.{view};
ghost use Rattle.cj_base.specs.declared.faults.FieldFault.{FieldFault};
ghost use Rattle.cj_zone.specs.Table.{zones_of};
ghost use Rattle.cj_manifest.specs.Drafts as said;
ghost use Rattle.cj_manifest.specs.Faults as table;
ghost use Rattle.cj_manifest.specs.Reading.{HasFaults, IsNoValue, Reads};
ghost use Rattle.cj_scenario.specs.Live.{live_jobs, names_of};
ghost use Rattle.cj_scenario.specs.Made.{with_active, IsScene, IsFirst, IsRefusedScene, IsRefusedValue, Says};
ghost use Rattle.cj_scenario.specs.declared.fault.SceneFault.TheVariants.{Memory, Syntax};

use crate::fault::SceneFault;
use crate::form::parts_of;
use crate::live::{found_of, live_jobs, names_of};
use crate::made::{scene_cron, scene_jobs};
use crate::scene::Scene;
use cj_base::both;
use cj_io::GivenZones;
use cj_manifest::cron_of;
use cj_types::{CronJob, CronJobDraft, Job, Listing, Names, Refusal, Shared};
use cj_zone::ZoneTable;
use serde_json::Value;
use std::alloc::Global;

/// The value that a scenario's bytes are: `Syntax` where they aren't JSON. It nests at most as deep
/// as JSON is read.
pub fn value_of(alloc: Global, bytes: &[u8]) -> Result<Value, SceneFault>
    ensures reads { IfOk result (λ v. Reads bytes.now (view v)) }
    ensures flat { IfOk result (λ v. depth (view v) ≤ max_depth) }
    ensures refused { IfErr result (λ e. (e ≡ Memory) ⊎ ((e ≡ Syntax) × IsNoValue bytes.now)) }
{
    match Value::from_slice(alloc, bytes) {
        Ok(value) => Ok(value),
        Err(error) if error.is_memory() => Err(SceneFault::Memory),
        Err(_) => Err(SceneFault::Syntax),
    }
}

/// The fault that stands for a manifest's refusal: its first one.
pub fn first_fault(refusal: &Refusal) -> SceneFault
    ensures { (faults : List FieldFault) → HasFaults faults refusal.now → IsFirst faults result }
{
    match refusal {
        Refusal::Invalid(faults) => match faults.as_slice().first() {
            Some(fault) => SceneFault::Manifest(*fault),
            None => SceneFault::Memory,
        },
        _ => SceneFault::Memory,
    }
}

/// What a CronJob's manifest in a scenario says under the zones, or its first fault.
pub fn draft_of(
    alloc: Global,
    manifest: &Value,
    zones: &ZoneTable,
) -> Result<CronJobDraft, SceneFault>
    requires flat { depth (view manifest.now) ≤ max_depth }
    ensures sound { IfOk result (λ _. table.cron_faults (zones_of zones.now) (view manifest.now)
        ≡ []) }
    ensures said { IfOk result (λ d. said.cron_draft (view manifest.now) ≡ Some d) }
    ensures refused { IfErr result (IsFirst (table.cron_faults (zones_of zones.now)
        (view manifest.now))) }
{
    match cron_of(alloc, manifest, zones) {
        Ok((draft, _warnings)) => Ok(draft),
        Err(refusal) => Err(first_fault(&refusal)),
    }
}

// The names of the Jobs that run, and what a live read finds for each.
fn active_among(
    alloc: Global,
    jobs: &[Shared<Job>],
) -> Result<(Names, Listing<Option<Shared<Job>>>), SceneFault>
    ensures names { IfOk result (λ r. r.0 ≡ names_of (live_jobs jobs.now)) }
    ensures active { IfOk result (λ r. r.1 ≡ map (λ job. Some job) (live_jobs jobs.now)) }
    ensures err { IfErr result (λ e. e ≡ Memory) }
{
    let live = live_jobs(alloc, jobs)?;
    let found = found_of(alloc, live.as_slice())?;
    let (names, active) = both(names_of(alloc, live.as_slice()), Listing::new(alloc, found))?;
    Ok((names, active))
}

// The scene of a CronJob that names none of its Jobs yet, and these Jobs.
fn scene_with(
    alloc: Global,
    zones: ZoneTable,
    cron: CronJob,
    jobs: Vec<Shared<Job>>,
) -> Result<Scene, SceneFault>
    ensures zones { IfOk result (λ s. s.zones ≡ zones) }
    ensures cron { IfOk result (λ s. s.cron ≡ with_active cron (names_of (live_jobs jobs.items))) }
    ensures jobs { IfOk result (λ s. s.jobs ≡ jobs.items) }
    ensures active { IfOk result (λ s. s.active ≡ map (λ job. Some job) (live_jobs jobs.items)) }
    ensures err { IfErr result (λ e. e ≡ Memory) }
{
    let (names, active) = active_among(alloc, jobs.as_slice())?;
    let (cron, jobs) = both(
        Shared::new(alloc, cron.with_active(names)),
        Listing::new(alloc, jobs),
    )?;
    Ok(Scene {
        zones,
        cron,
        jobs,
        active,
    })
}

// The scene that the value says.
fn scene_of(alloc: Global, given: GivenZones<'_>, value: &Value) -> Result<Scene, SceneFault>
    requires flat { depth (view value.now) ≤ max_depth }
    ensures said { IfOk result (Says given.entry (view value.now)) }
    ensures refused { IfErr result (IsRefusedValue given.entry (view value.now)) }
{
    let parts = parts_of(alloc, given, value)?;
    let draft = draft_of(alloc, parts.manifest, &parts.zones)?;
    let cron = scene_cron(alloc, draft, parts.created, parts.last);
    let jobs = scene_jobs(alloc, &cron, parts.jobs.as_slice())?;
    let scene = scene_with(alloc, parts.zones, cron, jobs)?;
    Ok(scene)
}

/// Reads a scenario for a plan, under the zones that are given. It is a JSON object with
/// `manifest`, a CronJob's; `created`, the time of its creation; `last`, its last schedule time;
/// `jobs`, a list of objects with a `time` and an `outcome`, `Running`, `Complete` or `Failed`; and
/// `zones`, an object from names to POSIX rules. The last three may be absent. Members of other
/// names, or that are null, are ignored.
///
/// Refused in this order: `Syntax` for bytes that aren't JSON, `Form` for a value of another form,
/// with a zone that is refused or two Jobs of one minute, and `Manifest` with the manifest's first
/// fault under all these zones.
pub fn read_scene(alloc: Global, given: GivenZones<'_>, bytes: &[u8]) -> Result<Scene, SceneFault>
    ensures read { IfOk result (IsScene given.entry bytes.now) }
    ensures refused { IfErr result (IsRefusedScene given.entry bytes.now) }
{
    let value = value_of(alloc, bytes)?;
    scene_of(alloc, given, &value)
}
