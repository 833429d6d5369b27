// What the manifests of a script say.
ghost use Rattle.std.specs.Prelude.{◌≡◌, ◌≢◌, ◌≤◌, Ok, Err, IfOk, IfErr};
ghost use Rattle.serde_json.specs.Data.{depth};
ghost use Rattle.serde_json.specs.Read.{max_depth};
ghost use Rattle.serde_json.specs.View.{view};
ghost use Rattle.cj_zone.specs.Table.{zones_of};
ghost use Rattle.cj_scenario.specs.declared.fault.SceneFault.TheVariants.{Memory};
ghost use Rattle.cj_script.specs.Drafts as said;

use cj_manifest::job_of;
use cj_scenario::{SceneFault, draft_of, first_fault};
use cj_types::{CronJobDraft, JobDraft, Shared};
use cj_zone::ZoneTable;
use serde_json::Value;
use std::alloc::Global;

/// The draft of a CronJob under the zones, or the manifest's first fault.
pub(crate) fn cron_said(
    alloc: Global,
    zones: &ZoneTable,
    manifest: &Value,
) -> Result<Shared<CronJobDraft>, SceneFault>
    requires flat { depth (view manifest.now) ≤ max_depth }
    ensures ok { IfOk result (λ d. said.cron_said (zones_of zones.now) (view manifest.now) ≡ Ok d) }
    ensures err { IfErr result (λ e. e ≢ Memory →
        said.cron_said (zones_of zones.now) (view manifest.now) ≡ Err e) }
{
    let draft = draft_of(alloc, manifest, zones)?;
    Ok(Shared::new(alloc, draft)?)
}

fn job_draft(alloc: Global, manifest: &Value) -> Result<JobDraft, SceneFault>
    requires flat { depth (view manifest.now) ≤ max_depth }
    ensures ok { IfOk result (λ d. said.job_said (view manifest.now) ≡ Ok d) }
    ensures err { IfErr result (λ e. e ≢ Memory → said.job_said (view manifest.now) ≡ Err e) }
{
    match job_of(alloc, manifest) {
        Ok((draft, _warnings)) => Ok(draft),
        Err(refusal) => Err(first_fault(&refusal)),
    }
}

/// The draft of a Job, or the manifest's first fault.
pub(crate) fn job_said(alloc: Global, manifest: &Value) -> Result<Shared<JobDraft>, SceneFault>
    requires flat { depth (view manifest.now) ≤ max_depth }
    ensures ok { IfOk result (λ d. said.job_said (view manifest.now) ≡ Ok d) }
    ensures err { IfErr result (λ e. e ≢ Memory → said.job_said (view manifest.now) ≡ Err e) }
{
    let draft = job_draft(alloc, manifest)?;
    Ok(Shared::new(alloc, draft)?)
}
