// What is read of a CronJob.
ghost use Rattle.std.specs.Prelude.{◌≡◌, ◌≤◌, [], Some, IfOk, IfErr};
ghost use Rattle.std.specs.Result.{result_err};
ghost use Rattle.serde_json.specs.Data.{depth};
ghost use Rattle.serde_json.specs.Read.{max_depth};
ghost use Rattle.serde_json.specs.View.{view};
ghost use Rattle.cj_base.specs.declared.refusal.Refusal.TheVariants.{OutOfMemory};
ghost use Rattle.cj_manifest.specs.Drafts.{cron_draft};
ghost use Rattle.cj_manifest.specs.Faults as table;
ghost use Rattle.cj_manifest.specs.Reading.{HasFaults};
ghost use Rattle.cj_zone.specs.Table.{zones_of};
ghost use Rattle.cj_cluster.specs.kubectl.Faults.{cron_server_faults};
ghost use Rattle.cj_cluster.specs.kubectl.Reading.{IsCronItem, IsSoundCron, marks_of};
ghost use Rattle.cj_cluster.specs.kubectl.Rows as row;

use crate::cron::CronMarks;
use crate::kubectl::active::{active_of, is_stuck};
use crate::kubectl::faults::{cron_faults, uid_cause};
use crate::kubectl::item::Item;
use crate::kubectl::made;
use crate::kubectl::status::status_row;
use crate::kubectl::times::{CronTimes, cron_times, is_deleting};
use cj_manifest::cron_of;
use cj_types::{Cause, CronJobDraft, FieldFaults, Heap, Names, Refusal, Uid};
use cj_zone::ZoneTable;
use serde_json::Value;
use std::alloc::Global;

// What the manifest of a CronJob says, or its faults.
fn draft_of(alloc: Global, value: &Value, zones: &ZoneTable) -> Result<Heap<CronJobDraft>, Refusal>
    requires flat { depth (view value.now) ≤ max_depth }
    ensures sound { IfOk result (λ _. table.cron_faults (zones_of zones.now) (view value.now)
        ≡ []) }
    ensures drafted { IfOk result (λ d. cron_draft (view value.now) ≡ Some d) }
    ensures refused { IfErr result (HasFaults
        (table.cron_faults (zones_of zones.now) (view value.now))) }
{
    match cron_of(alloc, value, zones) {
        Ok((draft, _warnings)) => Heap::new(alloc, draft),
        Err(refusal) => Err(refusal),
    }
}

fn cause_of(active: &Result<Names, Cause>) -> Option<Cause>
    ensures { result ≡ result_err active.now }
{
    match active {
        Ok(_) => None,
        Err(cause) => Some(*cause),
    }
}

// The faults of what the server says of a CronJob, with the cause against the list of its Jobs.
fn server_faults(
    alloc: Global,
    draft: &CronJobDraft,
    value: &Value,
    times: &CronTimes,
    active: Option<Cause>,
) -> Result<FieldFaults, Refusal>
    requires active { active ≡ result_err (row.active_of (view value.now)) }
    ensures ok { IfOk result (λ f. f
        ≡ cron_server_faults draft.now.meta.uid (view value.now) times.now) }
    ensures err { IfErr result (λ e. e ≡ OutOfMemory) }
{
    let uid = uid_cause(&draft.meta.uid);
    let status = status_row(value).err();
    cron_faults(alloc, uid, status, active, times)
}

// What keeps the controller of a CronJob from starting Jobs.
fn marks_of(value: &Value) -> CronMarks
    ensures { result ≡ marks_of (view value.now) }
{
    CronMarks {
        is_deleting: is_deleting(value),
        is_stuck: is_stuck(value),
    }
}

// The CronJob of a draft, or the faults of what the server says of it.
fn sound_cron(
    alloc: Global,
    place: Uid,
    value: &Value,
    draft: Heap<CronJobDraft>,
) -> Result<Item, Refusal>
    requires drafted { cron_draft (view value.now) ≡ Some draft }
    ensures ok { IfOk result (IsSoundCron place (view value.now)) }
    ensures err { IfErr result (λ e. e ≡ OutOfMemory) }
{
    let times = cron_times(value);
    let active = active_of(alloc, value)?;
    let faults = server_faults(alloc, draft.get(), value, &times, cause_of(&active))?;
    if !faults.as_slice().is_empty() {
        return Ok(Item::Faulty(faults));
    }
    let names = active.unwrap_or(Names::new(alloc));
    let marks = marks_of(value);
    let cron = made::cron(alloc, place, draft.into_inner(), times, names, marks)?;
    Ok(Item::Cron(cron))
}

/// What is read of a CronJob at a place of the list.
pub(crate) fn cron_item(
    alloc: Global,
    place: Uid,
    value: &Value,
    zones: &ZoneTable,
) -> Result<Item, Refusal>
    requires flat { depth (view value.now) ≤ max_depth }
    ensures ok { IfOk result (IsCronItem (zones_of zones.now) place (view value.now)) }
    ensures err { IfErr result (λ e. e ≡ OutOfMemory) }
{
    match draft_of(alloc, value, zones) {
        Ok(draft) => sound_cron(alloc, place, value, draft),
        Err(Refusal::Invalid(faults)) => Ok(Item::Faulty(faults)),
        Err(_) => Err(Refusal::OutOfMemory),
    }
}
