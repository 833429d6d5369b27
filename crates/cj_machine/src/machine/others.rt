// Jobs of a CronJob that run though its status doesn't name them.
//
// Under `--only-annotated` the controller of the cluster writes the status as well, by what it has
// heard so far: a Job may be gone from `status.active` before it was started. So all Jobs that have
// the CronJob's label are listed, after the CronJob was read. A claim is conditional on the version
// that was read, and a Job is there before it is claimed: so each Job that was claimed before this
// sync's own claim is in the list.

use crate::machine::choice::Choice;
use crate::machine::listing::is_among;
use crate::machine::reading::job_row;
use crate::machine::task::{Stage, Task};
use crate::machine::view::View;
use cj_base::{Refusal, Text};
use cj_control::list_of;
use cj_fence::{At, Job, Policy, Row};
use cj_manifest::present;
use serde_json::Value;
use std::alloc::Global;

/// Whether the Jobs of a CronJob are to be listed before one is made.
pub(crate) fn wants_list(view: &View<'_>, task: &Task, at: &At) -> bool {
    view.options.only_annotated && at.cron.policy != Policy::Allow && task.listed.is_none()
}

/// The Jobs with the label of the CronJob are listed, from the API server.
pub(crate) fn list(alloc: Global, task: &mut Task) -> Result<Choice, Refusal> {
    let head = &task.parts.head;
    let (namespace, uid) = (head.namespace.as_str(), head.uid.as_str());
    let path = format!(in alloc;
        "/apis/batch/v1/namespaces/{namespace}/jobs?labelSelector=cronsim%2Fuid%3D{uid}"
    )?;
    task.stage = Stage::Listing;
    Ok(Choice::Read(Text::from_string(path)))
}

/// A sync takes the list of its Jobs; whether it can be read whole.
pub(crate) fn take_listed(alloc: Global, task: &mut Task, body: &Value) -> Result<bool, Refusal> {
    let mut rows = Vec::new(alloc);
    for item in list_of(present(body, "items")) {
        let Some(row) = job_row(alloc, item)? else {
            return Ok(false);
        };
        rows.push(row).map_err(|_| Refusal::OutOfMemory)?;
    }
    task.listed = Some(rows);
    Ok(true)
}

// Whether a Job of the CronJob runs, or may still be started, though the status doesn't name it.
fn may_run(at: &At, row: &Row<Job>) -> bool {
    let job = &row.object;
    let is_dead = job.finished || (job.held && job.deleting);
    let may_be_claimed = job.held && at.cron.last < job.time;
    job.owner.as_str() == at.cron.uid.as_str()
        && !is_dead
        && !may_be_claimed
        && !is_among(at.alive.as_slice(), row)
}

/// Whether a listed Job runs, or may still be started, that the status doesn't name.
pub(crate) fn is_held_back(task: &Task, at: &At) -> bool {
    match &task.listed {
        Some(rows) => rows.iter().any(|row| may_run(at, row)),
        None => false,
    }
}
