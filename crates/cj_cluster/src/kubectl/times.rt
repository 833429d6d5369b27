// The times that a server says of an object.
ghost use Rattle.std.specs.Prelude.{◌≡◌, option_map};
ghost use Rattle.serde_json.specs.Find.{as_str};
ghost use Rattle.serde_json.specs.View.{view};
ghost use Rattle.cj_manifest.specs.Drafts.{given};
ghost use Rattle.cj_cluster.specs.kubectl.Finishes.{finish_of};
ghost use Rattle.cj_cluster.specs.kubectl.Rows.{AreCronTimes, AreRunTimes, IsCreated, IsEndTime, IsOptionalTime, IsRequiredTime, IsTimeRow, deleting_of, finish_row, is_set, manual_text, says_manual, scheduled_in, suspended_of};

use crate::kubectl::conditions::{FinishAt, finish_row};
use crate::kubectl::instant::read_instant;
use crate::kubectl::status::{member, status_of};
use cj_manifest::{metadata, present};
use cj_types::{Cause, Seconds};
use serde_json::Value;

/// The times of a CronJob, each or why it is refused.
#[derive(Clone, Copy)]
pub(crate) struct CronTimes {
    pub created: Result<Seconds, Cause>,
    /// Its last schedule time.
    pub last: Result<Option<Seconds>, Cause>,
    /// Its last successful time.
    pub success: Result<Option<Seconds>, Cause>,
}

/// The times of a Job, each or why it is refused.
#[derive(Clone, Copy)]
pub(crate) struct RunTimes {
    pub created: Result<Seconds, Cause>,
    /// The time for which it was made, by its annotation.
    pub scheduled: Result<Option<Seconds>, Cause>,
    /// When it ended, if it did.
    pub ended: Result<Option<Seconds>, Cause>,
    /// Whether it was made by hand, by its annotation.
    pub is_manual: bool,
    /// Whether it is suspended.
    pub is_suspended: bool,
}

fn time(value: &Value) -> Result<Seconds, Cause>
    ensures { IsTimeRow (as_str (view value.now)) result }
{
    match value.as_str() {
        None => Err(Cause::WrongType),
        Some(text) => match read_instant(text) {
            Some(instant) => Ok(instant),
            None => Err(Cause::Format),
        },
    }
}

fn required_time(value: Option<&Value>) -> Result<Seconds, Cause>
    ensures { IsRequiredTime (option_map (λ v. view v.now) value.entry) result }
{
    match value {
        None => Err(Cause::Required),
        Some(found) => time(found),
    }
}

fn optional_time(value: Option<&Value>) -> Result<Option<Seconds>, Cause>
    ensures { IsOptionalTime (option_map (λ v. view v.now) value.entry) result }
{
    match value {
        None => Ok(None),
        Some(found) => Ok(Some(time(found)?)),
    }
}

fn end_time(finish: Option<FinishAt>) -> Result<Option<Seconds>, Cause>
    ensures { IsEndTime (option_map finish_of finish.entry) result }
{
    match finish {
        None => Ok(None),
        Some(found) => Ok(Some(required_time(found.time)?)),
    }
}

/// The end of a Job, where there is one.
pub(crate) fn given_finish(value: &Value) -> Option<FinishAt<'_>>
    ensures { option_map finish_of result ≡ given (finish_row (view value.now)) }
{
    finish_row(value).unwrap_or(None)
}

fn created(value: &Value) -> Result<Seconds, Cause>
    ensures { IsCreated (view value.now) result }
{
    required_time(member(metadata(value).ok(), "creationTimestamp"))
}

fn scheduled(value: &Value) -> Result<Option<Seconds>, Cause>
    ensures { IsOptionalTime (scheduled_in (view value.now)) result }
{
    let annotations = member(metadata(value).ok(), "annotations");
    optional_time(member(
        annotations,
        "batch.kubernetes.io/cronjob-scheduled-timestamp",
    ))
}

// The text of the annotation by which a client marks a Job that it made by hand.
fn manual_text(value: &Value) -> Option<&str>
    ensures { option_map (λ s. s.now) result ≡ manual_text (view value.now) }
{
    let annotations = member(metadata(value).ok(), "annotations");
    member(annotations, "cronjob.kubernetes.io/instantiate")?.as_str()
}

fn says_manual(text: Option<&str>) -> bool
    ensures { result ≡ says_manual (option_map (λ s. s.now) text.entry) }
{
    match text {
        Some(text) => text == "manual",
        None => false,
    }
}

/// Whether the deletion of an object was asked for.
pub(crate) fn is_deleting(value: &Value) -> bool
    ensures { result ≡ deleting_of (view value.now) }
{
    member(metadata(value).ok(), "deletionTimestamp").is_some()
}

fn is_set(value: Option<&Value>) -> bool
    ensures { result ≡ is_set (option_map (λ v. view v.now) value.entry) }
{
    match value {
        Some(found) => found.as_bool().unwrap_or(false),
        None => false,
    }
}

fn is_suspended(value: &Value) -> bool
    ensures { result ≡ suspended_of (view value.now) }
{
    is_set(member(present(value, "spec"), "suspend"))
}

/// The times that a CronJob's value says.
pub(crate) fn cron_times(value: &Value) -> CronTimes
    ensures { AreCronTimes (view value.now) result }
{
    let status = status_of(value);
    CronTimes {
        created: created(value),
        last: optional_time(member(status, "lastScheduleTime")),
        success: optional_time(member(status, "lastSuccessfulTime")),
    }
}

/// The times that a Job's value says.
pub(crate) fn run_times(value: &Value) -> RunTimes
    ensures { AreRunTimes (view value.now) result }
{
    RunTimes {
        created: created(value),
        scheduled: scheduled(value),
        ended: end_time(given_finish(value)),
        is_manual: says_manual(manual_text(value)),
        is_suspended: is_suspended(value),
    }
}
