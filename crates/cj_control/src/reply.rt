// What a line says as the answer to a call of a sync.
ghost use Rattle.std.specs.Prelude.{◌≡◌, ◌≢◌, ◌==◌, Ok, Err, IfOk, IfErr, codes, option_map};
ghost use Rattle.serde_json.specs.View.{view};
ghost use Rattle.cj_base.specs.declared.refusal.Refusal.TheVariants.{OutOfMemory};
ghost use Rattle.cj_fence.specs.Objects.{is_policy, waits};
ghost use Rattle.cj_control.specs.Objects.{IsCron, IsJob};
ghost use Rattle.cj_control.specs.Answers as said;

use crate::hold::hold_in;
use crate::line::LineKind;
use crate::names::parts;
use crate::objects::{is_text, member, read_cron, read_job};
use cj_base::{Refusal, Text, TryCopy};
use cj_fence::{Answer, Call, Cron, Job, Policy, Row, Stamp};
use serde_json::Value;
use std::alloc::Global;

// A text that is a member of an object, where both are there.
fn text_in<'v>(body: Option<&'v Value>, name: &str) -> Option<&'v str>
    ensures { option_map (λ s. s.now) result
        ≡ said.text_in name.now (option_map (λ v. view v.now) body.entry) }
{
    member(body, name)?.as_str()
}

// Whether a body is a Status, as API servers answer.
fn is_status(body: Option<&Value>) -> bool
    ensures { result ≡ said.is_status (option_map (λ v. view v.now) body.entry) }
{
    is_text("Status", text_in(body, "kind"))
}

// What a Status says of the object that it is about.
fn detail<'v>(body: Option<&'v Value>, name: &str) -> Option<&'v str>
    ensures { option_map (λ s. s.now) result
        ≡ said.detail name.now (option_map (λ v. view v.now) body.entry) }
{
    text_in(member(body, "details"), name)
}

// Whether a Status says that the object of that resource and name isn't there.
fn is_not_found(resource: &str, name: &str, body: Option<&Value>) -> bool
    ensures { result ≡ said.is_not_found resource.now name.now
        (option_map (λ v. view v.now) body.entry) }
{
    let says = is_status(body) && is_text("NotFound", text_in(body, "reason"));
    let is_kind = is_text(resource, detail(body, "kind"));
    let is_named = is_text(name, detail(body, "name"));
    says && (is_kind && is_named)
}

fn meta_text<'v>(body: Option<&'v Value>, name: &str) -> Option<&'v str>
    ensures { option_map (λ s. s.now) result
        ≡ said.meta_text name.now (option_map (λ v. view v.now) body.entry) }
{
    text_in(member(body, "metadata"), name)
}

// Whether a body is the object of that uid.
fn is_object(uid: &str, body: Option<&Value>) -> bool
    ensures { result ≡ said.is_object uid.now (option_map (λ v. view v.now) body.entry) }
{
    is_text(uid, meta_text(body, "uid"))
}

// Whether a Status says that the deletion of the object of that uid succeeded.
fn is_success(uid: &str, body: Option<&Value>) -> bool
    ensures { result ≡ said.is_success uid.now (option_map (λ v. view v.now) body.entry) }
{
    let says = is_status(body) && is_text("Success", text_in(body, "status"));
    says && is_text(uid, detail(body, "uid"))
}

// Whether a body says that the object of that uid is gone, or is going.
fn is_gone(uid: &str, body: Option<&Value>) -> bool
    ensures { result ≡ said.is_gone uid.now (option_map (λ v. view v.now) body.entry) }
{
    is_success(uid, body) || is_object(uid, body)
}

fn is_refusal(status: u64) -> bool
    ensures { result ≡ said.is_refusal status }
{
    (status == 403 || status == 404) || (status == 409 || status == 422)
}

// A refusal, where a Status says so.
fn refused(status: u64, body: Option<&Value>) -> Answer
    ensures { result ≡ said.refused status (option_map (λ v. view v.now) body.entry) }
{
    if is_refusal(status) && is_status(body) {
        Answer::Refused
    } else {
        Answer::Lost
    }
}

fn cron_found(name: &Text, row: Row<Cron>) -> Answer
    ensures { result ≡ said.cron_found name.now (Ok row) }
{
    let Row {
        name: found,
        object,
    } = row;
    if found.as_str() == name.as_str() {
        Answer::Cron(Some(object))
    } else {
        Answer::Lost
    }
}

fn job_found(name: &Text, row: Row<Job>) -> Answer
    ensures { result ≡ said.job_found name.now (Ok row) }
{
    let Row {
        name: found,
        object,
    } = row;
    if found.as_str() == name.as_str() {
        Answer::Job(Some(object))
    } else {
        Answer::Lost
    }
}

fn got_cron(alloc: Global, name: &Text, body: Option<&Value>) -> Result<Answer, Refusal>
    ensures ok { IfOk result (λ a.
        said.IsCronFound name.now (option_map (λ v. view v.now) body.entry) a) }
    ensures err { IfErr result (λ e. e ≡ OutOfMemory) }
{
    let Some(value) = body else {
        return Ok(Answer::Lost);
    };
    match read_cron(alloc, value) {
        Ok(row) => Ok(cron_found(name, row)),
        Err(Refusal::OutOfMemory) => Err(Refusal::OutOfMemory),
        Err(_) => Ok(Answer::Lost),
    }
}

fn got_job(alloc: Global, name: &Text, body: Option<&Value>) -> Result<Answer, Refusal>
    ensures ok { IfOk result (λ a.
        said.IsJobFound name.now (option_map (λ v. view v.now) body.entry) a) }
    ensures err { IfErr result (λ e. e ≡ OutOfMemory) }
{
    let Some(value) = body else {
        return Ok(Answer::Lost);
    };
    match read_job(alloc, value) {
        Ok(row) => Ok(job_found(name, row)),
        Err(Refusal::OutOfMemory) => Err(Refusal::OutOfMemory),
        Err(_) => Ok(Answer::Lost),
    }
}

fn is_policy(one: Policy, other: Policy) -> bool
    ensures { result ≡ is_policy one other }
{
    match (one, other) {
        (Policy::Allow, Policy::Allow) => true,
        (Policy::Forbid, Policy::Forbid) => true,
        (Policy::Replace, Policy::Replace) => true,
        _ => false,
    }
}

fn waits(job: &Job) -> bool
    ensures { result ≡ waits job.now }
{
    job.held && !job.finished && !job.deleting
}

// Whether a Job that was made is the one that was sent, and held.
fn is_made(name: &Text, job: &Job, row: &Row<Job>) -> bool
    ensures { result ≡ said.is_made name.now job.now row.now }
{
    let named = row.name.as_str() == name.as_str();
    let owned = row.object.owner.as_str() == job.owner.as_str();
    let timed = row.object.time == job.time;
    let same = is_policy(row.object.policy, job.policy);
    let waits = waits(&row.object);
    (named && owned) && ((timed && same) && (waits && !row.object.pinned))
}

fn stamp_of(alloc: Global, job: &Job) -> Result<Stamp, Refusal>
    ensures ok { IfOk result (λ t. t ≡ record { uid = job.now.uid; version = job.now.version }) }
    ensures err { IfErr result (λ e. e ≡ OutOfMemory) }
{
    Ok(Stamp {
        uid: job.uid.try_copy(alloc)?,
        version: job.version.try_copy(alloc)?,
    })
}

// The answer to the creation of a Job, by whether a start can take its hold away.
fn job_made(
    alloc: Global,
    name: &Text,
    job: &Job,
    known: bool,
    row: &Row<Job>,
) -> Result<Answer, Refusal>
    ensures ok { IfOk result (λ a. a ≡ said.job_made name.now job.now known (Ok row.now)) }
    ensures err { IfErr result (λ e. e ≡ OutOfMemory) }
{
    let made = is_made(name, job, row);
    if known && made {
        Ok(Answer::Created(stamp_of(alloc, &row.object)?))
    } else {
        Ok(Answer::Lost)
    }
}

fn made_job(alloc: Global, name: &Text, job: &Job, body: Option<&Value>) -> Result<Answer, Refusal>
    ensures ok { IfOk result (λ a.
        said.IsJobMade name.now job.now (option_map (λ v. view v.now) body.entry) a) }
    ensures err { IfErr result (λ e. e ≡ OutOfMemory) }
{
    let Some(value) = body else {
        return Ok(Answer::Lost);
    };
    match read_job(alloc, value) {
        Ok(row) => job_made(alloc, name, job, hold_in(value).is_some(), &row),
        Err(Refusal::OutOfMemory) => Err(Refusal::OutOfMemory),
        Err(_) => Ok(Answer::Lost),
    }
}

// The version that the object of that uid has now.
fn version_of<'v>(uid: &str, body: Option<&'v Value>) -> Option<&'v str>
    ensures { option_map (λ s. s.now) result
        ≡ said.version_of uid.now (option_map (λ v. view v.now) body.entry) }
{
    if is_object(uid, body) {
        meta_text(body, "resourceVersion")
    } else {
        None
    }
}

fn written(alloc: Global, uid: &str, status: u64, body: Option<&Value>) -> Result<Answer, Refusal>
    ensures ok { IfOk result (λ a.
        a ≡ said.written uid.now status (option_map (λ v. view v.now) body.entry)) }
    ensures err { IfErr result (λ e. e ≡ OutOfMemory) }
{
    if status != 200 {
        return Ok(refused(status, body));
    }
    match version_of(uid, body) {
        Some(version) => Ok(Answer::Written(Text::new(alloc, version)?)),
        None => Ok(Answer::Lost),
    }
}

fn gone(uid: &str, body: Option<&Value>) -> Answer
    ensures { result ≡ said.gone uid.now (option_map (λ v. view v.now) body.entry) }
{
    if is_gone(uid, body) {
        Answer::Deleted
    } else {
        Answer::Lost
    }
}

fn deleted(uid: &str, status: u64, body: Option<&Value>) -> Answer
    ensures { result ≡ said.deleted uid.now status (option_map (λ v. view v.now) body.entry) }
{
    if status == 200 || status == 202 {
        gone(uid, body)
    } else {
        refused(status, body)
    }
}

// Whether a 404 says that it is this object that isn't there.
fn is_missing(resource: &str, full: &Text, status: u64, body: Option<&Value>) -> bool
    ensures { result ≡ said.is_missing resource.now full.now status
        (option_map (λ v. view v.now) body.entry) }
{
    let (_, name) = parts(full.as_str());
    status == 404 && is_not_found(resource, name, body)
}

fn cron_got(
    alloc: Global,
    name: &Text,
    status: u64,
    body: Option<&Value>,
) -> Result<Answer, Refusal>
    ensures ok { IfOk result (λ a. said.IsCronGot (status == 200)
        (said.is_missing (codes "cronjobs") name.now status
        (option_map (λ v. view v.now) body.entry))
        name.now (option_map (λ v. view v.now) body.entry) a) }
    ensures err { IfErr result (λ e. e ≡ OutOfMemory) }
{
    if status == 200 {
        got_cron(alloc, name, body)
    } else if is_missing("cronjobs", name, status, body) {
        Ok(Answer::Cron(None))
    } else {
        Ok(Answer::Lost)
    }
}

fn job_got(alloc: Global, name: &Text, status: u64, body: Option<&Value>) -> Result<Answer, Refusal>
    ensures ok { IfOk result (λ a. said.IsJobGot (status == 200)
        (said.is_missing (codes "jobs") name.now status (option_map (λ v. view v.now) body.entry))
        name.now (option_map (λ v. view v.now) body.entry) a) }
    ensures err { IfErr result (λ e. e ≡ OutOfMemory) }
{
    if status == 200 {
        got_job(alloc, name, body)
    } else if is_missing("jobs", name, status, body) {
        Ok(Answer::Job(None))
    } else {
        Ok(Answer::Lost)
    }
}

fn created(
    alloc: Global,
    name: &Text,
    job: &Job,
    status: u64,
    body: Option<&Value>,
) -> Result<Answer, Refusal>
    ensures ok { IfOk result (λ a. said.IsCreated (status == 201) status name.now job.now
        (option_map (λ v. view v.now) body.entry) a) }
    ensures err { IfErr result (λ e. e ≡ OutOfMemory) }
{
    if status == 201 {
        made_job(alloc, name, job, body)
    } else {
        Ok(refused(status, body))
    }
}

fn reply(alloc: Global, call: &Call, status: u64, body: Option<&Value>) -> Result<Answer, Refusal>
    ensures ok { IfOk result (λ a.
        said.IsReply call.now status (option_map (λ v. view v.now) body.entry) a) }
    ensures err { IfErr result (λ e. e ≡ OutOfMemory) }
{
    match call {
        Call::GetCron(name) => cron_got(alloc, name, status, body),
        Call::GetJob(name) => job_got(alloc, name, status, body),
        Call::Create(name, job) => created(alloc, name, job, status, body),
        Call::Claim(claim) => written(alloc, claim.uid.as_str(), status, body),
        Call::Tidy(tidy) => written(alloc, tidy.uid.as_str(), status, body),
        Call::Start(job) => written(alloc, job.uid.as_str(), status, body),
        Call::Delete(job) | Call::Expire(job, _, _) => {
            Ok(deleted(job.uid.as_str(), status, body))
        }
        Call::CacheCron(_) | Call::CacheJob(_) | Call::ListJobs => Ok(Answer::Lost),
    }
}

/// What a line with this body says as the answer to a call. Any answer that isn't clear is Lost:
/// the sync ends, and the next one looks.
pub fn answer_in(
    alloc: Global,
    call: &Call,
    kind: LineKind,
    body: Option<&Value>,
) -> Result<Answer, Refusal>
    ensures ok { IfOk result (λ a.
        said.IsAnswer call.now kind (option_map (λ v. view v.now) body.entry) a) }
    ensures err { IfErr result (λ e. e ≡ OutOfMemory) }
{
    match kind {
        LineKind::Answered(_, status) => reply(alloc, call, status, body),
        LineKind::Failed(_) => Ok(Answer::Lost),
        LineKind::Told(_) => Ok(Answer::Lost),
        LineKind::Clock(_) => Ok(Answer::Lost),
        LineKind::Stop => Ok(Answer::Lost),
    }
}
