// What is sent for a call of a sync.
ghost use Rattle.std.specs.Prelude.{◌≡◌, ◌↔◌, ◌⊎◌, ◌<◌, IsTrue, map, option_map, IfOk, IfErr, IfNone, IfSome};
ghost use Rattle.serde_json.specs.View.{view};
ghost use Rattle.cj_base.specs.Instant.{last_second};
ghost use Rattle.cj_base.specs.declared.refusal.Refusal.TheVariants.{OutOfMemory};
ghost use Rattle.cj_control.specs.SentFor as sent;
ghost use Rattle.cj_control.specs.Parts as from;
ghost use Rattle.cj_control.specs.Requests.{start_body};

use crate::api::ApiVersion;
use crate::created::{MarkTexts, created_body};
use crate::hold::Hold;
use crate::names::parts;
use crate::objects::{Head, member};
use crate::request::{
    HeldBy, claim_body, delete_body, expire_body, reference, start_body, tidy_body,
};
use crate::sent::{
    Request, delete_job, get_cron, get_job, patch_event, patch_job, patch_status, post_event,
    post_job,
};
use cj_base::{Refusal, Seconds, Shared, Text, TryCopy};
use cj_fence::{Call, Claim, Job, Policy, Ref, Refs, Tidy};
use cj_json::push_value;
use cj_manifest::present;
use cj_zone::time_text;
use serde_json::Value;
use std::alloc::Global;

/// What of a CronJob the requests of its sync need.
pub struct CronParts {
    /// The version of the API that CronJobs are served in.
    pub api: ApiVersion,
    /// How its Jobs are created so that they don't run yet.
    pub by: HeldBy,
    /// What holds the Job back that is to be started: as Jobs are created, until a Job that was
    /// read says otherwise.
    pub hold: Hold,
    /// The CronJob's names.
    pub head: Head,
    /// `spec.jobTemplate`.
    pub template: Shared<Value>,
    /// What tells this template from others.
    pub mark: Text,
}

impl Drop for CronParts {
    fn drop(self) {
        let CronParts {
            api: _,
            by: _,
            hold: _,
            head,
            template,
            mark,
        } = self;
        drop(head);
        drop(template);
        drop(mark);
    }
}

impl TryCopy for CronParts {
    fn try_copy(&self, alloc: Global) -> Result<CronParts, Refusal> {
        Ok(CronParts {
            api: self.api,
            by: self.by,
            hold: self.hold,
            head: self.head.try_copy(alloc)?,
            template: self.template.share()?,
            mark: self.mark.try_copy(alloc)?,
        })
    }
}

fn policy_text(policy: Policy) -> &'static str
    ensures { result.now ≡ sent.policy_text policy }
{
    match policy {
        Policy::Allow => "Allow",
        Policy::Forbid => "Forbid",
        Policy::Replace => "Replace",
    }
}

fn reference_to(alloc: Global, job: &Ref) -> Result<Value, Refusal>
    ensures ok { IfOk result (λ v. view v ≡ sent.reference_to job.now) }
    ensures err { IfErr result (λ e. e ≡ OutOfMemory) }
{
    let (namespace, name) = parts(job.name.as_str());
    reference(alloc, namespace, name, job.uid.as_str())
}

fn references(alloc: Global, jobs: &[Ref]) -> Result<Vec<Value>, Refusal>
    ensures ok { IfOk result (λ v. map view v.items ≡ map sent.reference_to jobs.now) }
    ensures err { IfErr result (λ e. e ≡ OutOfMemory) }
{
    let mut values = Vec::new(alloc);
    for job in jobs {
        push_value(&mut values, reference_to(alloc, job)?)?;
    }
    Ok(values)
}

// What stands in `status.active`.
fn active_value(alloc: Global, jobs: &Refs) -> Result<Value, Refusal>
    ensures ok { IfOk result (λ v. view v ≡ sent.active_data jobs.now) }
    ensures err { IfErr result (λ e. e ≡ OutOfMemory) }
{
    Ok(Value::Array(references(alloc, jobs.as_slice())?))
}

fn cron_request(alloc: Global, source: &CronParts, full: &Text) -> Result<Request, Refusal>
    ensures ok { IfOk result (from.GetsIt source.now full.now) }
    ensures says { IfOk result (sent.GetsCron full.now) }
    ensures err { IfErr result (λ e. e ≡ OutOfMemory) }
{
    let (namespace, name) = parts(full.as_str());
    get_cron(alloc, source.api, namespace, name)
}

fn job_request(alloc: Global, full: &Text) -> Result<Request, Refusal>
    ensures ok { IfOk result (sent.GetsJob full.now) }
    ensures err { IfErr result (λ e. e ≡ OutOfMemory) }
{
    let (namespace, name) = parts(full.as_str());
    get_job(alloc, namespace, name)
}

fn marks(alloc: Global, source: &CronParts, time: Seconds, job: &Job) -> Result<MarkTexts, Refusal>
    requires { time ≡ job.now.time }
    ensures ok { IfOk result (λ m. m ≡ from.marks_of source.now job.now) }
    ensures err { IfErr result (λ e. e ≡ OutOfMemory) }
{
    let text = time_text(alloc, time)?;
    Ok(MarkTexts {
        time: Text::new(alloc, text.as_str())?,
        policy: Text::new(alloc, policy_text(job.policy))?,
        template: source.mark.try_copy(alloc)?,
    })
}

// Whether a Job of that name is to be of this CronJob.
fn is_of(source: &CronParts, namespace: &str, job: &Job) -> bool
    ensures { IsTrue result ↔ from.IsOf source.now namespace.now job.now }
{
    let placed = source.head.namespace.as_str() == namespace;
    placed && source.head.uid.as_str() == job.owner.as_str()
}

// A POST of a Job of this CronJob.
#[tactic(auto, using(crate::proofs::NameLemmas::posts_job))]
fn create_request(
    alloc: Global,
    source: &CronParts,
    full: &Text,
    job: &Job,
) -> Result<Option<Request>, Refusal>
    ensures ok { IfOk result (λ o. IfSome o (from.PostsIt source.now full.now job.now)) }
    ensures says { IfOk result (λ o. IfSome o (sent.PostsJob full.now job.now)) }
    ensures none { IfOk result (λ o. IfNone o
        (from.IsOf source.now (sent.namespace_in full.now) job.now → last_second < job.now.time)) }
    ensures err { IfErr result (λ e. e ≡ OutOfMemory) }
{
    let (namespace, name) = parts(full.as_str());
    let Some(time) = Seconds::new(job.time) else {
        return Ok(None);
    };
    if !is_of(source, namespace, job) {
        return Ok(None);
    }
    let marks = marks(alloc, source, time, job)?;
    let body = created_body(
        alloc,
        source.api,
        &source.head,
        name,
        &marks,
        source.by,
        source.template.get(),
    )?;
    Ok(Some(post_job(alloc, namespace, body)?))
}

// A time that is sent, if one is; none where it is past the greatest that is written.
fn success_in(success: Option<u64>) -> Option<Option<Seconds>>
    ensures value { IfSome result (λ s. s ≡ success) }
    ensures none { IfNone result (from.IsPast success) }
{
    match success {
        None => Some(None),
        Some(time) => match Seconds::new(time) {
            Some(seconds) => Some(Some(seconds)),
            None => None,
        },
    }
}

fn claim_request(
    alloc: Global,
    source: &CronParts,
    claim: &Claim,
) -> Result<Option<Request>, Refusal>
    ensures ok { IfOk result (λ o. IfSome o (from.ClaimsFrom source.now claim.now)) }
    ensures says { IfOk result (λ o. IfSome o (sent.ClaimsIt claim.now)) }
    ensures none { IfOk result (λ o. IfNone o
        ((last_second < claim.now.time) ⊎ from.IsPast claim.now.success)) }
    ensures err { IfErr result (λ e. e ≡ OutOfMemory) }
{
    let Some(time) = Seconds::new(claim.time) else {
        return Ok(None);
    };
    let Some(success) = success_in(claim.success) else {
        return Ok(None);
    };
    let active = active_value(alloc, &claim.active)?;
    let body = claim_body(
        alloc,
        claim.uid.as_str(),
        claim.version.as_str(),
        time,
        active,
        success,
    )?;
    let (namespace, name) = parts(claim.name.as_str());
    Ok(Some(patch_status(alloc, source.api, namespace, name, body)?))
}

fn tidy_request(alloc: Global, source: &CronParts, tidy: &Tidy) -> Result<Option<Request>, Refusal>
    ensures ok { IfOk result (λ o. IfSome o (from.TidiesFrom source.now tidy.now)) }
    ensures says { IfOk result (λ o. IfSome o (sent.TidiesIt tidy.now)) }
    ensures none { IfOk result (λ o. IfNone o (from.IsPast tidy.now.success)) }
    ensures err { IfErr result (λ e. e ≡ OutOfMemory) }
{
    let Some(success) = success_in(tidy.success) else {
        return Ok(None);
    };
    let active = active_value(alloc, &tidy.active)?;
    let body = tidy_body(
        alloc,
        tidy.uid.as_str(),
        tidy.version.as_str(),
        active,
        success,
    )?;
    let (namespace, name) = parts(tidy.name.as_str());
    Ok(Some(patch_status(alloc, source.api, namespace, name, body)?))
}

fn or_value(alloc: Global, found: Option<&Value>, usual: Value) -> Result<Value, Refusal>
    ensures ok { IfOk result (λ v. view v ≡ from.or_data (view usual)
        (option_map (λ v. view v.now) found.entry)) }
    ensures err { IfErr result (λ e. e ≡ OutOfMemory) }
{
    match found {
        Some(value) => Ok(value.clone()?),
        None => Ok(usual),
    }
}

// A member of the spec of the template.
fn template_spec<'s>(source: &'s CronParts, name: &str) -> Option<&'s Value>
    ensures { option_map (λ v. view v.now) result ≡ from.template_spec name.now source.now }
{
    member(present(source.template.get(), "spec"), name)
}

// Whether Jobs of the template are suspended.
fn suspend(alloc: Global, source: &CronParts) -> Result<Value, Refusal>
    ensures ok { IfOk result (λ v. view v ≡ from.suspend_of source.now) }
    ensures err { IfErr result (λ e. e ≡ OutOfMemory) }
{
    let found = template_spec(source, "suspend");
    or_value(alloc, found, Value::from(false))
}

// How many Pods of such a Job run at once.
fn parallelism(alloc: Global, source: &CronParts) -> Result<Value, Refusal>
    ensures ok { IfOk result (λ v. view v ≡ from.parallelism_of source.now) }
    ensures err { IfErr result (λ e. e ≡ OutOfMemory) }
{
    let found = template_spec(source, "parallelism");
    or_value(alloc, found, Value::from(1_u64))
}

// The patch that starts the Job of that uid.
fn start_value(alloc: Global, source: &CronParts, uid: &str) -> Result<Value, Refusal>
    ensures ok { IfOk result (λ v. view v ≡ start_body uid.now source.now.hold
        (from.suspend_of source.now) (from.parallelism_of source.now)) }
    ensures err { IfErr result (λ e. e ≡ OutOfMemory) }
{
    let suspend = suspend(alloc, source)?;
    let parallelism = parallelism(alloc, source)?;
    start_body(alloc, uid, source.hold, suspend, parallelism)
}

fn start_request(alloc: Global, source: &CronParts, job: &Ref) -> Result<Request, Refusal>
    ensures ok { IfOk result (from.StartsIt source.now job.now) }
    ensures says { IfOk result (sent.StartsJob job.now) }
    ensures err { IfErr result (λ e. e ≡ OutOfMemory) }
{
    let body = start_value(alloc, source, job.uid.as_str())?;
    let (namespace, name) = parts(job.name.as_str());
    patch_job(alloc, namespace, name, body)
}

fn delete_request(alloc: Global, job: &Ref, body: Value) -> Result<Request, Refusal>
    ensures ok { IfOk result (sent.DeletesJob job.now (view body)) }
    ensures err { IfErr result (λ e. e ≡ OutOfMemory) }
{
    let (namespace, name) = parts(job.name.as_str());
    delete_job(alloc, namespace, name, body)
}

/// The one request of a call, which says what the call is, by its CronJob. None for what a cache is
/// asked, for a Job that isn't to be of this CronJob, and for a time past the greatest that is
/// written.
pub fn request_of(
    alloc: Global,
    source: &CronParts,
    call: &Call,
) -> Result<Option<Request>, Refusal>
    ensures ok { IfOk result (λ o. IfSome o (sent.IsSentFor call.now)) }
    ensures exact { IfOk result (λ o. IfSome o (from.IsExactly source.now call.now)) }
    ensures none { IfOk result (λ o. IfNone o (from.HasNone source.now call.now)) }
    ensures err { IfErr result (λ e. e ≡ OutOfMemory) }
{
    match call {
        Call::GetCron(name) => Ok(Some(cron_request(alloc, source, name)?)),
        Call::GetJob(name) => Ok(Some(job_request(alloc, name)?)),
        Call::Create(name, job) => create_request(alloc, source, name, job),
        Call::Claim(claim) => claim_request(alloc, source, claim),
        Call::Tidy(tidy) => tidy_request(alloc, source, tidy),
        Call::Start(job) => Ok(Some(start_request(alloc, source, job)?)),
        Call::Delete(job) => {
            let body = delete_body(alloc, job.uid.as_str())?;
            Ok(Some(delete_request(alloc, job, body)?))
        }
        Call::Expire(job, version, _) => {
            let body = expire_body(alloc, job.uid.as_str(), version.as_str())?;
            Ok(Some(delete_request(alloc, job, body)?))
        }
        Call::CacheCron(_) | Call::CacheJob(_) | Call::ListJobs => Ok(None),
    }
}

/// The POST of an Event, which is of no sync.
#[tactic(auto, using(crate::proofs::NameLemmas::event_of_no_sync))]
pub fn event_request(alloc: Global, namespace: &str, body: Value) -> Result<Request, Refusal>
    ensures { IfOk result sent.IsOfNoSync }
{
    post_event(alloc, namespace, body)
}

/// The merge patch of an Event by which it is counted, which is of no sync.
#[tactic(auto, using(crate::proofs::NameLemmas::event_patch_of_no_sync))]
pub fn event_patch(
    alloc: Global,
    namespace: &str,
    name: &str,
    body: Value,
) -> Result<Request, Refusal>
    ensures { IfOk result sent.IsOfNoSync }
{
    patch_event(alloc, namespace, name, body)
}
