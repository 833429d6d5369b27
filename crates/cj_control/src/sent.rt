// The requests of a sync.
ghost use Rattle.std.specs.Prelude.{◌≡◌, None, Some, IfOk, IfErr, string_bytes};
ghost use Rattle.serde_json.specs.View.{view};
ghost use Rattle.cj_base.specs.declared.refusal.Refusal.TheVariants.{OutOfMemory};
ghost use Rattle.cj_control.specs.declared.sent.Verb.TheVariants as By;
ghost use Rattle.cj_control.specs.Sent as sent;

use crate::api::ApiVersion;
use cj_base::{Refusal, Text};
use percent_encoding::{AsciiSet, NON_ALPHANUMERIC, ascii_set, utf8_percent_encode};
use serde_json::{Value, json};
use std::alloc::{AllocError, Global};

/// The method of a request, and what its body is.
#[derive(Clone, Copy, Debug, PartialEq, Eq)]
pub enum Verb {
    Get,
    /// POST of an object.
    Post,
    /// PATCH by a merge patch.
    MergePatch,
    /// PATCH by a JSON patch.
    JsonPatch,
    Delete,
}

/// A request.
#[derive(Drop)]
pub struct Request {
    pub verb: Verb,
    pub path: Text,
    pub body: Option<Value>,
}

/// What is percent-encoded in a segment of a path: all but the unreserved characters of RFC 3986.
const SEGMENT: AsciiSet = ascii_set!(
    NON_ALPHANUMERIC
        .remove(b'-')
        .remove(b'.')
        .remove(b'_')
        .remove(b'~')
);

// A name as a segment of a path.
fn segment(alloc: Global, name: &str) -> Result<String, AllocError>
    ensures { IfOk result (λ s. string_bytes s ≡ sent.segment name.now) }
{
    let mut text = String::new(alloc);
    utf8_percent_encode(name, SEGMENT).append_to(&mut text)?;
    Ok(text)
}

fn jobs_path(alloc: Global, namespace: &str) -> Result<Text, Refusal>
    ensures ok { IfOk result (λ t. t ≡ sent.jobs_path namespace.now) }
    ensures err { IfErr result (λ e. e ≡ OutOfMemory) }
{
    let namespace = segment(alloc, namespace)?;
    let path = format!(in alloc; "/apis/batch/v1/namespaces/{namespace}/jobs")?;
    Text::new(alloc, path.as_str())
}

fn job_path(alloc: Global, namespace: &str, name: &str) -> Result<Text, Refusal>
    ensures ok { IfOk result (λ t. t ≡ sent.job_path namespace.now name.now) }
    ensures err { IfErr result (λ e. e ≡ OutOfMemory) }
{
    let namespace = segment(alloc, namespace)?;
    let name = segment(alloc, name)?;
    let path = format!(in alloc; "/apis/batch/v1/namespaces/{namespace}/jobs/{name}")?;
    Text::new(alloc, path.as_str())
}

fn cron_path(alloc: Global, api: ApiVersion, namespace: &str, name: &str) -> Result<Text, Refusal>
    ensures ok { IfOk result (λ t. t ≡ sent.cron_path api namespace.now name.now) }
    ensures err { IfErr result (λ e. e ≡ OutOfMemory) }
{
    let api = api.text();
    let namespace = segment(alloc, namespace)?;
    let name = segment(alloc, name)?;
    let path = format!(in alloc; "/apis/{api}/namespaces/{namespace}/cronjobs/{name}")?;
    Text::new(alloc, path.as_str())
}

fn status_path(alloc: Global, api: ApiVersion, namespace: &str, name: &str) -> Result<Text, Refusal>
    ensures ok { IfOk result (λ t. t ≡ sent.status_path api namespace.now name.now) }
    ensures err { IfErr result (λ e. e ≡ OutOfMemory) }
{
    let api = api.text();
    let namespace = segment(alloc, namespace)?;
    let name = segment(alloc, name)?;
    let path = format!(in alloc; "/apis/{api}/namespaces/{namespace}/cronjobs/{name}/status")?;
    Text::new(alloc, path.as_str())
}

fn events_path(alloc: Global, namespace: &str) -> Result<Text, Refusal>
    ensures ok { IfOk result (λ t. t ≡ sent.events_path namespace.now) }
    ensures err { IfErr result (λ e. e ≡ OutOfMemory) }
{
    let namespace = segment(alloc, namespace)?;
    let path = format!(in alloc; "/api/v1/namespaces/{namespace}/events")?;
    Text::new(alloc, path.as_str())
}

fn event_path(alloc: Global, namespace: &str, name: &str) -> Result<Text, Refusal>
    ensures ok { IfOk result (λ t. t ≡ sent.event_path namespace.now name.now) }
    ensures err { IfErr result (λ e. e ≡ OutOfMemory) }
{
    let namespace = segment(alloc, namespace)?;
    let name = segment(alloc, name)?;
    let path = format!(in alloc; "/api/v1/namespaces/{namespace}/events/{name}")?;
    Text::new(alloc, path.as_str())
}

/// A GET of a CronJob.
pub fn get_cron(
    alloc: Global,
    api: ApiVersion,
    namespace: &str,
    name: &str,
) -> Result<Request, Refusal>
    ensures ok { IfOk result (sent.IsRequest By.Get
        (sent.cron_path api namespace.now name.now) None) }
    ensures err { IfErr result (λ e. e ≡ OutOfMemory) }
{
    Ok(Request {
        verb: Verb::Get,
        path: cron_path(alloc, api, namespace, name)?,
        body: None,
    })
}

/// A GET of a Job.
pub fn get_job(alloc: Global, namespace: &str, name: &str) -> Result<Request, Refusal>
    ensures ok { IfOk result (sent.IsRequest By.Get
        (sent.job_path namespace.now name.now) None) }
    ensures err { IfErr result (λ e. e ≡ OutOfMemory) }
{
    Ok(Request {
        verb: Verb::Get,
        path: job_path(alloc, namespace, name)?,
        body: None,
    })
}

/// A POST of a Job with this body.
pub fn post_job(alloc: Global, namespace: &str, body: Value) -> Result<Request, Refusal>
    ensures ok { IfOk result (sent.IsRequest By.Post
        (sent.jobs_path namespace.now) (Some (view body))) }
    ensures err { IfErr result (λ e. e ≡ OutOfMemory) }
{
    Ok(Request {
        verb: Verb::Post,
        path: jobs_path(alloc, namespace)?,
        body: Some(body),
    })
}

/// A merge patch of a CronJob's status.
pub fn patch_status(
    alloc: Global,
    api: ApiVersion,
    namespace: &str,
    name: &str,
    body: Value,
) -> Result<Request, Refusal>
    ensures ok { IfOk result (sent.IsRequest By.MergePatch
        (sent.status_path api namespace.now name.now) (Some (view body))) }
    ensures err { IfErr result (λ e. e ≡ OutOfMemory) }
{
    Ok(Request {
        verb: Verb::MergePatch,
        path: status_path(alloc, api, namespace, name)?,
        body: Some(body),
    })
}

/// A JSON patch of a Job.
pub fn patch_job(
    alloc: Global,
    namespace: &str,
    name: &str,
    body: Value,
) -> Result<Request, Refusal>
    ensures ok { IfOk result (sent.IsRequest By.JsonPatch
        (sent.job_path namespace.now name.now) (Some (view body))) }
    ensures err { IfErr result (λ e. e ≡ OutOfMemory) }
{
    Ok(Request {
        verb: Verb::JsonPatch,
        path: job_path(alloc, namespace, name)?,
        body: Some(body),
    })
}

/// A DELETE of a Job with these options.
pub fn delete_job(
    alloc: Global,
    namespace: &str,
    name: &str,
    body: Value,
) -> Result<Request, Refusal>
    ensures ok { IfOk result (sent.IsRequest By.Delete
        (sent.job_path namespace.now name.now) (Some (view body))) }
    ensures err { IfErr result (λ e. e ≡ OutOfMemory) }
{
    Ok(Request {
        verb: Verb::Delete,
        path: job_path(alloc, namespace, name)?,
        body: Some(body),
    })
}

/// A POST of an Event with this body.
pub fn post_event(alloc: Global, namespace: &str, body: Value) -> Result<Request, Refusal>
    ensures ok { IfOk result (sent.IsRequest By.Post
        (sent.events_path namespace.now) (Some (view body))) }
    ensures err { IfErr result (λ e. e ≡ OutOfMemory) }
{
    Ok(Request {
        verb: Verb::Post,
        path: events_path(alloc, namespace)?,
        body: Some(body),
    })
}

/// A merge patch of an Event.
pub fn patch_event(
    alloc: Global,
    namespace: &str,
    name: &str,
    body: Value,
) -> Result<Request, Refusal>
    ensures ok { IfOk result (sent.IsRequest By.MergePatch
        (sent.event_path namespace.now name.now) (Some (view body))) }
    ensures err { IfErr result (λ e. e ≡ OutOfMemory) }
{
    Ok(Request {
        verb: Verb::MergePatch,
        path: event_path(alloc, namespace, name)?,
        body: Some(body),
    })
}

/// A GET of what is at a path.
pub fn get_path(path: Text) -> Request
    ensures { sent.IsRequest By.Get path None result }
{
    Request {
        verb: Verb::Get,
        path,
        body: None,
    }
}

fn method(verb: Verb) -> &'static str
    ensures { result.now ≡ sent.method verb }
{
    match verb {
        Verb::Get => "GET",
        Verb::Post => "POST",
        Verb::MergePatch => "PATCH",
        Verb::JsonPatch => "PATCH",
        Verb::Delete => "DELETE",
    }
}

fn content_type(verb: Verb) -> &'static str
    ensures { result.now ≡ sent.content_type verb }
{
    match verb {
        Verb::MergePatch => "application/merge-patch+json",
        Verb::JsonPatch => "application/json-patch+json",
        _ => "application/json",
    }
}

fn bare_object(alloc: Global, id: u64, method: &str, path: &str) -> Result<Value, AllocError>
    ensures { IfOk result (λ v. view v ≡ sent.bare id method.now path.now) }
{
    json!(in alloc; {"id": id, "method": method, "path": path})
}

fn full_object(
    alloc: Global,
    id: u64,
    method: &str,
    path: &str,
    kind: &str,
    body: Value,
) -> Result<Value, AllocError>
    ensures { IfOk result (λ v. view v
        ≡ sent.with_body id method.now path.now kind.now (view body)) }
{
    json!(in alloc; {
        "body": body,
        "contentType": kind,
        "id": id,
        "method": method,
        "path": path
    })
}

/// The line that asks the transport to send a request under a number.
pub fn request_line(alloc: Global, id: u64, request: Request) -> Result<Value, Refusal>
    ensures ok { IfOk result (λ v. view v ≡ sent.line id request) }
    ensures err { IfErr result (λ e. e ≡ OutOfMemory) }
{
    let Request { verb, path, body } = request;
    let method = method(verb);
    match body {
        Some(body) => {
            let kind = content_type(verb);
            Ok(full_object(alloc, id, method, path.as_str(), kind, body)?)
        }
        None => Ok(bare_object(alloc, id, method, path.as_str())?),
    }
}

fn bare_request(alloc: Global, method: &str, path: &str) -> Result<Value, AllocError>
    ensures { IfOk result (λ v. view v ≡ sent.bare_request method.now path.now) }
{
    json!(in alloc; {"method": method, "path": path})
}

fn full_request(
    alloc: Global,
    method: &str,
    path: &str,
    kind: &str,
    body: Value,
) -> Result<Value, AllocError>
    ensures { IfOk result (λ v. view v
        ≡ sent.full_request method.now path.now kind.now (view body)) }
{
    json!(in alloc; {
        "body": body,
        "contentType": kind,
        "method": method,
        "path": path
    })
}

/// A request as people are shown it: what is sent, without a number.
pub fn request_value(alloc: Global, request: Request) -> Result<Value, Refusal>
    ensures ok { IfOk result (λ v. view v ≡ sent.request_data request) }
    ensures err { IfErr result (λ e. e ≡ OutOfMemory) }
{
    let Request { verb, path, body } = request;
    let method = method(verb);
    match body {
        Some(body) => {
            let kind = content_type(verb);
            Ok(full_request(alloc, method, path.as_str(), kind, body)?)
        }
        None => Ok(bare_request(alloc, method, path.as_str())?),
    }
}
