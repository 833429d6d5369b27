// The CronJob that an item is of, as far as its value says.
ghost use Rattle.std.specs.Prelude.{◌≡◌, IfOk, IfErr, codes, option_map, unwrap_or};
ghost use Rattle.serde_json.specs.View.{view};
ghost use Rattle.cj_base.specs.declared.refusal.Refusal.TheVariants.{OutOfMemory};
ghost use Rattle.cj_types.specs.Objects.{cron_of};
ghost use Rattle.cj_types.specs.Owners.{controller_of};
ghost use Rattle.cj_table.specs.jobs.Owners.{names};
ghost use Rattle.cj_cluster.specs.kubectl.Named as told;

use crate::cron::has_uid;
use crate::kubectl::lists::text_at;
use crate::kubectl::status::member;
use cj_manifest::metadata;
use cj_types::{Job, Refusal, Text};
use serde_json::Value;
use std::alloc::Global;

/// The name of a CronJob, as an item says it that may not be one.
#[derive(Debug, Drop)]
pub struct CronName {
    /// Its namespace, `default` where none is written.
    pub namespace: Text,
    pub name: Text,
    /// Both, as NAMESPACE/NAME.
    pub key: Text,
    /// The uid that the server gave it, where one is written.
    pub uid: Option<Text>,
}

/// A text of the metadata.
pub(crate) fn meta_text<'v>(value: &'v Value, id: &str) -> Option<&'v str>
    ensures { option_map (λ s. s.now) result ≡ told.meta_text id.now (view value.now) }
{
    member(metadata(value).ok(), id)?.as_str()
}

/// The namespace that is written, else `default`.
pub(crate) fn namespace_of(value: &Value) -> &str
    ensures { result.now
        ≡ unwrap_or (told.meta_text (codes "namespace") (view value.now)) (codes "default") }
{
    match meta_text(value, "namespace") {
        Some(namespace) => namespace,
        None => "default",
    }
}

fn optional_text(alloc: Global, text: Option<&str>) -> Result<Option<Text>, Refusal>
    ensures ok { IfOk result (λ t. t ≡ option_map (λ s. s.now) text.entry) }
    ensures err { IfErr result (λ e. e ≡ OutOfMemory) }
{
    match text {
        Some(text) => Ok(Some(Text::new(alloc, text)?)),
        None => Ok(None),
    }
}

/// NAMESPACE/NAME.
pub(crate) fn key_text(alloc: Global, namespace: &str, name: &str) -> Result<Text, Refusal>
    ensures ok { IfOk result (λ t. t ≡ told.key_text namespace.now name.now) }
    ensures err { IfErr result (λ e. e ≡ OutOfMemory) }
{
    let key = format!(in alloc; "{namespace}/{name}")?;
    Text::new(alloc, key.as_str())
}

fn name_with(alloc: Global, value: &Value, name: Option<&str>) -> Result<Option<CronName>, Refusal>
    ensures ok { IfOk result (λ n. n
        ≡ told.name_with (view value.now) (option_map (λ s. s.now) name.entry)) }
    ensures err { IfErr result (λ e. e ≡ OutOfMemory) }
{
    let Some(name) = name else {
        return Ok(None);
    };
    let namespace = namespace_of(value);
    Ok(Some(CronName {
        namespace: Text::new(alloc, namespace)?,
        name: Text::new(alloc, name)?,
        key: key_text(alloc, namespace, name)?,
        uid: optional_text(alloc, meta_text(value, "uid"))?,
    }))
}

fn is_cron(kind: Option<&str>) -> bool
    ensures { result ≡ told.is_cron (option_map (λ s. s.now) kind.entry) }
{
    match kind {
        Some(kind) => kind == "CronJob",
        None => false,
    }
}

/// The name of an object of kind CronJob, where it is a text.
pub(crate) fn cron_named(alloc: Global, value: &Value) -> Result<Option<CronName>, Refusal>
    ensures ok { IfOk result (λ n. n ≡ told.cron_named (view value.now)) }
    ensures err { IfErr result (λ e. e ≡ OutOfMemory) }
{
    if is_cron(text_at(value, "kind")) {
        name_with(alloc, value, meta_text(value, "name"))
    } else {
        Ok(None)
    }
}

// Whether the Job's controller is a CronJob of that name.
fn is_named(name: &str, job: &Job) -> bool
    ensures { result ≡ names name.now (cron_of job.now) }
{
    match job.cron_name() {
        Some(named) => named.as_str() == name,
        None => false,
    }
}

fn may_have_uid(uid: &Option<Text>, job: &Job) -> bool
    ensures { result ≡ told.may_have_uid uid.now (controller_of job.now.owners) }
{
    match uid {
        Some(uid) => has_uid(uid.as_str(), job),
        None => true,
    }
}

impl CronName {
    /// Whether the Job's controller is that CronJob: by its name in the Job's namespace, and by its
    /// uid where that is written.
    pub fn controls(&self, job: &Job) -> bool
        ensures { result ≡ told.is_named_by self.now job.now }
    {
        let is_beside = job.key.namespace() == self.namespace.as_str();
        let is_named = is_named(self.name.as_str(), job);
        let may_have_uid = may_have_uid(&self.uid, job);
        (is_beside && is_named) && may_have_uid
    }
}
