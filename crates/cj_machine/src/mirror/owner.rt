// The CronJob that an object touches.
ghost use Rattle.std.specs.Prelude.{◌≡◌, IfErr, IfOk, option_map};
ghost use Rattle.serde_json.specs.View.{items_view, view};
ghost use Rattle.cj_base.specs.declared.refusal.Refusal.TheVariants.{OutOfMemory};
ghost use Rattle.cj_machine.specs.Mirror as mirror;
ghost use Rattle.cj_control.specs.Objects as seen;

use crate::source::Source;
use cj_base::{Refusal, TryCopy};
use cj_control::{list_of, meta, text_at};
use cj_manifest::present;
use cj_types::Key;
use serde_json::Value;
use std::alloc::Global;

/// The key of these texts, where they are well formed.
fn key_of(alloc: Global, namespace: &str, name: &str) -> Result<Option<Key>, Refusal>
    ensures ok { IfOk result (λ o. o ≡ mirror.key_of namespace.now name.now) }
    ensures err { IfErr result (λ e. e ≡ OutOfMemory) }
{
    match Key::new(alloc, namespace, name) {
        Ok(key) => Ok(Some(key)),
        Err(Refusal::OutOfMemory) => Err(Refusal::OutOfMemory),
        Err(_) => Ok(None),
    }
}

fn meta_text<'v>(value: &'v Value, name: &str) -> Option<&'v str>
    ensures { option_map (λ s. s.now) result ≡ mirror.meta_text name.now (view value.now) }
{
    meta(value, name)?.as_str()
}

/// The key of an object, where its namespace and name make one.
pub(crate) fn key_in(alloc: Global, value: &Value) -> Result<Option<Key>, Refusal>
    ensures ok { IfOk result (λ o. o ≡ mirror.key_in (view value.now)) }
    ensures err { IfErr result (λ e. e ≡ OutOfMemory) }
{
    let Some(namespace) = meta_text(value, "namespace") else {
        return Ok(None);
    };
    let Some(name) = meta_text(value, "name") else {
        return Ok(None);
    };
    key_of(alloc, namespace, name)
}

fn is_controller(owner: &Value) -> bool
    ensures { result ≡ seen.is_controller (view owner.now) }
{
    match present(owner, "controller") {
        Some(found) => found.as_bool().unwrap_or(false),
        None => false,
    }
}

// The owner that is the controller.
fn controller(owners: &[Value]) -> Option<&Value>
    ensures { option_map (λ v. view v.now) result ≡ mirror.controller (items_view owners.now) }
{
    for owner in owners {
        if is_controller(owner) {
            return Some(owner);
        }
    }
    None
}

// Whether a reference is to a CronJob of some version of the group `batch`.
fn is_of_batch(kind: &str, version: &str) -> bool
    ensures { result ≡ mirror.is_of_batch kind.now version.now }
{
    let is_cron = kind == "CronJob";
    let is_batch = version.as_bytes().starts_with(b"batch/");
    is_cron && is_batch
}

// The name of the CronJob that a reference is to.
fn cron_name(owner: &Value) -> Option<&str>
    ensures { option_map (λ s. s.now) result ≡ mirror.cron_name (view owner.now) }
{
    let kind = text_at(owner, "kind")?;
    let version = text_at(owner, "apiVersion")?;
    let name = text_at(owner, "name")?;
    if is_of_batch(kind, version) {
        Some(name)
    } else {
        None
    }
}

fn controller_name(value: &Value) -> Option<&str>
    ensures { option_map (λ s. s.now) result ≡ mirror.controller_name (view value.now) }
{
    let owners = list_of(meta(value, "ownerReferences"));
    cron_name(controller(owners)?)
}

// The CronJob that a Job's controller names, in its namespace.
fn cron_of_job(alloc: Global, key: &Key, value: &Value) -> Result<Option<Key>, Refusal>
    ensures ok { IfOk result (λ o. o ≡ mirror.cron_of_job key.now (view value.now)) }
    ensures err { IfErr result (λ e. e ≡ OutOfMemory) }
{
    match controller_name(value) {
        Some(name) => key_of(alloc, key.namespace(), name),
        None => Ok(None),
    }
}

/// The CronJob that an object at a key touches: itself, or the one that its controller names.
pub(crate) fn cron_of(
    alloc: Global,
    source: Source,
    key: &Key,
    value: &Value,
) -> Result<Option<Key>, Refusal>
    ensures ok { IfOk result (λ o. o ≡ mirror.cron_of source key.now (view value.now)) }
    ensures err { IfErr result (λ e. e ≡ OutOfMemory) }
{
    match source {
        Source::Crons => Ok(Some(key.try_copy(alloc)?)),
        Source::Jobs => cron_of_job(alloc, key, value),
    }
}
