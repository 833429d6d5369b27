// The Job that a controller creates.
ghost use Rattle.std.specs.Prelude.{◌≡◌, [], ◌∷◌, IfOk, IfErr, OnOk, option_map, codes};
ghost use Rattle.serde_json.specs.Data.{array, object, put as with_member, string};
ghost use Rattle.serde_json.specs.View.{items_of, members_view, view};
ghost use Rattle.cj_base.specs.declared.refusal.Refusal.TheVariants.{OutOfMemory};
ghost use Rattle.cj_control.specs.Created as made;

use crate::api::ApiVersion;
use crate::objects::{Head, member, meta};
use crate::request::HeldBy;
use cj_base::{Refusal, Text};
use cj_manifest::present;
use serde_json::{Map, Value, json, put};
use std::alloc::{AllocError, Global};

/// What a created Job is marked with.
#[derive(Drop)]
pub struct MarkTexts {
    /// Its scheduled time, as RFC 3339.
    pub time: Text,
    /// The policy under which it is made.
    pub policy: Text,
    /// What tells its template from others.
    pub template: Text,
}

// Copies of the members of an object; none where it isn't one.
fn members_of(alloc: Global, value: Option<&Value>) -> Result<Map<String, Value>, Refusal>
    ensures ok { IfOk result (λ m. members_view m.entries
        ≡ made.members_of (option_map (λ v. view v.now) value.entry)) }
    ensures err { IfErr result (λ e. e ≡ OutOfMemory) }
{
    let Some(found) = value else {
        return Ok(Map::new(alloc));
    };
    match found.clone()? {
        Value::Object(members) => Ok(members),
        _ => Ok(Map::new(alloc)),
    }
}

fn put_value(
    members: &mut Map<String, Value>,
    alloc: Global,
    name: &str,
    value: Value,
) -> Result<(), Refusal>
    ensures ok { OnOk result (members_view members.new.entries
        ≡ with_member name.now (view value) (members_view members.old.entries)) }
    ensures err { IfErr result (λ e. e ≡ OutOfMemory) }
{
    put(members, alloc, name, value)?;
    Ok(())
}

fn put_text(
    members: &mut Map<String, Value>,
    alloc: Global,
    name: &str,
    text: &str,
) -> Result<(), Refusal>
    ensures ok { OnOk result (members_view members.new.entries
        ≡ with_member name.now (string text.now) (members_view members.old.entries)) }
    ensures err { IfErr result (λ e. e ≡ OutOfMemory) }
{
    let value = Value::try_from_str(alloc, text)?;
    put_value(members, alloc, name, value)
}

fn labels(alloc: Global, uid: &str, template: &Value) -> Result<Value, Refusal>
    ensures ok { IfOk result (λ v. view v ≡ object (made.labels uid.now
        (made.template_members (codes "labels") (view template.now)))) }
    ensures err { IfErr result (λ e. e ≡ OutOfMemory) }
{
    let mut members = members_of(alloc, meta(template, "labels"))?;
    put_text(&mut members, alloc, "cronsim/uid", uid)?;
    Ok(Value::Object(members))
}

fn put_marks(
    members: &mut Map<String, Value>,
    alloc: Global,
    marks: &MarkTexts,
    by: HeldBy,
) -> Result<(), Refusal>
    ensures ok { OnOk result (members_view members.new.entries
        ≡ made.annotations by marks.now (members_view members.old.entries)) }
    ensures err { IfErr result (λ e. e ≡ OutOfMemory) }
{
    let time = "batch.kubernetes.io/cronjob-scheduled-timestamp";
    put_text(members, alloc, time, marks.time.as_str())?;
    put_text(members, alloc, "cronsim/policy", marks.policy.as_str())?;
    put_text(members, alloc, "cronsim/template", marks.template.as_str())?;
    put_text(members, alloc, "cronsim/held", by.hold().text())
}

fn annotations(
    alloc: Global,
    marks: &MarkTexts,
    by: HeldBy,
    template: &Value,
) -> Result<Value, Refusal>
    ensures ok { IfOk result (λ v. view v ≡ object (made.annotations by marks.now
        (made.template_members (codes "annotations") (view template.now)))) }
    ensures err { IfErr result (λ e. e ≡ OutOfMemory) }
{
    let mut members = members_of(alloc, meta(template, "annotations"))?;
    put_marks(&mut members, alloc, marks, by)?;
    Ok(Value::Object(members))
}

// Whether a spec says how many Pods are to complete, or how many run at once.
fn has_count(spec: Option<&Value>) -> bool
    ensures { result ≡ made.has_count (option_map (λ v. view v.now) spec.entry) }
{
    let completes = member(spec, "completions").is_some();
    let runs = member(spec, "parallelism").is_some();
    completes || runs
}

fn put_count(members: &mut Map<String, Value>, alloc: Global, counts: bool) -> Result<(), Refusal>
    ensures ok { OnOk result (members_view members.new.entries
        ≡ made.counted counts (members_view members.old.entries)) }
    ensures err { IfErr result (λ e. e ≡ OutOfMemory) }
{
    if counts {
        return Ok(());
    }
    put_value(members, alloc, "completions", Value::from(1_u64))
}

fn put_hold(
    members: &mut Map<String, Value>,
    alloc: Global,
    by: HeldBy,
    counts: bool,
) -> Result<(), Refusal>
    ensures ok { OnOk result (members_view members.new.entries
        ≡ made.held_spec by counts (members_view members.old.entries)) }
    ensures err { IfErr result (λ e. e ≡ OutOfMemory) }
{
    match by {
        HeldBy::Suspend => put_value(members, alloc, "suspend", Value::from(true)),
        HeldBy::Parallelism => {
            put_count(members, alloc, counts)?;
            put_value(members, alloc, "parallelism", Value::from(0_u64))
        }
    }
}

fn held_spec(alloc: Global, by: HeldBy, spec: Option<&Value>) -> Result<Value, Refusal>
    ensures ok { IfOk result (λ v. view v
        ≡ object (made.held by (option_map (λ v. view v.now) spec.entry))) }
    ensures err { IfErr result (λ e. e ≡ OutOfMemory) }
{
    let counts = has_count(spec);
    let mut members = members_of(alloc, spec)?;
    put_hold(&mut members, alloc, by, counts)?;
    Ok(Value::Object(members))
}

fn owner_object(alloc: Global, api: &str, name: &str, uid: &str) -> Result<Value, AllocError>
    ensures { IfOk result (λ v. view v ≡ made.owner_by api.now name.now uid.now) }
{
    json!(in alloc; {
        "apiVersion": api,
        "blockOwnerDeletion": true,
        "controller": true,
        "kind": "CronJob",
        "name": name,
        "uid": uid
    })
}

fn owner(alloc: Global, api: ApiVersion, name: &str, uid: &str) -> Result<Value, AllocError>
    ensures { IfOk result (λ v. view v ≡ made.owner api name.now uid.now) }
{
    owner_object(alloc, api.text(), name, uid)
}

fn one_value(alloc: Global, value: Value) -> Result<Value, AllocError>
    ensures { IfOk result (λ v. view v ≡ array (items_of (view value ∷ []))) }
{
    json!(in alloc; [value])
}

fn metadata_object(
    alloc: Global,
    namespace: &str,
    name: &str,
    annotations: Value,
    labels: Value,
    owners: Value,
) -> Result<Value, AllocError>
    ensures { IfOk result (λ v. view v ≡ made.metadata_of namespace.now name.now
        (view annotations) (view labels) (view owners)) }
{
    json!(in alloc; {
        "annotations": annotations,
        "labels": labels,
        "name": name,
        "namespace": namespace,
        "ownerReferences": owners
    })
}

fn metadata(
    alloc: Global,
    api: ApiVersion,
    head: &Head,
    name: &str,
    annotations: Value,
    labels: Value,
) -> Result<Value, Refusal>
    ensures ok { IfOk result (λ v. view v
        ≡ made.metadata api head.now name.now (view annotations) (view labels)) }
    ensures err { IfErr result (λ e. e ≡ OutOfMemory) }
{
    let owner = owner(alloc, api, head.name.as_str(), head.uid.as_str())?;
    let owners = one_value(alloc, owner)?;
    let namespace = head.namespace.as_str();
    Ok(metadata_object(alloc, namespace, name, annotations, labels, owners)?)
}

fn job_object(alloc: Global, metadata: Value, spec: Value) -> Result<Value, AllocError>
    ensures { IfOk result (λ v. view v ≡ made.job (view metadata) (view spec)) }
{
    json!(in alloc; {
        "apiVersion": "batch/v1",
        "kind": "Job",
        "metadata": metadata,
        "spec": spec
    })
}

/// The Job of that name and with those marks, held, by the CronJob's head and its `jobTemplate`.
pub fn created_body(
    alloc: Global,
    api: ApiVersion,
    head: &Head,
    name: &str,
    marks: &MarkTexts,
    by: HeldBy,
    template: &Value,
) -> Result<Value, Refusal>
    ensures ok { IfOk result (λ v. view v
        ≡ made.created_body api head.now name.now marks.now by (view template.now)) }
    ensures err { IfErr result (λ e. e ≡ OutOfMemory) }
{
    let annotations = annotations(alloc, marks, by, template)?;
    let labels = labels(alloc, head.uid.as_str(), template)?;
    let spec = held_spec(alloc, by, present(template, "spec"))?;
    let metadata = metadata(alloc, api, head, name, annotations, labels)?;
    Ok(job_object(alloc, metadata, spec)?)
}
