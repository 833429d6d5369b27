// The items of a list of one kind, each without what the list says of them all.
ghost use Rattle.std.specs.Prelude.{◌≡◌, ◌≤◌, IfOk, IfErr, codes, option_map};
ghost use Rattle.serde_json.specs.Data.{depth, object, put, string};
ghost use Rattle.serde_json.specs.Read.{max_depth};
ghost use Rattle.serde_json.specs.View.{members_view, view};
ghost use Rattle.cj_base.specs.declared.refusal.Refusal.TheVariants.{OutOfMemory};
ghost use Rattle.cj_manifest.specs.Members.{present};
ghost use Rattle.cj_cluster.specs.kubectl.Lists.{item_kind, kind_listed, unless_said, with_kind, with_text, with_version};

use crate::kubectl::lists::text_at;
use cj_manifest::present;
use cj_types::Refusal;
use serde_json::{Map, Value, put};
use std::alloc::Global;

fn kind_listed(kind: &str) -> Option<&'static str>
    ensures { option_map (λ s. s.now) result ≡ kind_listed kind.now }
{
    if kind == "CronJobList" {
        Some("CronJob")
    } else if kind == "JobList" {
        Some("Job")
    } else {
        None
    }
}

/// The kind of a list's items, where the list's own kind says it.
pub(crate) fn item_kind(value: &Value) -> Option<&'static str>
    ensures { option_map (λ s. s.now) result ≡ item_kind (view value.now) }
{
    kind_listed(text_at(value, "kind")?)
}

/// What the list says of its items' kind, where the item says nothing.
pub(crate) fn unsaid_kind<'v>(value: &Value, kind: Option<&'v str>) -> Option<&'v str>
    ensures { option_map (λ s. s.now) result
        ≡ unless_said (present (codes "kind") (view value.now))
        (option_map (λ s. s.now) kind.entry) }
{
    match present(value, "kind") {
        Some(_) => None,
        None => kind,
    }
}

// With a text as the member of that name.
fn with_member(
    alloc: Global,
    members: Map<String, Value>,
    name: &str,
    text: &str,
) -> Result<Value, Refusal>
    ensures ok { IfOk result (λ v. view v
        ≡ object (put name.now (string text.now) (members_view members.entries))) }
    ensures err { IfErr result (λ e. e ≡ OutOfMemory) }
{
    let mut members = members;
    let text = Value::try_from_str(alloc, text)?;
    put(&mut members, alloc, name, text)?;
    Ok(Value::Object(members))
}

fn with_text(alloc: Global, value: Value, name: &str, text: &str) -> Result<Value, Refusal>
    ensures ok { IfOk result (λ v. view v ≡ with_text name.now text.now (view value)) }
    ensures err { IfErr result (λ e. e ≡ OutOfMemory) }
{
    match value {
        Value::Object(members) => with_member(alloc, members, name, text),
        other => Ok(other),
    }
}

fn with_version(alloc: Global, value: Value, version: Option<&str>) -> Result<Value, Refusal>
    ensures ok { IfOk result (λ v. view v
        ≡ with_version (option_map (λ s. s.now) version.entry) (view value)) }
    ensures err { IfErr result (λ e. e ≡ OutOfMemory) }
{
    match version {
        Some(version) => with_text(alloc, value, "apiVersion", version),
        None => Ok(value),
    }
}

/// A copy of an item, of this kind and version. It nests no deeper than the item.
pub(crate) fn typed_copy(
    alloc: Global,
    value: &Value,
    kind: &str,
    version: Option<&str>,
) -> Result<Value, Refusal>
    ensures ok { IfOk result (λ v. view v ≡ with_text (codes "kind") kind.now
        (with_version (option_map (λ s. s.now) version.entry) (view value.now))) }
    ensures flat { IfOk result (λ v. depth (view v) ≤ depth (view value.now)) }
    ensures err { IfErr result (λ e. e ≡ OutOfMemory) }
{
    let copy = value.clone()?;
    let versioned = with_version(alloc, copy, version)?;
    with_text(alloc, versioned, "kind", kind)
}
