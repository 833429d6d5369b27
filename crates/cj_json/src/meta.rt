// The metadata of an object.
ghost use Rattle.std.specs.Prelude.{◌≡◌, map, IfOk, IfErr, OnOk};
ghost use Rattle.cj_base.specs.declared.refusal.Refusal.TheVariants.{OutOfMemory};
ghost use Rattle.serde_json.specs.View.{view, members_view};
ghost use Rattle.cj_json.specs.Objects as object;
ghost use Rattle.cj_json.specs.Parts as part;

use crate::members::{put_labels, put_number, put_some_list, put_text, put_time, put_truth};
use crate::values::push_value;
use cj_base::{all_three, both};
use cj_types::{Key, Meta, OwnerRef, Refusal, version_text};
use serde_json::{Map, Value};
use std::alloc::Global;

fn owner_value(alloc: Global, owner: &OwnerRef) -> Result<Value, Refusal>
    ensures ok { IfOk result (λ v. view v ≡ part.owner_data owner.now) }
    ensures err { IfErr result (λ e. e ≡ OutOfMemory) }
{
    let mut members = Map::new(alloc);
    let version = put_text(
        &mut members,
        alloc,
        "apiVersion",
        owner.api_version.as_str(),
    );
    let blocks = put_truth(
        &mut members,
        alloc,
        "blockOwnerDeletion",
        owner.block_owner_deletion,
    );
    let controller = put_truth(&mut members, alloc, "controller", owner.controller);
    let kind = put_text(&mut members, alloc, "kind", owner.kind.as_str());
    let name = put_text(&mut members, alloc, "name", owner.name.as_str());
    let uid = put_text(&mut members, alloc, "uid", owner.uid.as_str());
    all_three(
        both(version, blocks),
        both(controller, kind),
        both(name, uid),
    )?;
    Ok(Value::Object(members))
}

fn owner_values(alloc: Global, owners: &[OwnerRef]) -> Result<Vec<Value>, Refusal>
    ensures ok { IfOk result (λ v. map view v.items ≡ map part.owner_data owners.now) }
    ensures err { IfErr result (λ e. e ≡ OutOfMemory) }
{
    let mut values = Vec::new(alloc);
    for owner in owners {
        let value = owner_value(alloc, owner)?;
        push_value(&mut values, value)?;
    }
    Ok(values)
}

fn put_uid(members: &mut Map<String, Value>, alloc: Global, meta: &Meta) -> Result<(), Refusal>
    ensures ok { OnOk result (members_view members.new.entries
        ≡ object.put_uid meta.now (members_view members.old.entries)) }
    ensures err { IfErr result (λ e. e ≡ OutOfMemory) }
{
    let uid = meta.uid.text(alloc)?;
    put_text(members, alloc, "uid", uid.as_str())
}

fn put_version(members: &mut Map<String, Value>, alloc: Global, meta: &Meta) -> Result<(), Refusal>
    ensures ok { OnOk result (members_view members.new.entries
        ≡ object.put_version meta.now (members_view members.old.entries)) }
    ensures err { IfErr result (λ e. e ≡ OutOfMemory) }
{
    let version = version_text(alloc, meta.version)?;
    put_text(members, alloc, "resourceVersion", version.as_str())
}

fn identity(alloc: Global, key: &Key, meta: &Meta) -> Result<Map<String, Value>, Refusal>
    ensures ok { IfOk result (λ m. members_view m.entries ≡ object.identity key.now meta.now) }
    ensures err { IfErr result (λ e. e ≡ OutOfMemory) }
{
    let mut members = Map::new(alloc);
    let created = put_time(&mut members, alloc, "creationTimestamp", meta.created);
    let generation = put_number(&mut members, alloc, "generation", meta.generation);
    let name = put_text(&mut members, alloc, "name", key.name());
    let namespace = put_text(&mut members, alloc, "namespace", key.namespace());
    let version = put_version(&mut members, alloc, meta);
    let uid = put_uid(&mut members, alloc, meta);
    all_three(
        both(created, generation),
        both(name, namespace),
        both(version, uid),
    )?;
    Ok(members)
}

pub(crate) fn metadata(
    alloc: Global,
    key: &Key,
    meta: &Meta,
    owners: &[OwnerRef],
) -> Result<Map<String, Value>, Refusal>
    ensures ok { IfOk result (λ m. members_view m.entries
        ≡ object.metadata_members key.now meta.now owners.now) }
    ensures err { IfErr result (λ e. e ≡ OutOfMemory) }
{
    let (mut members, owners) = both(identity(alloc, key, meta), owner_values(alloc, owners))?;
    let annotations = put_labels(&mut members, alloc, "annotations", &meta.annotations);
    let labels = put_labels(&mut members, alloc, "labels", &meta.labels);
    let owners = put_some_list(&mut members, alloc, "ownerReferences", owners);
    all_three(annotations, labels, owners)?;
    Ok(members)
}
