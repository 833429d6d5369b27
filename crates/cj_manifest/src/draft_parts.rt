// Labels, texts and owner references of a draft.
ghost use Rattle.std.specs.Prelude.{◌≡◌, ◌++◌, [], Some, option_map, IfOk, IfErr, OnOk};
ghost use Rattle.cj_base.specs.declared.refusal.Refusal.TheVariants.{OutOfMemory};
ghost use Rattle.serde_json.specs.Find.{as_str};
ghost use Rattle.serde_json.specs.View.{view, items_view, members_view};
ghost use Rattle.cj_manifest.specs.Drafts as said;
ghost use Rattle.cj_manifest.specs.OwnerTexts.{owner_view};
ghost use Rattle.cj_manifest.specs.Owners.{owner as owner_row, onto, owner_list as owners_said};

use crate::owner::{OwnerTexts, owner};
use cj_base::{all_four, both};
use cj_types::{Labels, OwnerRef, OwnerRefs, Refusal, Text};
use serde_json::{Map, Value};
use std::alloc::Global;

/// The text, unless it is absent or empty.
pub(crate) fn given_text(alloc: Global, text: Option<&str>) -> Result<Option<Text>, Refusal>
    ensures ok { IfOk result (λ o. o ≡ said.unless_empty (option_map (λ s. s.now) text.entry)) }
    ensures err { IfErr result (λ e. e ≡ OutOfMemory) }
{
    let Some(found) = text else {
        return Ok(None);
    };
    if found.is_empty() {
        return Ok(None);
    }
    Ok(Some(Text::new(alloc, found)?))
}

// Adds a label with these texts.
fn put_text(labels: &mut Labels, alloc: Global, key: &str, value: &str) -> Result<(), Refusal>
    ensures ok { OnOk result (labels.new ≡ said.with_label key.now (Some value.now) labels.old) }
    ensures err { IfErr result (λ e. e ≡ OutOfMemory) }
{
    let (key, value) = both(Text::new(alloc, key), Text::new(alloc, value))?;
    labels.put(key, value)
}

fn put_member(labels: &mut Labels, alloc: Global, key: &str, member: &Value) -> Result<(), Refusal>
    ensures ok { OnOk result (labels.new ≡ said.with_label key.now (as_str (view member.now))
        labels.old) }
    ensures err { IfErr result (λ e. e ≡ OutOfMemory) }
{
    match member.as_str() {
        Some(value) => put_text(labels, alloc, key, value),
        None => Ok(()),
    }
}

fn labels_of(alloc: Global, members: &Map<String, Value>) -> Result<Labels, Refusal>
    ensures ok { IfOk result (λ l. l ≡ said.labels_onto [] (members_view members.now.entries)) }
    ensures err { IfErr result (λ e. e ≡ OutOfMemory) }
{
    let mut labels = Labels::new(alloc);
    for (key, member) in members.iter() {
        put_member(&mut labels, alloc, key.as_str(), member)?;
    }
    Ok(labels)
}

/// The labels or annotations in an object of texts; members that are null are left out.
pub(crate) fn label_map(
    alloc: Global,
    members: Option<&Map<String, Value>>,
) -> Result<Labels, Refusal>
    ensures ok { IfOk result (λ l. l ≡ said.label_map
        (option_map (λ m. members_view m.now.entries) members.entry)) }
    ensures err { IfErr result (λ e. e ≡ OutOfMemory) }
{
    match members {
        Some(found) => labels_of(alloc, found),
        None => Ok(Labels::new(alloc)),
    }
}

fn copied(alloc: Global, owner: OwnerTexts) -> Result<OwnerRef, Refusal>
    ensures ok { IfOk result (λ o. o ≡ owner_view owner.entry) }
    ensures err { IfErr result (λ e. e ≡ OutOfMemory) }
{
    let (api_version, kind, name, uid) = all_four(
        Text::new(alloc, owner.api_version),
        Text::new(alloc, owner.kind),
        Text::new(alloc, owner.name),
        Text::new(alloc, owner.uid),
    )?;
    Ok(OwnerRef {
        api_version,
        kind,
        name,
        uid,
        controller: owner.controller,
        block_owner_deletion: owner.block_owner_deletion,
    })
}

fn push_owner(owners: &mut OwnerRefs, alloc: Global, value: &Value) -> Result<(), Refusal>
    ensures ok { OnOk result (owners.new ≡ owners.old ++ onto (owner_row (view value.now)) []) }
    ensures err { IfErr result (λ e. e ≡ OutOfMemory) }
{
    match owner(value) {
        Some(found) => owners.push(copied(alloc, found)?),
        None => Ok(()),
    }
}

fn owners_of(alloc: Global, items: &Vec<Value>) -> Result<OwnerRefs, Refusal>
    ensures ok { IfOk result (λ o. o ≡ owners_said (items_view items.now.items)) }
    ensures err { IfErr result (λ e. e ≡ OutOfMemory) }
{
    let mut owners = OwnerRefs::new(alloc);
    for item in items {
        push_owner(&mut owners, alloc, item)?;
    }
    Ok(owners)
}

/// The owner references, none where the member is absent.
pub(crate) fn owner_list(alloc: Global, items: Option<&Vec<Value>>) -> Result<OwnerRefs, Refusal>
    ensures ok { IfOk result (λ o. o ≡ said.owners_in
        (option_map (λ v. items_view v.now.items) items.entry)) }
    ensures err { IfErr result (λ e. e ≡ OutOfMemory) }
{
    match items {
        Some(found) => owners_of(alloc, found),
        None => Ok(OwnerRefs::new(alloc)),
    }
}
