// Owner references in a manifest.
ghost use Rattle.std.specs.Prelude.{◌≡◌, option_map};
ghost use Rattle.std.specs.Result.{result_ok, result_err};
ghost use Rattle.serde_json.specs.Find.{as_str};
ghost use Rattle.serde_json.specs.View.{view, items_view};
ghost use Rattle.cj_manifest.specs.Owners as said;
ghost use Rattle.cj_manifest.specs.OwnerTexts.{owner_view};

use crate::values::present;
use cj_types::Cause;
use serde_json::Value;

/// An owner reference whose texts are borrowed from the manifest.
#[derive(Clone, Copy)]
pub(crate) struct OwnerTexts<'v> {
    pub api_version: &'v str,
    pub kind: &'v str,
    pub name: &'v str,
    pub uid: &'v str,
    pub controller: bool,
    pub block_owner_deletion: bool,
}

fn text_at<'v>(value: &'v Value, name: &str) -> Option<&'v str>
    ensures { option_map (λ s. s.now) result ≡ said.text_at name.now (view value.now) }
{
    present(value, name)?.as_str()
}

fn flag_at(value: &Value, name: &str) -> Option<bool>
    ensures { result ≡ said.flag_at name.now (view value.now) }
{
    match present(value, name) {
        None => Some(false),
        Some(found) => found.as_bool(),
    }
}

pub(crate) fn owner(value: &Value) -> Option<OwnerTexts<'_>>
    ensures { option_map owner_view result ≡ said.owner (view value.now) }
{
    let Some(api_version) = text_at(value, "apiVersion") else {
        return None;
    };
    let Some(kind) = text_at(value, "kind") else {
        return None;
    };
    let Some(name) = text_at(value, "name") else {
        return None;
    };
    let Some(uid) = text_at(value, "uid") else {
        return None;
    };
    let Some(controller) = flag_at(value, "controller") else {
        return None;
    };
    let Some(block_owner_deletion) = flag_at(value, "blockOwnerDeletion") else {
        return None;
    };
    Some(OwnerTexts {
        api_version,
        kind,
        name,
        uid,
        controller,
        block_owner_deletion,
    })
}

fn all_owners(items: &Vec<Value>) -> bool
    ensures { result ≡ said.all_owners (items_view items.now.items) }
{
    for item in items {
        if owner(item).is_none() {
            return false;
        }
    }
    true
}

/// A list of owner references.
pub(crate) fn owners(value: &Value) -> Result<&Vec<Value>, Cause>
    ensures fault { result_err result ≡ result_err (said.owners (view value.now)) }
    ensures value { option_map (λ v. items_view v.now.items) (result_ok result)
        ≡ result_ok (said.owners (view value.now)) }
{
    let Some(items) = value.as_array() else {
        return Err(Cause::WrongType);
    };
    if all_owners(items) {
        Ok(items)
    } else {
        Err(Cause::WrongType)
    }
}
