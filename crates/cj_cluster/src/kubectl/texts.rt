// The objects of a list, each as a text of its own.
ghost use Rattle.std.specs.Prelude.{◌≡◌, ◌≤◌, ◌++◌, ◌∷◌, [], IfOk, IfErr, OnOk, ℕ, List, option_map};
ghost use Rattle.serde_json.specs.Data.{depth, items_depth};
ghost use Rattle.serde_json.specs.Read.{max_depth};
ghost use Rattle.serde_json.specs.View.{view, items_view};
ghost use Rattle.cj_base.specs.declared.refusal.Refusal.TheVariants.{OutOfMemory};
ghost use Rattle.cj_manifest.specs.Reading.{Reads};
ghost use Rattle.cj_cluster.specs.kubectl.Lists.{typed};
ghost use Rattle.cj_cluster.specs.kubectl.Texts.{AreTexts, IsSplitIf, list_items, list_items_for};

use crate::kubectl::fault::ListFault;
use crate::kubectl::lists::{is_list, listed, text_at};
use crate::kubectl::read::value_of;
use crate::kubectl::typed::{item_kind, typed_copy, unsaid_kind};
use cj_types::{Refusal, Text};
use serde_json::Value;
use std::alloc::Global;

fn list_items_for<'v>(value: &'v Value, kind: &str) -> Option<&'v [Value]>
    ensures { option_map (λ vs. items_view vs.now) result
        ≡ list_items_for (view value.now) kind.now }
{
    if is_list(kind) { listed(value) } else { None }
}

// The objects of a list.
fn list_items(value: &Value) -> Option<&[Value]>
    ensures { option_map (λ vs. items_view vs.now) result ≡ list_items (view value.now) }
{
    list_items_for(value, text_at(value, "kind")?)
}

fn text_of(alloc: Global, value: &Value) -> Result<Text, Refusal>
    requires { depth (view value.now) ≤ max_depth }
    ensures ok { IfOk result (λ t. Reads t (view value.now)) }
    ensures err { IfErr result (λ e. e ≡ OutOfMemory) }
{
    let text = value.to_string(alloc)?;
    Ok(Text::from_string(text))
}

// The text of an item of a list of that kind of items and that version.
fn typed_text(
    alloc: Global,
    value: &Value,
    kind: Option<&str>,
    version: Option<&str>,
) -> Result<Text, Refusal>
    requires { depth (view value.now) ≤ max_depth }
    ensures ok { IfOk result (λ t. Reads t (typed (option_map (λ s. s.now) kind.entry)
        (option_map (λ s. s.now) version.entry) (view value.now))) }
    ensures err { IfErr result (λ e. e ≡ OutOfMemory) }
{
    match unsaid_kind(value, kind) {
        Some(kind) => {
            let copy = typed_copy(alloc, value, kind, version)?;
            text_of(alloc, &copy)
        }
        None => text_of(alloc, value),
    }
}

fn push_text(texts: &mut Vec<Text>, text: Text) -> Result<(), Refusal>
    ensures ok { OnOk result (texts.new.items ≡ texts.old.items ++ text ∷ []) }
    ensures err { IfErr result (λ e. e ≡ OutOfMemory) }
{
    texts.push(text).map_err(|_| Refusal::OutOfMemory)
}

// The texts of items, one after another.
fn texts_of(
    alloc: Global,
    items: &[Value],
    kind: Option<&str>,
    version: Option<&str>,
) -> Result<Vec<Text>, Refusal>
    requires flat { items_depth (items_view items.now) ≤ max_depth }
    ensures ok { IfOk result (λ v. AreTexts
        (record {
          kind = option_map (λ s. s.now) kind.entry;
          version = option_map (λ s. s.now) version.entry;
        }) (items_view items.now) v.items) }
    ensures err { IfErr result (λ e. e ≡ OutOfMemory) }
{
    let mut texts = Vec::new(alloc);
    for item in items {
        let text = typed_text(alloc, item, kind, version)?;
        push_text(&mut texts, text)?;
    }
    Ok(texts)
}

// The texts of the items of a value, where it is a list.
fn split(alloc: Global, value: &Value) -> Result<Option<Vec<Text>>, Refusal>
    requires flat { depth (view value.now) ≤ max_depth }
    ensures ok { (bytes : List ℕ) → Reads bytes (view value.now) →
        IfOk result (λ o. IsSplitIf bytes (option_map (λ v. v.items) o)) }
    ensures err { IfErr result (λ e. e ≡ OutOfMemory) }
{
    let Some(items) = list_items(value) else {
        return Ok(None);
    };
    let version = text_at(value, "apiVersion");
    Ok(Some(texts_of(alloc, items, item_kind(value), version)?))
}

/// The objects of a list, each as a text of JSON of its own, with the kind and the version that the
/// list says of it where it says none; `None` for bytes that are no list, be they no JSON or one
/// object alone.
pub fn item_texts(alloc: Global, bytes: &[u8]) -> Result<Option<Vec<Text>>, Refusal>
    ensures ok { IfOk result (λ o. IsSplitIf bytes.now (option_map (λ v. v.items) o)) }
    ensures err { IfErr result (λ e. e ≡ OutOfMemory) }
{
    match value_of(alloc, bytes) {
        Ok(value) => split(alloc, &value),
        Err(ListFault::Memory) => Err(Refusal::OutOfMemory),
        Err(_) => Ok(None),
    }
}
