// Keys in members.
ghost use Rattle.std.specs.Prelude.{◌≡◌, IfOk, IfErr};
ghost use Rattle.serde_json.specs.View.{view};
ghost use Rattle.cj_base.specs.declared.refusal.Refusal.TheVariants.{OutOfMemory};
ghost use Rattle.cj_script.specs.operations.Operations as said;

use crate::operations::member::present;
use cj_types::{Key, Refusal};
use serde_json::Value;
use std::alloc::Global;

fn key_named(alloc: Global, namespace: &str, name: &str) -> Result<Option<Key>, Refusal>
    ensures ok { IfOk result (λ k. k ≡ said.key_named namespace.now name.now) }
    ensures err { IfErr result (λ e. e ≡ OutOfMemory) }
{
    match Key::new(alloc, namespace, name) {
        Ok(key) => Ok(Some(key)),
        Err(Refusal::OutOfMemory) => Err(Refusal::OutOfMemory),
        Err(_) => Ok(None),
    }
}

/// The key that a text says, NAMESPACE/NAME.
pub fn key_of(alloc: Global, text: &str) -> Result<Option<Key>, Refusal>
    ensures ok { IfOk result (λ k. k ≡ said.key_of text.now) }
    ensures err { IfErr result (λ e. e ≡ OutOfMemory) }
{
    match text.split_once('/') {
        Some((namespace, name)) => key_named(alloc, namespace, name),
        None => Ok(None),
    }
}

/// The key of a step, NAMESPACE/NAME.
pub(crate) fn key_at(alloc: Global, value: &Value) -> Result<Option<Key>, Refusal>
    ensures ok { IfOk result (λ k. k ≡ said.key_in (view value.now)) }
    ensures err { IfErr result (λ e. e ≡ OutOfMemory) }
{
    let Some(found) = present(value, "key") else {
        return Ok(None);
    };
    match found.as_str() {
        Some(text) => key_of(alloc, text),
        None => Ok(None),
    }
}
