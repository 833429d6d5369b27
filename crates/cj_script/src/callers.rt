// The callers of a script.
ghost use Rattle.std.specs.Prelude.{◌≡◌, [], IfOk, IfErr, OnOk, option_copied, option_map};
ghost use Rattle.serde_json.specs.View.{view, members_view};
ghost use Rattle.cj_manifest.specs.Members.{unless_null};
ghost use Rattle.cj_base.specs.declared.refusal.Refusal.TheVariants.{OutOfMemory};
ghost use Rattle.cj_script.specs.Callers as said;

use crate::operations::present;
use cj_base::{Refusal, Shared, Text};
use cj_calls::{Caller, Role};
use serde_json::{Map, Value};
use std::alloc::Global;

/// A caller, and the name that the script has for it.
#[derive(Drop)]
pub struct Named {
    pub name: Shared<Text>,
    pub caller: Caller,
}

fn role_named(word: &str) -> Option<Role>
    ensures { result ≡ said.role_named word.now }
{
    match word {
        "User" => Some(Role::User),
        "Runner" => Some(Role::Runner),
        "Informer" => Some(Role::Informer),
        "Worker" => Some(Role::Worker),
        _ => None,
    }
}

// The role of a member. The outer option is none where it is no role, the inner one where it is
// null.
fn role_in(value: &Value) -> Option<Option<Role>>
    ensures { result ≡ said.role_in (unless_null (view value.now)) }
{
    match value {
        Value::Null => Some(None),
        _ => Some(Some(role_named(value.as_str()?)?)),
    }
}

// Adds a caller at the end, where there is a role.
fn add_caller(
    alloc: Global,
    callers: &mut Vec<Named>,
    name: &str,
    role: Option<Role>,
) -> Result<(), Refusal>
    ensures ok { OnOk result (callers.new.items ≡ said.with_role callers.old.items name.now role) }
    ensures err { IfErr result (λ e. e ≡ OutOfMemory) }
{
    let Some(role) = role else {
        return Ok(());
    };
    let number = callers.len() as u64;
    let name = Shared::new(alloc, Text::new(alloc, name)?)?;
    let caller = Caller { number, role };
    callers
        .push(Named { name, caller })
        .map_err(|_| Refusal::OutOfMemory)
}

fn callers_of(alloc: Global, members: &Map<String, Value>) -> Result<Option<Vec<Named>>, Refusal>
    ensures ok { IfOk result (λ cs. option_map (λ v. v.items) cs
        ≡ said.with_callers [] (members_view members.now.entries)) }
    ensures err { IfErr result (λ e. e ≡ OutOfMemory) }
{
    let mut callers = Vec::new(alloc);
    for (name, member) in members.iter() {
        let Some(role) = role_in(member) else {
            return Ok(None);
        };
        add_caller(alloc, &mut callers, name.as_str(), role)?;
    }
    Ok(Some(callers))
}

/// The callers of a script by name, or none where they are missing or have the wrong form. One
/// whose role is null doesn't count.
pub(crate) fn callers_at(alloc: Global, value: &Value) -> Result<Option<Vec<Named>>, Refusal>
    ensures ok { IfOk result (λ cs. option_map (λ v. v.items) cs
        ≡ said.callers_in (view value.now)) }
    ensures err { IfErr result (λ e. e ≡ OutOfMemory) }
{
    let Some(found) = present(value, "callers") else {
        return Ok(None);
    };
    match found.as_object() {
        Some(members) => callers_of(alloc, members),
        None => Ok(None),
    }
}

/// The caller of that name.
pub(crate) fn caller_named<'c>(callers: &'c [Named], name: &str) -> Option<&'c Named>
    ensures { option_copied result ≡ said.caller_named callers.now name.now }
{
    callers
        .iter()
        .find(|named| named.name.get().as_str() == name)
}
