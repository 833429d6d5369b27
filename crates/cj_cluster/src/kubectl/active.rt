// The names of the Jobs that run.
ghost use Rattle.std.specs.Prelude.{◌≡◌, codes, option_and_then, option_map, IfOk, IfErr};
ghost use Rattle.std.specs.Result.{result_ok, result_err};
ghost use Rattle.serde_json.specs.Find.{as_array};
ghost use Rattle.serde_json.specs.View.{view, items_view};
ghost use Rattle.cj_base.specs.declared.refusal.Refusal.TheVariants.{OutOfMemory};
ghost use Rattle.cj_cluster.specs.kubectl.Rows as row;

use crate::kubectl::status::{member, status_of};
use cj_manifest::{present, text};
use cj_types::{Cause, Names, ObjectName, Refusal, name_cause};
use serde_json::Value;
use std::alloc::Global;

fn name_of(value: &Value) -> Result<&str, Cause>
    ensures fault { result_err result ≡ result_err (row.name_of (view value.now)) }
    ensures value { option_map (λ s. s.now) (result_ok result)
        ≡ result_ok (row.name_of (view value.now)) }
{
    let found = text(value)?;
    match name_cause(63, found) {
        None => Ok(found),
        Some(cause) => Err(cause),
    }
}

fn name_in(reference: &Value) -> Result<Option<&str>, Cause>
    ensures fault { result_err result ≡ result_err (row.name_in (view reference.now)) }
    ensures value { option_map (option_map (λ s. s.now)) (result_ok result)
        ≡ result_ok (row.name_in (view reference.now)) }
{
    match present(reference, "name") {
        Some(found) => Ok(Some(name_of(found)?)),
        None => Ok(None),
    }
}

// The name in a reference, where it has one, or why it is refused.
fn object_name(
    alloc: Global,
    reference: &Value,
) -> Result<Result<Option<ObjectName>, Cause>, Refusal>
    ensures ok { IfOk result (λ r. r ≡ row.name_in (view reference.now)) }
    ensures err { IfErr result (λ e. e ≡ OutOfMemory) }
{
    match name_in(reference) {
        Ok(Some(name)) => Ok(Ok(Some(ObjectName::new(alloc, name)?))),
        Ok(None) => Ok(Ok(None)),
        Err(cause) => Ok(Err(cause)),
    }
}

// The names in all references, or the first cause.
fn names_in(alloc: Global, references: &[Value]) -> Result<Result<Names, Cause>, Refusal>
    ensures ok { IfOk result (λ r. r ≡ row.names_in (items_view references.now)) }
    ensures err { IfErr result (λ e. e ≡ OutOfMemory) }
{
    let mut names = Names::new(alloc);
    for reference in references {
        match object_name(alloc, reference)? {
            Ok(Some(name)) => names.push(name)?,
            Ok(None) => {}
            Err(cause) => return Ok(Err(cause)),
        }
    }
    Ok(Ok(names))
}

fn active_row(alloc: Global, list: Option<&Value>) -> Result<Result<Names, Cause>, Refusal>
    ensures ok { IfOk result (λ r. r ≡ row.active_row (option_map (λ v. view v.now) list.entry)) }
    ensures err { IfErr result (λ e. e ≡ OutOfMemory) }
{
    match list {
        None => Ok(Ok(Names::new(alloc))),
        Some(found) => match found.as_array() {
            Some(references) => names_in(alloc, references.as_slice()),
            None => Ok(Err(Cause::WrongType)),
        },
    }
}

/// The names of the Jobs that a CronJob's status says to run, or why the list is refused.
pub(crate) fn active_of(alloc: Global, value: &Value) -> Result<Result<Names, Cause>, Refusal>
    ensures ok { IfOk result (λ r. r ≡ row.active_of (view value.now)) }
    ensures err { IfErr result (λ e. e ≡ OutOfMemory) }
{
    active_row(alloc, member(status_of(value), "active"))
}

// Whether a reference names no Job.
fn is_nameless(reference: &Value) -> bool
    ensures { result ≡ row.is_nameless (view reference.now) }
{
    present(reference, "name").is_none()
}

fn has_nameless(references: &[Value]) -> bool
    ensures { result ≡ row.has_nameless (items_view references.now) }
{
    for reference in references {
        if is_nameless(reference) {
            return true;
        }
    }
    false
}

fn stuck_list(references: Option<&[Value]>) -> bool
    ensures { result ≡ row.stuck_list (option_map (λ vs. items_view vs.now) references.entry) }
{
    match references {
        Some(references) => has_nameless(references),
        None => false,
    }
}

// The references of a CronJob's status to Jobs, where it has a list.
fn references_of(value: &Value) -> Option<&[Value]>
    ensures { option_map (λ vs. items_view vs.now) result
        ≡ option_and_then as_array (row.member_of (codes "active")
        (row.status_of (view value.now))) }
{
    Some(member(status_of(value), "active")?.as_array()?.as_slice())
}

/// Whether a reference in a CronJob's status names no Job.
pub(crate) fn is_stuck(value: &Value) -> bool
    ensures { result ≡ row.stuck_of (view value.now) }
{
    stuck_list(references_of(value))
}
