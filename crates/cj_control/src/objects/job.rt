// A Job as the fenced start sees it.
ghost use Rattle.std.specs.Prelude.{◌≡◌, ◌≢◌, Ok, Err, IfOk, IfErr};
ghost use Rattle.serde_json.specs.View.{view, items_view};
ghost use Rattle.cj_base.specs.declared.refusal.Refusal.TheVariants.{OutOfMemory};
ghost use Rattle.cj_control.specs.Objects as seen;

use crate::objects::head::{Head, read_head};
use crate::objects::marks::{JobMarks, marks_of};
use crate::objects::members::{full_name, list_of, meta, text_at};
use cj_base::{Refusal, Text};
use cj_fence::{Job, Row};
use cj_manifest::present;
use serde_json::Value;
use std::alloc::Global;

fn is_controller(owner: &Value) -> bool
    ensures { result ≡ seen.is_controller (view owner.now) }
{
    match present(owner, "controller") {
        Some(found) => found.as_bool().unwrap_or(false),
        None => false,
    }
}

// The uid of the controller among owners; empty where none is.
fn controller_in(owners: &[Value]) -> &str
    ensures { result.now ≡ seen.controller_in (items_view owners.now) }
{
    for owner in owners {
        if is_controller(owner) {
            return match text_at(owner, "uid") {
                Some(uid) => uid,
                None => "",
            };
        }
    }
    ""
}

fn job_row(alloc: Global, head: Head, owner: Text, marks: JobMarks) -> Result<Row<Job>, Refusal>
    ensures ok { IfOk result (λ r. r ≡ seen.job_row head owner marks) }
    ensures err { IfErr result (λ e. e ≡ OutOfMemory) }
{
    let name = full_name(alloc, head.namespace.as_str(), head.name.as_str())?;
    let Head {
        namespace: _,
        name: _,
        uid,
        version,
    } = head;
    Ok(Row {
        name,
        object: Job {
            uid,
            version,
            owner,
            time: marks.time,
            policy: marks.policy,
            held: marks.held,
            finished: marks.finished,
            deleting: marks.deleting,
            pinned: marks.pinned,
        },
    })
}

/// A Job of an API server's answer, under its name with the namespace, or its field at fault.
pub fn read_job(alloc: Global, value: &Value) -> Result<Row<Job>, Refusal>
    ensures ok { IfOk result (λ r. seen.IsJob (view value.now) (Ok r)) }
    ensures err { IfErr result (λ e. e ≢ OutOfMemory → seen.IsJob (view value.now) (Err e)) }
{
    let marks = marks_of(value);
    let head = read_head(alloc, value)?;
    let owner = Text::new(
        alloc,
        controller_in(list_of(meta(value, "ownerReferences"))),
    )?;
    job_row(alloc, head, owner, marks)
}
