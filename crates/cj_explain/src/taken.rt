// Two objects of one name.
ghost use Rattle.std.specs.Prelude.{◌≡◌, IfOk, string_bytes};
ghost use Rattle.cj_explain.specs.Taken.{kind_name, taken_message};

use cj_cluster::ListedKind;
use std::alloc::{AllocError, Global};

/// The kind of an object of a list.
pub fn kind_name(kind: ListedKind) -> &'static str
    ensures { result.now ≡ kind_name kind }
{
    match kind {
        ListedKind::Cron => "CronJob",
        ListedKind::Run => "Job",
    }
}

/// What is wrong with an item whose name, with its namespace, an earlier item of its kind has.
pub fn taken_message(alloc: Global, kind: ListedKind, key: &str) -> Result<String, AllocError>
    ensures { IfOk result (λ s. string_bytes s ≡ taken_message kind key.now) }
{
    let kind = kind_name(kind);
    format!(in alloc; "two {kind}s are named {key}; the first one is read")
}
