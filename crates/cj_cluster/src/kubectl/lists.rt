// The objects in what a client prints.
ghost use Rattle.std.specs.Prelude.{◌≡◌, option_map};
ghost use Rattle.serde_json.specs.View.{view, items_view};
ghost use Rattle.cj_manifest.specs.Owners.{text_at as text_in};
ghost use Rattle.cj_cluster.specs.kubectl.Lists.{is_list, is_single, items_for, items_of, listed};

use cj_manifest::present;
use serde_json::Value;
use std::slice;

/// The text of a member, where there is one.
pub(crate) fn text_at<'v>(value: &'v Value, name: &str) -> Option<&'v str>
    ensures { option_map (λ s. s.now) result ≡ text_in name.now (view value.now) }
{
    present(value, name)?.as_str()
}

/// Whether it is the kind of a list.
pub(crate) fn is_list(kind: &str) -> bool
    ensures { result ≡ is_list kind.now }
{
    kind == "List" || kind == "CronJobList" || kind == "JobList"
}

fn is_single(kind: &str) -> bool
    ensures { result ≡ is_single kind.now }
{
    kind == "CronJob" || kind == "Job"
}

/// The array `items`.
pub(crate) fn listed(value: &Value) -> Option<&[Value]>
    ensures { option_map (λ vs. items_view vs.now) result ≡ listed (view value.now) }
{
    Some(present(value, "items")?.as_array()?.as_slice())
}

fn items_for<'v>(value: &'v Value, kind: &str) -> Option<&'v [Value]>
    ensures { option_map (λ vs. items_view vs.now) result ≡ items_for (view value.now) kind.now }
{
    if is_list(kind) {
        listed(value)
    } else if is_single(kind) {
        Some(slice::from_ref(value))
    } else {
        None
    }
}

/// The objects that are printed: those of a list, or the one that the value is.
pub(crate) fn items_of(value: &Value) -> Option<&[Value]>
    ensures { option_map (λ vs. items_view vs.now) result ≡ items_of (view value.now) }
{
    items_for(value, text_at(value, "kind")?)
}
