// What a member that isn't known may have been meant to be.
ghost use Rattle.std.specs.Prelude.{◌≡◌, IfOk, map, option_map, string_bytes};
ghost use Rattle.cj_answers.specs.Suggestion.{suggestion, member_of, names_at, words_of};

use crate::nearest::meant;
use std::alloc::{AllocError, Global};

/// What the path of a member begins with: the object that it is in.
#[derive(Clone, Copy)]
pub(crate) enum Place {
    Top,
    Metadata,
    Spec,
    Template,
    TemplateMetadata,
}

impl Place {
    // The members that are read there.
    fn names(self) -> &'static [&'static str]
        ensures { map (λ n. n.now) result.now ≡ names_at self }
    {
        match self {
            Place::Top => &["apiVersion", "kind", "metadata", "spec"],
            Place::Metadata => &[
                "name",
                "namespace",
                "labels",
                "annotations",
                "uid",
                "resourceVersion",
            ],
            Place::Spec => &[
                "schedule",
                "timeZone",
                "concurrencyPolicy",
                "suspend",
                "startingDeadlineSeconds",
                "successfulJobsHistoryLimit",
                "failedJobsHistoryLimit",
                "jobTemplate",
            ],
            Place::Template => &["metadata", "spec"],
            Place::TemplateMetadata => &["labels", "annotations"],
        }
    }
}

// The object that the path leads into, and the member in it.
fn member_of(path: &str) -> (Place, &[u8])
    ensures { member_of path.now ≡ (result.0, result.1.now) }
{
    let bytes = path.as_bytes();
    if let Some(rest) = bytes.strip_prefix(b"spec.jobTemplate.metadata.") {
        (Place::TemplateMetadata, rest)
    } else if let Some(rest) = bytes.strip_prefix(b"spec.jobTemplate.") {
        (Place::Template, rest)
    } else if let Some(rest) = bytes.strip_prefix(b"spec.") {
        (Place::Spec, rest)
    } else if let Some(rest) = bytes.strip_prefix(b"metadata.") {
        (Place::Metadata, rest)
    } else {
        (Place::Top, bytes)
    }
}

// The words on the member that is meant.
fn words_of(alloc: Global, meant: Option<&str>) -> Result<String, AllocError>
    ensures { IfOk result (λ s. string_bytes s ≡ words_of (option_map (λ n. n.now) meant.entry)) }
{
    match meant {
        Some(name) => format!(in alloc; "; did you mean {name}?"),
        None => Ok(String::new(alloc)),
    }
}

/// What the member at a path may have been meant to be: words on the known member that is nearest,
/// where one is near.
#[tactic(auto, unfolding(crate::specs::Suggestion::suggestion))]
pub(crate) fn suggested(alloc: Global, path: &str) -> Result<String, AllocError>
    ensures { IfOk result (λ s. string_bytes s ≡ suggestion path.now) }
{
    let (place, member) = member_of(path);
    let meant = meant(alloc, member, place.names())?;
    words_of(alloc, meant)
}
