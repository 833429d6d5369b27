// What holds a Job back until it is started.
ghost use Rattle.std.specs.Prelude.{◌≡◌, option_map};
ghost use Rattle.serde_json.specs.View.{view};
ghost use Rattle.cj_control.specs.Objects as seen;

use crate::objects::{annotation, is_text};
use serde_json::Value;

/// What holds a Job back until it is started, as its annotation `cronsim/held` says.
#[derive(Clone, Copy, Debug, PartialEq, Eq)]
pub enum Hold {
    /// `spec.suspend` is true.
    Suspend,
    /// `spec.parallelism` is 0.
    Parallelism,
    /// One of these: earlier versions didn't say which.
    Unsaid,
}

impl Hold {
    /// The text of the annotation.
    pub fn text(self) -> &'static str
        ensures { result.now ≡ seen.hold_text self }
    {
        match self {
            Hold::Suspend => "suspend",
            Hold::Parallelism => "parallelism",
            Hold::Unsaid => "true",
        }
    }
}

// The hold of a text, if it is one of the three.
pub(crate) fn hold_of(text: Option<&str>) -> Option<Hold>
    ensures { result ≡ seen.hold_of (option_map (λ s. s.now) text.entry) }
{
    if is_text("suspend", text) {
        Some(Hold::Suspend)
    } else if is_text("parallelism", text) {
        Some(Hold::Parallelism)
    } else if is_text("true", text) {
        Some(Hold::Unsaid)
    } else {
        None
    }
}

/// Whether a Job is held, in whatever way.
pub fn is_held(job: &Value) -> bool
    ensures { result ≡ seen.is_held (view job.now) }
{
    annotation(job, "cronsim/held").is_some()
}

/// What holds a Job back, by its annotation; none where it isn't held, or in a way that this
/// version doesn't know.
pub fn hold_in(job: &Value) -> Option<Hold>
    ensures { result ≡ seen.hold_in (view job.now) }
{
    hold_of(annotation(job, "cronsim/held"))
}
