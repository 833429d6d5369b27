// What a watch of the API server prints: an event after another, each with its type and an object.
ghost use Rattle.std.specs.Prelude.{◌≡◌};
ghost use Rattle.serde_json.specs.View.{view};
ghost use Rattle.cj_answers.specs.Objects.{event_named, event_of};

use serde_json::Value;

/// What an event says.
#[derive(Clone, Copy, Debug, PartialEq, Eq)]
pub(crate) enum Event {
    /// The object is so now: `ADDED` or `MODIFIED`.
    Seen,
    /// It was deleted: `DELETED`.
    Deleted,
    /// Nothing of an object: `BOOKMARK` or `ERROR`.
    Mark,
}

fn event_named(name: &str) -> Option<Event>
    ensures { result ≡ event_named name.now }
{
    match name {
        "ADDED" | "MODIFIED" => Some(Event::Seen),
        "DELETED" => Some(Event::Deleted),
        "BOOKMARK" | "ERROR" => Some(Event::Mark),
        _ => None,
    }
}

/// What a value says as an event of a watch, if it is one.
pub(crate) fn event_of(value: &Value) -> Option<Event>
    ensures { result ≡ event_of (view value.now) }
{
    if !value.get("object")?.is_object() {
        return None;
    }
    event_named(value.get("type")?.as_str()?)
}
