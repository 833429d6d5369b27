// What the API server answers to a list or a watch.
ghost use Rattle.std.specs.Prelude.{◌≡◌, option_map};
ghost use Rattle.serde_json.specs.View.{view};
ghost use Rattle.cj_machine.specs.Feeds as spec;
ghost use Rattle.cj_machine.specs.Mirror as mirror;

use cj_control::{list_of, meta, text_at};
use cj_manifest::present;
use serde_json::Value;

/// What a status means for a list or a watch.
#[derive(Clone, Copy, Debug, PartialEq, Eq)]
pub(crate) enum Verdict {
    /// The list's page, or the end of a watch (200).
    Done,
    /// The version or the token isn't kept any more (410): list anew.
    Expired,
    /// The server is busy or at fault (429, 5xx): ask again.
    Busy,
    /// The answer is larger than the transport takes (413): ask for fewer objects.
    TooLarge,
    /// Anything else.
    Refused,
}

pub(crate) fn verdict_of(status: u64) -> Verdict
    ensures { result ≡ spec.verdict status }
{
    let is_at_fault = status >= 500 && status < 600;
    if status == 200 {
        Verdict::Done
    } else if status == 410 {
        Verdict::Expired
    } else if status == 429 || is_at_fault {
        Verdict::Busy
    } else if status == 413 {
        Verdict::TooLarge
    } else {
        Verdict::Refused
    }
}

/// A page of a list.
#[derive(Clone, Copy)]
pub(crate) struct Page<'v> {
    pub items: &'v [Value],
    /// The version of the list.
    pub version: &'v str,
    /// The token of the next page.
    pub next: Option<&'v str>,
}

fn meta_text<'v>(value: &'v Value, name: &str) -> Option<&'v str>
    ensures { option_map (λ s. s.now) result ≡ mirror.meta_text name.now (view value.now) }
{
    meta(value, name)?.as_str()
}

// The text, unless it is empty.
fn unless_empty(text: Option<&str>) -> Option<&str>
    ensures { option_map (λ s. s.now) result
        ≡ spec.unless_empty (option_map (λ s. s.now) text.entry) }
{
    match text {
        Some(text) => { if text.is_empty() { None } else { Some(text) } }
        None => None,
    }
}

/// The page that a body is.
pub(crate) fn page_in(body: Option<&Value>) -> Option<Page<'_>>
    ensures { option_map spec.page_view result
        ≡ spec.page_in (option_map (λ v. view v.now) body.entry) }
{
    let body = body?;
    let version = unless_empty(meta_text(body, "resourceVersion"))?;
    Some(Page {
        items: list_of(present(body, "items")),
        version,
        next: unless_empty(meta_text(body, "continue")),
    })
}

/// What an event of a watch says.
#[derive(Clone, Copy, Debug, PartialEq, Eq)]
pub(crate) enum Change {
    /// The object is there, as it is shown (ADDED, MODIFIED).
    Put,
    /// The object is gone (DELETED).
    Gone,
    /// Nothing changed up to this version (BOOKMARK).
    Bookmark,
}

/// An event of a watch.
#[derive(Clone, Copy)]
pub(crate) struct Event<'v> {
    pub change: Change,
    pub object: &'v Value,
    /// The object's version.
    pub version: &'v str,
}

fn change_of(kind: &str) -> Option<Change>
    ensures { result ≡ spec.change_of kind.now }
{
    if kind == "ADDED" || kind == "MODIFIED" {
        Some(Change::Put)
    } else if kind == "DELETED" {
        Some(Change::Gone)
    } else if kind == "BOOKMARK" {
        Some(Change::Bookmark)
    } else {
        None
    }
}

/// Whether an event tells that the watch can't go on.
pub(crate) fn is_error(event: Option<&Value>) -> bool
    ensures { result ≡ spec.is_error (option_map (λ v. view v.now) event.entry) }
{
    match event {
        Some(event) => match text_at(event, "type") {
            Some(kind) => kind == "ERROR",
            None => false,
        },
        None => false,
    }
}

/// The event that a value is.
pub(crate) fn event_in(event: Option<&Value>) -> Option<Event<'_>>
    ensures { option_map spec.event_view result
        ≡ spec.event_in (option_map (λ v. view v.now) event.entry) }
{
    let event = event?;
    let change = change_of(text_at(event, "type")?)?;
    let object = present(event, "object")?;
    let version = unless_empty(meta_text(object, "resourceVersion"))?;
    Some(Event {
        change,
        object,
        version,
    })
}
