// When a call of a history is made.
ghost use Rattle.std.specs.Prelude.{◌≡◌, ◌/◌, Some};
ghost use Rattle.cj_report.specs.timeline.Moments as said;

use cj_calls::{Call, End, Entry, Role};
use cj_types::{Millis, Seconds};

fn whole_seconds(millis: Millis) -> Option<Seconds>
    ensures { result ≡ Some (millis / 1000) }
{
    Seconds::new(millis.get() / 1000)
}

/// The moment in a call, in seconds.
pub fn told_moment(call: &Call) -> Option<Seconds>
    ensures { result ≡ said.told_moment call.now }
{
    match call {
        Call::CreateCron(_, at) => Some(*at),
        Call::CreateJob(_, at) => Some(*at),
        Call::EndJob(_, _, _, at) => Some(*at),
        Call::Tick(millis) => whole_seconds(*millis),
        Call::Claim(plan) => Some(plan.get().moment()),
        Call::Finish(End::Again(millis), _) => whole_seconds(*millis),
        _ => None,
    }
}

/// The first moment in the calls of these entries.
pub(crate) fn first_told(entries: &[Entry]) -> Option<Seconds>
    ensures { result ≡ said.first_told entries.now }
{
    for entry in entries {
        if let Some(at) = told_moment(entry.call()) {
            return Some(at);
        }
    }
    None
}

fn moment_by(role: Role, last: Option<Seconds>, after: &[Entry]) -> Option<Seconds>
    ensures { result ≡ said.moment_by role last (said.first_told after.now) }
{
    match role {
        Role::User => first_told(after).or(last),
        _ => last,
    }
}

/// The moment of an entry, by the last moment before it and the entries after it.
pub(crate) fn moment(entry: &Entry, last: Option<Seconds>, after: &[Entry]) -> Option<Seconds>
    ensures { result ≡ said.or_else (said.told_moment entry.now.call)
        (said.moment_by entry.now.caller.role last (said.first_told after.now)) }
{
    told_moment(entry.call()).or(moment_by(entry.caller().role, last, after))
}
