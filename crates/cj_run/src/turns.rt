// When the calls of a run are made, by its clock.
ghost use Rattle.std.specs.Prelude.{◌≡◌, ◌+◌, ◌<◌, ◌≤◌, ◌^◌, false};
ghost use Rattle.cj_calls.specs.declared.caller.Role.TheVariants.{Informer, Worker};
ghost use Rattle.cj_run.specs.Turns.{begins, edits, ends, is_before, is_end_at, is_moment, is_refusal, is_timely, is_within, progress_after};

use cj_calls::{Answer, Call, End, Role};
use cj_script::Span;
use cj_types::Millis;

/// How far a run is.
#[derive(Clone, Copy, Debug, PartialEq, Eq)]
pub struct Progress {
    /// How many instants have begun.
    pub begun: u64,
    /// Whether the last one that began still goes on.
    pub on: bool,
    /// Whether the user called since it was over.
    pub edited: bool,
}

// Whether the clock has an instant of that number, and it is that moment.
fn is_moment(span: &Span, n: u64, at: Millis) -> bool
    ensures { result ≡ is_moment span.now n at }
{
    match span.instant(n) {
        Some(instant) => Millis::from(instant) == at,
        None => false,
    }
}

fn is_refusal(answer: &Answer) -> bool
    ensures { result ≡ is_refusal answer.now }
{
    match answer {
        Ok(_) => false,
        Err(_) => true,
    }
}

// Whether an informer's call is within the instant.
fn informer_is_within(span: &Span, n: u64, call: &Call) -> bool
    ensures { result ≡ is_within span.now n Informer call.now }
{
    match call {
        Call::Tick(at) => is_moment(span, n, *at),
        Call::Shut => false,
        _ => true,
    }
}

// Whether a worker's call is within the instant.
fn worker_is_within(span: &Span, n: u64, call: &Call) -> bool
    ensures { result ≡ is_within span.now n Worker call.now }
{
    match call {
        Call::Claim(plan) => is_moment(span, n, Millis::from(plan.get().moment())),
        Call::Finish(End::Again(at), _) => is_moment(span, n, *at),
        _ => true,
    }
}

// Whether a call is within the instant of that number.
fn is_within(span: &Span, n: u64, role: Role, call: &Call) -> bool
    ensures { result ≡ is_within span.now n role call.now }
{
    match role {
        Role::Informer => informer_is_within(span, n, call),
        Role::Worker => worker_is_within(span, n, call),
        Role::Runner | Role::User => false,
    }
}

// Whether an informer's call is before the next instant.
fn informer_is_before(span: &Span, progress: Progress, call: &Call, answer: &Answer) -> bool
    ensures { result ≡ is_before span.now progress Informer call.now answer.now }
{
    match call {
        Call::Tick(at) => is_moment(span, progress.begun, *at),
        Call::Shut => true,
        _ => false,
    }
}

// Whether a worker's call is before the next instant.
fn worker_is_before(span: &Span, progress: Progress, call: &Call, answer: &Answer) -> bool
    ensures { result ≡ is_before span.now progress Worker call.now answer.now }
{
    match call {
        Call::Take => is_refusal(answer),
        _ => false,
    }
}

// Whether a call is the end of a Job by the moment of that instant.
fn is_end_at(span: &Span, n: u64, call: &Call) -> bool
    ensures { result ≡ is_end_at span.now n call.now }
{
    match call {
        Call::EndJob(_, _, _, at) => is_moment(span, n, Millis::from(*at)),
        _ => false,
    }
}

// Whether a call is before the next instant.
fn is_before(span: &Span, progress: Progress, role: Role, call: &Call, answer: &Answer) -> bool
    ensures { result ≡ is_before span.now progress role call.now answer.now }
{
    match role {
        Role::Informer => informer_is_before(span, progress, call, answer),
        Role::Worker => worker_is_before(span, progress, call, answer),
        Role::Runner => !progress.edited && is_end_at(span, progress.begun, call),
        Role::User => true,
    }
}

// Whether a Tick is at the next instant, which begins with it.
fn tick_begins(span: &Span, progress: Progress, call: &Call) -> bool
    ensures { result ≡ begins span.now progress Informer call.now }
{
    match call {
        Call::Tick(at) => is_moment(span, progress.begun, *at),
        _ => false,
    }
}

pub(crate) fn begins(span: &Span, progress: Progress, role: Role, call: &Call) -> bool
    ensures { result ≡ begins span.now progress role call.now }
{
    match role {
        Role::Informer => tick_begins(span, progress, call),
        _ => false,
    }
}

// Whether the call ends an instant that goes on.
pub(crate) fn ends(role: Role, call: &Call) -> bool
    ensures { result ≡ ends role call.now }
{
    match role {
        Role::Runner | Role::User => true,
        Role::Informer => matches!(call, Call::Shut),
        Role::Worker => false,
    }
}

// Whether the call is the user's.
fn edits(role: Role) -> bool
    ensures { result ≡ edits role }
{
    matches!(role, Role::User)
}

impl Progress {
    /// No instant has begun, and nobody has called.
    pub fn new() -> Progress
        ensures { result ≡ record { begun = 0; on = false; edited = false } }
    {
        Progress {
            begun: 0,
            on: false,
            edited: false,
        }
    }

    /// Whether a call is at its time.
    pub(crate) fn is_timely(self, span: &Span, role: Role, call: &Call, answer: &Answer) -> bool
        ensures { result ≡ is_timely span.now self role call.now answer.now }
    {
        let within = self.on && is_within(span, self.begun.saturating_sub(1), role, call);
        within || is_before(span, self, role, call, answer)
    }

    /// How far the run is after this call.
    pub fn after(self, span: &Span, role: Role, call: &Call) -> Progress
        requires { self.begun + 1 < 2 ^ 64 }
        ensures value { result ≡ progress_after span.now self role call.now }
        ensures short { result.begun ≤ self.begun + 1 }
    {
        if begins(span, self, role, call) {
            return Progress {
                begun: self.begun + 1,
                on: true,
                edited: false,
            };
        }
        if ends(role, call) {
            return Progress {
                begun: self.begun,
                on: false,
                edited: edits(role) || self.edited,
            };
        }
        self
    }
}
