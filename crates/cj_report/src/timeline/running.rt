// Which Jobs an entry makes, and which it ends.
ghost use Rattle.std.specs.Prelude.{◌≡◌, option_copied};
ghost use Rattle.cj_report.specs.timeline.Running as said;

use crate::timeline::bar::How;
use cj_calls::{Answer, Call, Reply};
use cj_types::{Job, Key, Outcome, Shared};

fn job_in(reply: &Reply) -> Option<&Shared<Job>>
    ensures { option_copied result ≡ said.job_in reply.now }
{
    match reply {
        Reply::Job(job) => Some(job),
        _ => None,
    }
}

/// The Job that an accepted making made.
pub(crate) fn made_by<'a>(call: &Call, answer: &'a Answer) -> Option<&'a Shared<Job>>
    ensures { option_copied result ≡ said.made_by call.now answer.now }
{
    match (call, answer) {
        (Call::MakeNext, Ok(reply)) => job_in(reply),
        _ => None,
    }
}

/// The Job that an answer says was dropped.
pub(crate) fn dropped_in(reply: &Reply) -> Option<&Key>
    ensures { option_copied result ≡ said.dropped_in reply.now }
{
    match reply {
        Reply::Dropped(Some((key, _))) => Some(key),
        _ => None,
    }
}

/// The Job that an accepted call ended, dropped or deleted.
pub(crate) fn ended_by<'a>(call: &'a Call, answer: &'a Answer) -> Option<&'a Key>
    ensures { option_copied result ≡ said.ended_by call.now answer.now }
{
    match (call, answer) {
        (Call::EndJob(key, _, _, _), Ok(_)) => Some(key),
        (Call::DeleteJob(key), Ok(_)) => Some(key),
        (Call::DropNext, Ok(reply)) => dropped_in(reply),
        _ => None,
    }
}

fn how_of(outcome: Outcome) -> How
    ensures { result ≡ said.how_of outcome }
{
    match outcome {
        Outcome::Complete(_) => How::Complete,
        Outcome::Failed => How::Failed,
    }
}

/// How such a call ends it.
pub(crate) fn how_by(call: &Call) -> How
    ensures { result ≡ said.how_by call.now }
{
    match call {
        Call::EndJob(_, _, outcome, _) => how_of(*outcome),
        Call::DeleteJob(_) => How::Deleted,
        _ => How::Dropped,
    }
}
