ghost use Rattle.std.specs.Prelude.{◌≡◌};
ghost use Rattle.cj_types.specs.Uids.{uid_text};
ghost use Rattle.cj_status.specs.Success.{completed_at, later, success_of};

use crate::mine::is_mine;
use cj_types::{Job, Outcome, Seconds, Shared, Uid};

fn completed_at(uid: &Uid, job: &Job) -> Option<Seconds>
    ensures { result ≡ completed_at (uid_text uid.now) job.now }
{
    let mine = is_mine(uid, job);
    match job.outcome {
        Some(Outcome::Complete(time)) if mine => Some(time),
        _ => None,
    }
}

fn later(a: Option<Seconds>, b: Option<Seconds>) -> Option<Seconds>
    ensures { result ≡ later a b }
{
    match (a, b) {
        (Some(s), Some(t)) => Some(s.max(t)),
        (Some(s), None) => Some(s),
        (None, b) => b,
    }
}

/// The greatest of the given time, if any, and the completion times of the CronJob's Jobs that
/// succeeded.
pub fn last_success(standing: Option<Seconds>, jobs: &[Shared<Job>], uid: &Uid) -> Option<Seconds>
    ensures { result ≡ success_of standing jobs.now (uid_text uid.now) }
{
    let mut last = standing;
    for job in jobs {
        last = later(last, completed_at(uid, job.get()));
    }
    last
}
