ghost use Rattle.std.specs.Prelude.{◌≡◌};
ghost use Rattle.cj_types.specs.Uids.{uid_text};
ghost use Rattle.cj_status.specs.Mine.{is_complete, is_failed, is_mine, is_running};

use cj_types::{Job, Outcome, Uid};

/// Whether the Job's controller has the uid.
pub fn is_mine(uid: &Uid, job: &Job) -> bool
    ensures { result ≡ is_mine (uid_text uid.now) job.now }
{
    match job.owners.controller() {
        Some(owner) => uid.has_text(owner.uid.as_str()),
        None => false,
    }
}

/// Whether the Job's controller has the uid and the Job hasn't finished.
pub(crate) fn is_running(uid: &Uid, job: &Job) -> bool
    ensures { result ≡ is_running (uid_text uid.now) job.now }
{
    let mine = is_mine(uid, job);
    mine && job.is_unfinished()
}

/// Whether the Job succeeded.
pub(crate) fn is_complete(job: &Job) -> bool
    ensures { result ≡ is_complete job.now }
{
    matches!(job.outcome, Some(Outcome::Complete(_)))
}

/// Whether the Job failed.
pub(crate) fn is_failed(job: &Job) -> bool
    ensures { result ≡ is_failed job.now }
{
    matches!(job.outcome, Some(Outcome::Failed))
}
