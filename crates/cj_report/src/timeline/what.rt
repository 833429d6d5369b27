ghost use Rattle.std.specs.Prelude.{◌≡◌};
ghost use Rattle.cj_report.specs.timeline.Happenings as said;

/// What happened in an entry that is worth a line.
#[derive(Clone, Copy, Debug, PartialEq, Eq)]
pub(crate) enum What {
    /// A user created a CronJob or a Job.
    Created,
    Updated,
    Deleted,
    /// A user's call was refused.
    Refused,
    /// A worker made a Job.
    Made,
    /// A runner ended it.
    Ended,
    /// A worker dropped it.
    Dropped,
    /// A sync started no Job.
    Skipped,
    /// A sync claimed a time, and made no Job.
    NotMade,
    /// A sync reported that many times were missed.
    Behind,
}

impl What {
    /// The word for what happened.
    pub(crate) fn word(self) -> &'static str
        ensures { result.now ≡ said.what_word self }
    {
        match self {
            What::Created => "created",
            What::Updated => "updated",
            What::Deleted => "deleted",
            What::Refused => "refused",
            What::Made => "made",
            What::Ended => "ended",
            What::Dropped => "dropped",
            What::Skipped => "skipped",
            What::NotMade => "not-made",
            What::Behind => "behind",
        }
    }
}
