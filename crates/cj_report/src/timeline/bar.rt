use cj_types::{Job, Seconds, Shared};

/// How the run of a Job ends.
#[derive(Clone, Copy, Debug, PartialEq, Eq)]
pub enum How {
    /// A runner ended the Job, with success.
    Complete,
    /// A runner ended the Job, without success.
    Failed,
    /// A worker dropped the Job: to make room for another, or since its CronJob is gone.
    Dropped,
    /// A user deleted the Job.
    Deleted,
}

/// The end of the run of a Job.
#[derive(Clone, Copy, Debug)]
pub struct BarEnd {
    pub how: How,
    /// When it ended; none where the history has no moment.
    pub at: Option<Seconds>,
}

/// A Job that a worker made, with the end of its run; none where it still runs.
#[derive(Drop)]
pub struct Bar {
    /// The Job as it was made: its creation is the moment of its making.
    pub job: Shared<Job>,
    pub end: Option<BarEnd>,
}
