use cj_types::{Key, Reason, Seconds};

/// Why a sync started no Job, or that many times were missed.
#[derive(Drop)]
pub struct Mark {
    /// The CronJob's key.
    pub key: Key,
    /// When the sync ended; none where the history has no moment.
    pub at: Option<Seconds>,
    pub reason: Reason,
}
