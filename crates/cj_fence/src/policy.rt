use cj_base::Same;

/// What becomes of a new Job of a CronJob while an earlier one runs (batch/v1,
/// `spec.concurrencyPolicy`).
#[derive(Clone, Copy, Debug, PartialEq, Eq)]
pub enum Policy {
    /// Both run.
    Allow,
    /// The new one is skipped.
    Forbid,
    /// The new one takes the earlier one's place.
    Replace,
}

impl Same for Policy {
    fn same(&self, other: &Policy) -> bool {
        self == other
    }
}
