// What is kept of a CronJob from one sync to the next.
use crate::machine::error_log::ErrorLog;
use cj_base::Text;

/// What is kept of a CronJob from one sync to the next.
pub(crate) struct Memo {
    /// The Job that waits to be helped, and since when.
    pub waits: Option<(Text, u64)>,
    /// Whether the CronJob is to be read by a GET.
    pub is_live: bool,
    /// How many claims in a row were refused by a conflict.
    pub conflicts: u64,
    /// The time that was planned and not claimed, and the last one of which people were told so; 0
    /// for none.
    pub due: u64,
    pub missed: u64,
    /// The errors that the API server answered to its calls.
    pub errors: ErrorLog,
    /// Whether people were told that references of `status.active` name no Job.
    pub has_nameless: bool,
    /// The uid of the Job of which people were told that it is left to a newer version.
    pub left_job: Option<Text>,
    /// The version of the CronJob of which it was told that it is left alone.
    pub left: Option<Text>,
    /// The minute since 1970 in which it was told last why no Job is started.
    pub minute: u64,
}

impl Drop for Memo {
    fn drop(self) {
        let Memo {
            waits: _,
            is_live: _,
            conflicts: _,
            due: _,
            missed: _,
            errors,
            has_nameless: _,
            left_job: _,
            left: _,
            minute: _,
        } = self;
        drop(errors);
    }
}

impl Memo {
    /// Whether nothing is kept.
    pub fn is_empty(&self) -> bool {
        let has_told = !self.errors.is_empty() || self.has_nameless;
        let has_times = self.due != 0 || self.missed != 0 || self.minute != 0;
        let has_to_do = self.waits.is_some() || self.is_live || self.conflicts != 0;
        let has_left = self.left.is_some() || self.left_job.is_some();
        !has_told && !has_times && !has_to_do && !has_left
    }
}
