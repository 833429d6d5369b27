use cj_types::Seconds;

/// What a cluster says of a Job's times beside that of its creation, and who made it.
#[derive(Clone, Copy, Debug, PartialEq, Eq)]
pub struct JobTimes {
    /// The scheduled time that it was made for, where an annotation or its name says it.
    pub scheduled: Option<Seconds>,
    /// Whether that time is the one in its name, as no annotation says one.
    pub is_named: bool,
    /// When it ended, if it did.
    pub ended: Option<Seconds>,
    /// Whether somebody made it by hand from the CronJob's template, as its annotation says.
    pub is_manual: bool,
    /// Whether it is suspended: its `spec.suspend` is true, so that no Pod of it runs.
    pub is_suspended: bool,
}
