use cj_types::{Seconds, Uid};

/// What came of a scheduled time.
#[derive(Clone, Copy, Debug, PartialEq, Eq, PartialOrd, Ord)]
pub(crate) enum Deed {
    Claimed,
    Refused,
    Made,
}

/// A scheduled time of a CronJob, by its uid.
#[derive(Clone, Copy, Debug, PartialEq, Eq, PartialOrd, Ord)]
pub(crate) struct Start {
    pub uid: Uid,
    pub time: Seconds,
}

/// What came of a scheduled time of a CronJob, by its uid.
#[derive(Clone, Copy, Debug, PartialEq, Eq, PartialOrd, Ord)]
pub(crate) struct Mark {
    pub uid: Uid,
    pub time: Seconds,
    pub deed: Deed,
}
