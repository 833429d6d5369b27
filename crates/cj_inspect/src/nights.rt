// The local times that clocks skip, or show twice, and that the schedules of CronJobs name.
//
// Here belongs which changes of clocks a command tells of, and how: CronJobs that name the same
// local time on the clock of one zone are told of together. What a clock does at a change, and
// whether a schedule names such a time, is said by `cj_upcoming`.
mod gather;
mod groups;
mod lines;
mod look;
mod span;
mod told;

pub(crate) use gather::nights_of;
pub(crate) use groups::{Night, Parts, parts_of};
pub use look::Look;
pub(crate) use span::cluster_look;
pub use told::nights_text;
pub(crate) use told::with_nights;
