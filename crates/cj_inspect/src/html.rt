// A page on a cluster's CronJobs, as HTML, to share.
//
// Here belongs how the page looks and in which order it tells things, and nothing of what it
// tells: findings are those of `cj_audit`, the reasons of a CronJob and what of it is a problem
// those of `cj_why`, the words on its Jobs that failed those of `why`, its sentence, what starts in
// the day to come and the local times that its clock skips or shows twice those of `cj_upcoming`,
// the pictures those of `cj_picture`. How it is laid out, and whether the newest Job of a CronJob
// failed, isn't proved but for its safety; `tests/page` looks at what is printed.
mod clock;
mod crons;
mod day;
mod findings;
mod groups;
mod head;
mod jobs;
mod looks;
mod nights;
mod page;
mod pictures;
mod rows;
mod seen;
pub(crate) mod since;
mod style;
mod text;

pub use page::{Subject, page_text};
pub use since::add_cluster;
