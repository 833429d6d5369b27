// Objects as an API server shows them: a CronJob and a Job as the fenced start sees them.

mod completion;
mod cron;
mod head;
mod job;
mod marks;
mod members;

pub use completion::completed_at;
pub use cron::{CronSaid, CronTimes, read_cron};
pub use head::{Head, read_head};
pub use job::read_job;
pub use marks::JobMarks;
pub(crate) use members::member;
pub use members::{annotation, full_name, is_text, list_of, meta, spec, text_at};
