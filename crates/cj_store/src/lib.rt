//! The versioned store of CronJobs and Jobs: one count of versions over all objects, conditional
//! updates, uids that never return, ends that are final (Kubernetes API conventions, "Concurrency
//! Control and Consistency").
//!
//! Here belongs the answer of each write, the first refusal that holds, and the content after it.
//! Who may call, and how others learn of a write, belongs to the crates above. They rest on the
//! plans (`plan_create_cron` and the other `plan_` calls), on `Store::commit`, and on the laws of
//! contents, events and answers (`store_laws`).
#![tactic(auto)]

mod change;
mod commit;
mod crons;
mod equal;
mod jobs;
mod laws;
mod meta;
mod owned;
mod placed;
mod planned_crons;
mod planned_jobs;
mod plans;
mod store;
mod store_laws;

pub use change::Change;
pub use laws::equality_laws;
pub use store::Store;
pub use store_laws::{answer_laws, event_laws, make_both, sound_laws, update_both};
