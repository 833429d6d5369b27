//! The plan of a sync: everything that a sync of a CronJob does, as a function of what it read.
//!
//! Here belongs whether and for which time a Job is started, which Jobs are deleted and created,
//! the status at the end, and the next time; and the laws of plans over the definitions. A plan
//! claims a scheduled time (reserves it in the status) before it creates that time's Job. Which
//! Jobs count and which are kept belongs to `cj_status`; carrying out a plan belongs to `cj_world`
//! and `cj_worker`. The crates above rest on the type `Plan`, which keeps that it is the one
//! decision of the inputs that it holds, and on `fits_law`.
#![tactic(auto)]

mod existence;
mod finally;
mod laws;
mod plan;
mod start;
mod start_decision;
mod steps;
mod times;

pub use cj_status::{JobRef, JobRefs};
pub use existence::plan_exists;
pub use laws::{fits_law, plan_laws};
pub use plan::{Plan, decide};
pub use start::Claim;
pub use steps::Steps;
