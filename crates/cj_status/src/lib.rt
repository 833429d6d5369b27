//! The facts about a CronJob's Jobs: which run, which succeeded last, and which are surplus, over
//! the history limits.
//!
//! Here belongs which Jobs of a listing or of a live read are a CronJob's own, and their orders.
//! What the controller does about them belongs to `cj_decide`, which rests on the one clause of
//! each of these functions: its result as a function of the Jobs.
#![tactic(auto)]

mod active;
mod listing;
mod mine;
mod order;
mod refs;
mod success;
mod surplus_jobs;

pub use active::{active_of, names_with, still_active};
pub use listing::{Pick, listed, picked, running_found};
pub use mine::is_mine;
pub use order::Sorting;
pub use refs::{JobRef, JobRefs};
pub use success::last_success;
pub use surplus_jobs::{HistoryLimits, surplus};
