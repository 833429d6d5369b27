//! Any number of controllers of CronJobs, with no leader: the fenced start, and what it keeps.
//!
//! Here belongs the part of the Kubernetes API that a controller of CronJobs calls
//! (`Cluster::serve`), what one sync of a CronJob may call after what it has heard (`Sync::may`,
//! `Sync::advance`), and the laws of all lists of calls. How a call is sent, and when a time is
//! due, belongs elsewhere. docs/THEOREM.md goes through the proof.
#![tactic(auto)]

mod advance;
mod answer;
mod call;
mod cluster;
mod laws;
mod may;
mod objects;
mod policy;
mod refs;
mod sync;
mod table;
mod texts;
mod writing;

pub use answer::{Answer, Stamp};
pub use call::{Call, Claim, Tidy, Write};
pub use cluster::{Cluster, Served};
pub use laws::{fence_law, help_law, no_garbage_law};
pub use objects::{Cron, Job};
pub use policy::Policy;
pub use refs::{Ref, Refs};
pub use sync::{At, Held, Sync};
pub use table::{Row, Table};
