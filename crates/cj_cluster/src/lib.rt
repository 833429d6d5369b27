//! What a cluster holds: its CronJobs and its Jobs, as its server says them.
//!
//! Here belongs what is kept of an object of a cluster, whose Job is whose, and (`kubectl`) how
//! what `kubectl` prints is read, with a note of each item that can't be used. What is found in a
//! cluster belongs to the crates above. They rest on `read_cluster`, on `Cluster`, and on
//! `ClusterCron::controls`.
#![tactic(auto)]

mod cluster;
mod cron;
mod kubectl;
mod times;

pub use cluster::Cluster;
pub use cron::{ClusterCron, CronMarks};
pub use kubectl::{
    ClusterList, CronName, ItemNote, ItemNotes, ListFault, ListedKind, ObjectNamed, Said,
    is_of_refused, item_texts, read_cluster, read_instant,
};
pub use times::JobTimes;
