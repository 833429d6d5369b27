//! The controller of a real cluster, line by line.
//!
//! Here belongs what a controller does with a line that comes in (`Machine::line`): what it keeps
//! of a cluster's objects (`mirror`), how it follows them by lists and watches (`feed`), and what
//! each sync does next (`machine`). What a sync may ask, what its requests send and what an answer
//! says belongs to `cj_control`: all that is sent goes through its `Ledger`. How lines are read and
//! written belongs to `cj_dialogue`.
#![tactic(auto)]

mod feed;
mod feeds;
mod machine;
mod mirror;
mod remark;
mod source;

pub use cj_queue::Secret;
pub use feeds::Feeds;
pub use machine::{ControlOptions, Machine};
pub use mirror::Mirror;
pub use remark::{Level, Remark};
pub use source::Source;
