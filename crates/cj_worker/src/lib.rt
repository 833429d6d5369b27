//! Workers: a sync takes a key, looks at its CronJob and its Jobs, and carries out the one plan of
//! what was seen; a worker is a thread that makes one sync after the other.
//!
//! Here belongs in which order a sync calls, how it ends, where it may be stopped, and whose passes
//! come back. What a plan is belongs to `cj_decide`, what a call is answered to the world. The
//! crates above rest on `sync_once` and `run_workers`.
//!
//! docs/ARCHITECTURE.md has a glossary of house words.
#![tactic(auto)]

mod asking;
mod context;
mod ending;
mod error;
mod gate;
mod outline;
mod planned;
mod states;
mod steps;
mod sync;
mod work;
mod workers;
mod zones;

pub use ending::SyncEnd;
pub use gate::{Clock, Gate, OpenGate, Point, Reading, Turn};
pub use sync::sync_once;
pub use workers::{WorkerEnd, run_workers};
