//! Runners: threads that end the simulated Jobs that are due.
//!
//! Here belongs how one list of running Jobs is ended at one moment: which of them are due, the
//! call that ends each, the shares and their threads. Which Jobs run, for how long and how they end
//! is the caller's to say, and no scenario is known here; the crate needs the hub alone. The
//! crate above rests on `end_due`: its `ok` says that each due Job of the list got its one end and
//! no other did, its `back` which passes came back.
//!
//! docs/ARCHITECTURE.md has a glossary of house words.
#![tactic(auto)]

mod ending;
mod gather;
mod runners;
mod running;
mod shares;
mod threads;

pub use runners::end_due;
pub use running::{Ending, Running};
