//! The whole controller: workers, runners and an informer at one hub, under a clock that moves on
//! only when the hub is at rest.
//!
//! Here belongs who calls in a run and when: the threads, the clock, the user's edits, which Job
//! takes which run. How a sync, an informer's step or a runner's round goes, and how a report is
//! written, belongs to the crates below. The program rests on `run_simulation`, which returns a
//! history with its report. The history keeps what is promised of every history. It has the calls
//! of an informer, two runners, the workers and a user alone, each at its time. The user did just
//! what the scenario says, the runners ended just the Jobs that were due, and the workers claimed
//! times in the scenario's zones.
//!
//! docs/ARCHITECTURE.md has a glossary of house words.
#![tactic(auto)]

mod clock;
mod drive;
mod ends;
mod error;
mod laws;
mod made;
mod meter;
mod participants;
mod rest;
mod run;
mod threads;
mod turns;
mod upkeep;
mod user;
mod validation;
mod work;
mod zones;

pub use laws::{run_due_times_law, run_syncs_law, run_times_law};
pub use meter::Meter;
pub use run::{Ran, run_simulation};
pub use turns::Progress;
