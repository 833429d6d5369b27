//! The replay of a script on an empty world: the answer to each step, one after the other, and then
//! the report.
//!
//! Here belongs what a step finds after a history: its caller's sync, the Job at a key, the answer
//! to its call. What an operation means, and how an answer and a report are
//! written, belongs to the crates below. The program rests on `replay`: its clause `whole` says
//! what was printed, and `begun` that after a failure a beginning of that was.
#![tactic(auto)]

mod answer;
mod call;
mod report;
mod run;
mod step;

pub use run::replay;
