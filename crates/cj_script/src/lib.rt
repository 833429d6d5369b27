//! Scripts and simulations: what callers do, as a JSON text says it.
//!
//! Here belongs how a text becomes the steps of a script or the scenario of a run, with which fault
//! it is refused where it doesn't, and which call an operation is, by how far its caller's sync has
//! come. What a call is answered belongs to the crates above. They rest on `read_script` and
//! `read_simulation`, which say what a text means, and on `call_of` and `unseen_call`.
#![tactic(auto)]

mod callers;
mod drafts;
mod limits;
mod lists;
mod operations;
mod read;
mod script;
mod simulation;
mod step;
mod steps;
mod writes;

pub use operations::{
    Operation, Plain, Verb, Write, call_of, instant_of, key_of, present, unseen_call, verb_named,
};
pub use read::read_script;
pub use script::Script;
pub use simulation::{Edit, Run, RunEnd, Runs, Simulation, Span, read_simulation};
pub use step::Step;
