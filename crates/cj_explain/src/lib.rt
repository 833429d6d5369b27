//! What people are told of a refusal beside its fixed line: which field, where, what is there, and
//! what is wanted.
//!
//! Here belongs the wording, in lines and as JSON values: of faults, and of the items of a list
//! that are refused; and (`members`) which member of a text is missing or wrong. When it is told
//! belongs to the crates above. They rest on `explain_schedule`, `explain_faults`, `told_faults`,
//! `refused_value` and `look`, whose clauses hold each text and each value to the fault.
#![tactic(auto)]

mod element;
mod fault;
mod field;
mod members;
mod refused_items;
mod schedule;
mod taken;
mod told;

pub use fault::{explain_fault, explain_faults};
pub use members::look;
pub use refused_items::refused_value;
pub use schedule::explain_schedule;
pub use taken::{kind_name, taken_message};
pub use told::told_faults;
