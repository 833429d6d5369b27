//! JSON: an object as it is written, members in the order of their names, and one value of a text,
//! where more values follow.
//!
//! Here belongs how a stored CronJob or Job is written, how a Job's spec is kept as a text, and how
//! a value is read from the tokens of a longer text. How an object is read belongs to
//! `cj_manifest`, whose laws rest on `Written::to_value` and `Written::write`.
#![tactic(auto)]

mod cron;
mod floats;
mod job;
mod members;
mod meta;
mod named;
mod object;
mod tokens;
mod values;
mod written;

pub use floats::has_float;
pub use named::object_of;
pub use tokens::read_value;
pub use values::{push_value, text_or_null, time_or_null, time_value};
pub use written::Written;
