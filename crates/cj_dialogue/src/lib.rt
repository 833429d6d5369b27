//! The dialogue of a controller with the transport that carries its requests.
//!
//! Here belongs how lines are given to the machine of `cj_control` as they come, how its requests
//! are written, what people are told meanwhile, and the transcript of all that: how it is
//! written, and whether one is what this program does. What a line means belongs to `cj_control`;
//! which files are opened, to the program.
#![tactic(auto)]

mod check;
mod entries;
mod options;
mod prefix;
mod recorder;
mod remarks;
mod session;
mod verdict;
mod zone_source;

pub use check::check_transcript;
pub use cj_machine::Secret;
pub use session::run_session;
pub use zone_source::ZoneSource;
