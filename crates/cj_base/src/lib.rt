//! Values that every layer uses: instants, civil times, texts, faults of fields, refusals, shared
//! values.
//!
//! Here belong values common to crates that share nothing else, and how values are copied, compared
//! and shared. Objects and their names belong to `cj_types`. All crates rest on the ranges that
//! `Seconds` and `Millis` keep by their types, on `TryCopy` and `Same`, and on `Shared`, which
//! contracts see through.
#![tactic(auto)]

mod cause;
mod civil;
mod copies;
mod copying;
mod faults;
mod field;
mod heap;
mod listing;
mod millis;
mod refusal;
mod results;
mod same;
mod schedule_fault;
mod seconds;
mod shared;
mod text;
mod version;

pub use cause::Cause;
pub use civil::Civil;
pub use copies::copy_all;
pub use copying::TryCopy;
pub use faults::{FieldFault, FieldFaults};
pub use field::Field;
pub use heap::Heap;
pub use listing::Listing;
pub use millis::Millis;
pub use refusal::Refusal;
pub use results::{all_four, all_three, both};
pub use same::{Same, same_all};
pub use schedule_fault::{ScheduleCause, ScheduleFault};
pub use seconds::Seconds;
pub use shared::Shared;
pub use text::Text;
pub use version::Version;
