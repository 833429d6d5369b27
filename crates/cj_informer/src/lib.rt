//! The informer: it follows what is written to the store, and adds the keys that are concerned to
//! the work queue.
//!
//! Here belongs what one step calls, by events or by a listing, and which key an object concerns.
//! When a step is made belongs to the crate above, which rests on `Informer::step`: its calls, and
//! the version seen after it.
#![tactic(auto)]

mod adding;
mod asking;
mod concerns;
mod informer;
mod listing;
mod watching;

pub use concerns::owner_key;
pub use informer::Informer;
