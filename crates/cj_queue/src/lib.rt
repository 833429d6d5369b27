//! The work queue of the controller, after client-go's workqueue. Keys wait in line (client-go's
//! `queue`). A key is worked on by one caller at a time. Adds can be delayed, and retries wait
//! longer after each failure.
//!
//! Moments come in with the calls, as milliseconds. A call that grows something takes the memory
//! first: where there is none it answers `Refusal::OutOfMemory`, and the queue is unchanged.
#![tactic(auto)]

mod backoff;
mod copies;
mod failures;
mod laws;
mod line;
mod queue;
mod secret;
mod stage;
mod waits;
mod work;

pub use laws::{queue_laws, row_laws};
pub use queue::Queue;
pub use secret::Secret;
