//! The hub: one world under a lock, passes through which callers call, and receipts of the answers.
//!
//! Here belongs how threads share a world: who is enrolled, what a call does under the lock, who
//! waits and is woken, and how a history is closed. What is called, and why, belongs to the crates
//! above. They rest on `Desk` and its `ask`, on `Hub::call`, `take_wait` and `rest_wait`, and on
//! `Hub::close`, whose history keeps the promise.
//!
//! docs/ARCHITECTURE.md has a glossary of house words.
#![tactic(auto)]

mod asking;
mod book;
mod closed;
mod desk;
mod enrolled;
mod exact;
mod guarded;
mod held;
mod hub;
pub mod operations;
mod pass;
mod receipt;
mod rest;
mod state;

pub use asking::{CallError, ask};
pub use book::Book;
pub use closed::{Closed, NotClosed};
pub use desk::{Desk, HubDesk, PlainDesk};
pub use held::HeldDesk;
pub use hub::Hub;
pub use pass::Pass;
pub use receipt::Receipt;
pub use rest::AtRest;
pub use state::HubState;
