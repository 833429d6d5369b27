//! Calls on the world, who makes them, their replies, and the entries of its history.
//!
//! Here belongs which calls there are, who may make them, and which answers each can have. The
//! answer of a call in a state, and the state after it, belong to `cj_state`. Callers rest on the
//! types alone, and on `Entry`, whose type keeps that its answer is one that the call can have.
#![tactic(auto)]

mod answered;
mod call;
mod caller;
mod end;
mod entry;
mod reply;
mod same;

pub use answered::Answered;
pub use call::Call;
pub use caller::{Caller, Role};
pub use end::End;
pub use entry::Entry;
pub use reply::{Answer, Reply};
pub use same::same_answer;
