// What a step of a script does: its verb, and the operation of a verb that takes no manifest, as a
// JSON object says it; and the call of an operation, by how far its caller's sync has come.
mod call;
mod finish;
mod instant;
mod keys;
mod member;
mod operation;
mod plain;
mod plan;
mod verb;

pub use call::{call_of, unseen_call};
pub use instant::instant_of;
pub(crate) use instant::time_at;
pub use keys::key_of;
pub(crate) use member::number_at;
pub use member::present;
pub use operation::Operation;
pub(crate) use plain::plain_operation;
pub use verb::{Plain, Verb, Write, verb_named};
