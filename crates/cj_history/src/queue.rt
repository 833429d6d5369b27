// What a history says of the work queue, by looking back over its accepted calls; and that the
// queue of the state agrees.
mod laws;
mod rest;

pub use laws::{answer_law, call_law, queue_law};
pub use rest::rest_law;
