// What a JSON text is by its members: which command takes it, and which of its members no command
// reads.
mod form;
mod fraction;
mod ignored;
mod told;

pub use form::Form;
pub use told::{detect, detect_at};
