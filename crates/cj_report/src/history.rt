// A history as it is printed, a line an entry.
mod asked;
mod entries;
mod fields;
mod listed;
mod names;
mod plans;

pub use entries::history_text;
pub use fields::due_word;
pub(crate) use names::reasons_word;
