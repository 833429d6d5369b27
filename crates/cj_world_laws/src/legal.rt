// Laws of histories: what every state keeps that calls lead to, which answers a call can have, who
// is told from whom, and that a key is in one worker's hands at a time.
mod laws;

pub use laws::{answer_law, caller_law, exclusive_law, input_law, sound_law, sync_law};
