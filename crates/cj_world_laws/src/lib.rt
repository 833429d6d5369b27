//! Laws over every list of calls.
//!
//! Here belongs what holds after any calls by anybody: each state is sound and a key is in one
//! worker's hands (`legal`); no time gets two Jobs, a Job under Forbid or Replace is made alone,
//! and a claim is of the greatest time missed (`once`). No code belongs here. The world's type
//! rests on `exclusive_law`, `once_law` and `time_law`. docs/THEOREM.md goes through the proof.
//!
//! docs/ARCHITECTURE.md has a glossary of house words.
#![tactic(auto)]

mod legal;
mod once;

pub use legal::{answer_law, caller_law, exclusive_law, input_law, sound_law, sync_law};
pub use once::{once_law, time_law};
