//! Histories by looking back alone: what makes one legal, that a call has one answer, that a key is
//! in one worker's hands at a time, that no time gets two Jobs, that a Job under Forbid or Replace
//! is made alone, and that a claim is of the greatest time missed. No state stands in these words.
//!
//! Here belongs a second reading of what the crates below define by a state: of what is written
//! (`store`) and queued (`queue`), and that what is written of a created object reads back
//! (`manifests`); `legal_law` and `answer_law` say that the two readings agree. The program rests
//! on `gaps_of` and `all_gaps_of` alone, whose gaps it tells people of a run. What is sure to come
//! stands here too (`progress`): the queue forgets nothing that is due, a sync that nobody disturbs
//! makes its Job, and such syncs, one after the other, just those of the due times; and which due
//! times got no Job, and why (`gaps`), for whoever reports of a history.
//!
//! docs/ARCHITECTURE.md has a glossary of house words.
#![tactic(auto)]

pub mod gaps;
mod laws;
mod manifests;
pub mod progress;
pub mod queue;
pub mod store;

pub use gaps::{Gap, Standing, Why, all_gaps_of, gaps_of, made_or_told_law};
pub use laws::{answer_law, exclusive_law, legal_law, once_law, time_law};
pub use manifests::created_laws;
pub use progress::{every_time_law, keeping_up_law, no_key_is_lost_law, progress_law, syncs_law};
pub use queue::{call_law, queue_law, rest_law};
pub use store::{event_law, mirror_law, number_law, store_law};
