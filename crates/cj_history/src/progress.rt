// What is sure to come: the queue forgets nothing that is due, a sync that nobody disturbs makes
// its Job, and such syncs, one after the other, just those of the due times.
mod laws;

pub use laws::{every_time_law, keeping_up_law, no_key_is_lost_law, progress_law, syncs_law};
