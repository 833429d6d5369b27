//! What a world holds, what one call answers and leaves of it, and the steps that many calls share.
//!
//! Here belongs the definition of one call (`step_of` in specs/), which code and laws share, and
//! (`phases`) how far each worker's sync has come. The code of each call belongs to `cj_world`,
//! what holds after all calls to `cj_world_laws`. Both rest on `step_of`, and on `rests_on`, which
//! tells whether a plan is of three answers.
#![tactic(auto)]

mod phases;
mod said;
mod state;
mod syncs;

pub use phases::{
    InFlight, InFlightSyncs, Phase, Work, drop_at, is_done, make_at, rests_on, status_at, step_laws,
};
pub use said::{event_answer, refused};
pub use state::State;
pub use syncs::sync_in;
