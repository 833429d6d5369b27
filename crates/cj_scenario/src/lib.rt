//! Scenarios: a CronJob with its Jobs and zones, as a JSON text says them.
//!
//! Here belongs what a scenario is, with the zones that any input may have, and (`detection`) what
//! a text is where a text of another form is wanted. What is decided for a scenario belongs to the
//! crates above. They rest on `read_scene`, `table_of` and `detect`.
#![tactic(auto)]

mod detection;
mod fault;
mod form;
mod given;
mod live;
mod made;
mod read;
mod scene;
mod times;
mod zones;

pub use detection::{Form, detect, detect_at};
pub use fault::SceneFault;
pub use read::{draft_of, first_fault, read_scene, value_of};
pub use scene::Scene;
pub use zones::table_of;
