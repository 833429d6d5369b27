// What the scenario of a run says, as a JSON text.
mod edits;
mod read;
mod run;
mod run_lists;
mod runs;
mod scenario;
mod seeds;
mod span;
mod times;

pub use read::read_simulation;
pub use run::{Run, RunEnd};
pub use runs::Runs;
pub use scenario::{Edit, Simulation};
pub use span::Span;
