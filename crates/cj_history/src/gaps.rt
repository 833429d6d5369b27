// The due times of a history that got no Job, each with its cause.
mod find;
mod gap;
mod intervals;
mod late;
mod laws;
mod listed;
mod mark;
mod marks;
mod times;

pub use find::gaps_of;
pub use gap::{Gap, Why};
pub use late::{Standing, all_gaps_of};
pub use laws::made_or_told_law;
