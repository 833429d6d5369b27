// The next and the previous civil minute that a schedule allows, on a clock with no zone.
mod day;
mod minute;
mod month;
mod shown;

pub use minute::next_minute;
pub use shown::{next_shown, previous_shown};
