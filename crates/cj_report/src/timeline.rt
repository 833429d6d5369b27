// What became of each Job, and when.
mod bar;
mod bars;
mod happenings;
mod lines;
mod mark;
mod marks;
mod moments;
mod reading;
mod running;
mod what;

pub use bar::{Bar, BarEnd, How};
pub use bars::bars_of;
pub use lines::timeline_text;
pub use mark::Mark;
pub use marks::marks_of;
pub use moments::told_moment;
