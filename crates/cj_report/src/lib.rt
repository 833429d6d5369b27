//! What a replay or a run prints: the line of each step, and the report of the end; and what is
//! read off a history: its entries, its time line, and the bars and marks of a picture.
//!
//! Here belongs how an answer, an object or a reason is written, and what a history says. What
//! makes the history, who is asked to answer, and how a picture is drawn belongs to the crates
//! above. They rest on `step_line`, the line of one answer; on `report_text`, whose clause says
//! that the text is that of these objects and of the reasons in these entries (`Reports` in specs/
//! says which objects a history leaves); and on `timeline_text`, `history_text`, `bars_of` and
//! `marks_of`, each stated by a definition over the entries.
#![tactic(auto)]

mod answers;
mod called;
mod columns;
mod history;
mod line;
mod objects;
mod reasons;
mod report;
mod tellings;
mod timeline;
mod words;

pub use called::call_word;
pub use history::{due_word, history_text};
pub use line::step_line;
pub use report::report_text;
pub use timeline::{Bar, BarEnd, How, Mark, bars_of, marks_of, timeline_text, told_moment};
pub use words::refusal_name;
