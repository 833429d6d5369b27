//! What `why`, `audit`, `upcoming` and `report` answer: of a cluster's objects, and of a window of
//! time.
//!
//! Here belongs what is printed and said for one request, as a function of the request and of what
//! was read. Findings, reviews and starts belong to the crates below, the form of an answer to
//! `cj_answers`. The crate above rests on the one clause of each `.._answer`: the answer is that of
//! the rules for these words and this text.
#![tactic(auto)]

mod as_json;
mod audit;
mod calls;
mod columns;
mod cron_files;
mod describing;
mod drawing;
mod html;
mod manifests;
mod narrowing;
mod nights;
mod report;
mod scenario;
mod schedules;
mod spans;
mod upcoming;
mod why;
mod windows;

pub use audit::audit_answer;
pub use cron_files::CronFile;
pub use describing::describing_answer;
pub use drawing::{clock_of, clock_table};
pub use narrowing::is_everything;
pub use nights::{Look, nights_text};
pub use report::{report_answer, report_files_answer};
pub use scenario::scenario_answer;
pub use upcoming::{upcoming_answer, upcoming_files_answer};
pub use why::naming::{has_no_text, is_called_one, is_within, key_text_of, unknown_end};
pub use why::{MOST_LIST_BYTES, MOST_LIST_READS, refused_unknown, why_answer};
