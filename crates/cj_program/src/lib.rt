//! The program: what the words of a command line ask for, what the answer is, and what is written.
//!
//! Here belongs which answer goes to which request, what is written of it, and what is said where
//! that fails. What the answer says belongs to the crates below; files, folders and the process
//! belong to the program itself. That rests on `parse_words`, `read_input` and `serve`, whose
//! clauses `served` and `failed` say what was written at each exit status.
#![tactic(auto)]

mod as_json;
mod forms;
mod lines;
mod named;
mod played;
mod remarks;
mod replay;
mod run;
mod serving;
mod several;
mod shown;
mod told;
mod writing;

pub use cj_answers::{
    JsonInput, ZonedMoment, by_clock, is_bare_object, json_input, moment_in, nearest_zone,
    next_text, shape_words, zones_for,
};
pub use cj_args::{
    CheckRequest, ClockWords, ControlRequest, CrontabRequest, ReportRequest, Request,
    UpcomingRequest, WordFault, parse_words, word_tips,
};
pub use cj_check::{FileAnswer, check_file_answer, crontab_zones, fault_places};
pub use cj_inspect::{CronFile, MOST_LIST_BYTES, MOST_LIST_READS};
pub use cj_io::{
    ExitStatus, Failure, FileBytes, MOST_BYTES, MOST_READS, ZoneFile, is_file_name, read_input,
    tell_failure, zones_named,
};
pub use cj_run::Meter;
pub use cj_types::{Refusal, Seconds, Text};
pub use cj_world::Secret;
pub use cj_zone::{ZoneTable, time_text};
pub use serving::serve;
pub use several::{serve_report, serve_several, serve_upcoming};
pub use told::tell_fault;
