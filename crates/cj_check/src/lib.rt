//! What `check` and `plan` answer: of one manifest, of the items of a list, of several files, of a
//! scenario.
//!
//! Here belongs what is printed and said of a manifest or a scenario, in lines or as JSON. How a
//! manifest is read belongs to `cj_manifest`, a scenario to `cj_scenario`, a plan to `cj_decide`,
//! the form of an answer to `cj_answers`. The crate above rests on the clauses of `check_answer`,
//! `check_file_answer`, `several_answer` and `plan_answer`: the answer is that of the rules for
//! these words and this text.
#![tactic(auto)]

mod as_json;
mod check;
mod check_list;
mod crontab;
mod dropped;
mod fault_words;
mod job_fields;
mod manifest;
mod places;
mod plan;
mod report;
mod said_object;
mod seen;
mod several;
mod strays;

pub use check::{check_answer, check_file_answer};
pub use crontab::{crontab_answer, crontab_zones};
pub use places::fault_places;
pub use plan::{asked_detection, plan_answer, refused_scene};
pub use several::{FileAnswer, FileState, count_of, several_answer};
