//! `libcronsim`: due times, and manifests, plans and clusters as JSON, for callers that aren't
//! Rattle, by the names of C.
//!
//! Here belongs what an exported function takes and gives, what such a caller keeps, a schedule in
//! its zone, behind a handle, and (`answers`) the JSON in its buffer. Which times are due belongs
//! to `cj_due`, which texts are schedules to `cj_schedule`, and what a zone is to `cj_zone`, whose
//! clauses the exports state again. `include/cronsim.h` declares them for C, and says what a caller
//! owes. Nothing here prints, waits, locks or keeps a pointer of its caller.
#![tactic(auto)]

mod answers;
mod fault;
mod held;
mod opening;
mod parts;
mod shown;
mod status;
mod times;
mod timetable;
mod zones;

pub use answers::{
    cronsim_audit, cronsim_check, cronsim_describe, cronsim_fault_text, cronsim_plan,
    cronsim_upcoming, cronsim_version, cronsim_why,
};
pub use fault::CronFault;
pub use held::Held;
pub use opening::{cronsim_close, cronsim_open, cronsim_open_file, cronsim_open_rule};
pub use shown::cronsim_matches;
pub use times::{CronMissed, cronsim_missed, cronsim_next, cronsim_next_many, cronsim_previous};
