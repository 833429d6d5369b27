//! What is wrong in a cluster: Jobs that a correct controller of CronJobs would not have made, and
//! due times for which it would have made one.
//!
//! Here belongs what a finding is, in which order findings come, and their lines and words; and the
//! JSON values that the program prints and the library for other languages hands out: findings,
//! faults of a manifest without words, items of a list that are neither a CronJob nor a Job. How a
//! cluster is read belongs to `cj_cluster`. The commands rest on `audit`: exactly these findings,
//! each once; on `audit_text` and `audit_words`; and on `audit_value`, `faults_value` and
//! `others_value`, whose clauses name the value.
#![tactic(auto)]

mod answer;
mod clock;
mod cron;
mod ending;
mod faults;
mod finding;
mod findings;
mod items;
mod json;
mod kind;
mod lines;
mod manual;
mod marks;
mod missing;
mod note;
mod pair;
mod pairing;
mod run;
mod stray;
mod stuck;
mod told;
mod whole;
mod words;

pub use answer::audit_value;
pub use faults::{cause_text, faults_value, one_fault};
pub use finding::Finding;
pub use findings::Findings;
pub use items::others_value;
pub use json::{findings_value, manual_value};
pub use kind::{Exclusive, FindingKind};
pub use lines::audit_text;
pub use manual::manual_text;
pub use run::{Run, runs_of};
pub use told::{has_jobs_alone, times_text};
pub use whole::audit;
pub use words::{audit_words, finding_words};
