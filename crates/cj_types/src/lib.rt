//! The stored objects, the drafts that manifests describe, and their names.
//!
//! Here belongs what a CronJob, a Job, a draft (a desired object) or an event is, which names are
//! well formed, and the Job that a CronJob makes for a time. How objects are read, written and kept
//! belongs to the crates above. They rest on the types, which keep names and numbers in their
//! forms, on `Key::new` with its faults, and on `CronJob::job_for`.
//!
//! docs/ARCHITECTURE.md has a glossary of house words.
#![tactic(auto)]

mod cron;
mod cron_key;
mod event;
mod job;
mod key;
mod labels;
mod laws;
mod limits;
mod made;
mod max;
mod meta;
mod name_list;
mod name_rules;
mod object_name;
mod owners;
mod policy;
mod reason_list;
mod spec_text;
mod text_pair;
mod uid;
mod versions;
mod world_limits;

pub use cj_base::{
    Cause, Field, FieldFault, FieldFaults, Heap, Listing, Millis, Refusal, Same, Seconds, Shared,
    Text, TryCopy, Version, copy_all, same_all,
};
pub use cron::{CronJob, CronJobDraft, CronSpec, CronStatus, JobTemplate};
pub use cron_key::CronKey;
pub use event::{Event, Object};
pub use job::{Job, JobDraft};
pub use key::Key;
pub use labels::Labels;
pub use laws::uid_laws;
pub use limits::{Deadline, HistoryLimit};
pub use max::Max;
pub use meta::{DraftMeta, Meta};
pub use name_list::Names;
pub use name_rules::{name_cause, namespace_cause};
pub use object_name::ObjectName;
pub use owners::{OwnerRef, OwnerRefs};
pub use policy::{Outcome, Policy, Reason};
pub use reason_list::Reasons;
pub use spec_text::SpecText;
pub use uid::Uid;
pub use versions::version_text;
pub use world_limits::Limits;
