//! Manifests: JSON bytes to drafts, with every fault by its field and a warning for every member
//! that is dropped.
//!
//! A draft is what a manifest asks for, in the field's words a desired object. Here belongs the
//! table of fields: which values each may have, in which order faults are reported, and what a
//! draft keeps of a member. Which object a draft becomes belongs to the store. The crates above
//! rest on `read_manifest`, `read_cronjob` and `read_job`, and on `manifest_laws`: a written object
//! reads back.
//!
//! docs/ARCHITECTURE.md has a glossary of house words.
#![tactic(auto)]

mod draft;
mod draft_parts;
mod faults;
mod head;
mod kind;
mod laws;
mod level;
mod manifest;
mod metadata_fields;
mod owner;
mod pods;
mod read;
mod spec_fields;
mod values;
mod warned;
mod warning;

pub use head::{JobHead, head_of};
pub use laws::manifest_laws;
pub use manifest::Manifest;
pub use metadata_fields::metadata;
pub use read::{cron_of, job_of, read_cronjob, read_job, read_manifest};
pub use values::{object, present, text};
pub use warned::cron_warnings;
pub use warning::Warning;
