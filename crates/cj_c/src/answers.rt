//! Answers as texts: JSON for a manifest, for a scenario at a moment, for the list of a cluster's
//! objects, and for a schedule; a sentence for a fault; the version.
//!
//! Here belongs how such a text comes into its caller's buffer and what a refusal is there. What a
//! manifest, a scenario or a list says belongs to `cj_manifest`, `cj_scenario` and `cj_cluster`, a
//! plan to `cj_decide`, findings to `cj_audit`, reasons to `cj_why`, starts and the sentence of a
//! schedule to `cj_upcoming`, the items of a list that are refused, in words, to `cj_explain`.

mod audit;
mod buffer;
mod check;
mod describe;
mod fault_text;
mod lists;
mod plan;
mod text;
mod told;
mod upcoming;
mod version;
mod why;
mod zones;

pub use audit::cronsim_audit;
pub use check::cronsim_check;
pub use describe::cronsim_describe;
pub use fault_text::cronsim_fault_text;
pub use plan::cronsim_plan;
pub use upcoming::cronsim_upcoming;
pub use version::cronsim_version;
pub use why::cronsim_why;
