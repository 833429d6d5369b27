//! The controller of a real cluster, without its sockets.
//!
//! Here belongs what a controller asks a Kubernetes API server, and what it makes of the answers:
//! which syncs are under way and how far each has come (`Ledger`), what an object says
//! (`read_cron`, `read_job`), what a line is and answers (`read_line`, `answer_in`), and what a
//! sync's writes send (`created_body`, `claim_body`, `start_body` and their kin). How a request is
//! carried belongs to a process of its own. What each sync may ask is the fenced start of
//! `cj_fence`.
#![tactic(auto)]

mod api;
mod book;
mod calls;
mod coming;
mod created;
mod deed;
mod hearing;
mod hold;
mod laws;
mod ledger;
mod line;
mod names;
mod objects;
mod reply;
mod request;
mod rows;
mod sent;
mod template;

pub use api::ApiVersion;
pub use calls::{CronParts, event_patch, event_request, request_of};
pub use coming::{Ahead, Errand, calls_ahead, requests_for};
pub use created::{MarkTexts, created_body};
pub use deed::Deed;
pub use hold::{Hold, hold_in, is_held};
pub use laws::{created_law, follow_law, segment_law, start_law};
pub use ledger::Ledger;
pub use line::{Line, LineFault, LineKind, read_line};
pub use names::parts;
pub use objects::{
    CronSaid, CronTimes, Head, JobMarks, annotation, completed_at, full_name, is_text, list_of,
    meta, read_cron, read_head, read_job, spec, text_at,
};
pub use reply::answer_in;
pub use request::{HeldBy, claim_body, delete_body, expire_body, reference, start_body, tidy_body};
pub use rows::FencedSync;
pub use sent::{
    Request, Verb, delete_job, get_cron, get_job, get_path, patch_job, patch_status, post_job,
    request_line, request_value,
};
pub use template::{mark_of, parts_of};
