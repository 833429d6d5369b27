//! Pictures, as SVG: of a run, of a cluster's Jobs, and of what starts in the time to come.
//!
//! Here belongs how they look, and nothing of what is shown: the bars and the marks of a run are
//! those of `cj_report`, the times that got no Job those of `cj_history`, a cluster's Jobs and what
//! is wrong with them those of `cj_audit`, the minutes in which something starts those of
//! `cj_upcoming`, whose clauses say which they are. How they are drawn isn't proved but for its
//! safety; `tests/pictures` looks at what is drawn.
#![tactic(auto)]

mod axis;
mod blocks;
mod clock;
mod cluster;
mod crosses;
mod heat;
mod lanes;
mod page;
mod run;
mod short;
mod style;
mod svg;
mod ticks;

pub use cluster::{Window, cluster_picture};
pub use heat::heat_picture;
pub use run::picture_text;
