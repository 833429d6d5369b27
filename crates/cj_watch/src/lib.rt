//! The latest writes as events, and which of them came after a version.
//!
//! Here belongs how many events are kept, which events a watch answers, and (`mirror`, in the
//! field's words an informer cache) a listing that lags behind and is fed with events. What a write
//! is belongs to `cj_store`. The crates above rest on `WatchLog::since`, on `Mirror`, and on
//! `watch_laws` and `mirror_laws`: no event is missed.
//!
//! docs/ARCHITECTURE.md has a glossary of house words.
#![tactic(auto)]

mod laws;
mod log;
mod mirror;
mod ring;
mod window;

pub use laws::watch_laws;
pub use log::WatchLog;
pub use mirror::{Mirror, mirror_laws};
pub use window::Window;
