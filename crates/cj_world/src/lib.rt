//! The world: what is stored, told, listed and queued, who works on what, and the history of calls
//! that led to it. Whatever is called by whomever, its type keeps what the history promises.
//!
//! Here belongs the code of each call: of users, runners and informers (`api`), and of workers
//! (`worker`). What a call answers is defined in `cj_state`; threads belong to `cj_hub`. The crates
//! above rest on `World::apply` and `World::enter`, and on `World::history`, whose clauses are the
//! promise.
#![tactic(auto)]

mod advance;
mod api;
mod step;
mod worker;
mod world;

pub use api::{by_informer, by_runner, by_user};
pub use cj_queue::Secret;
pub use cj_types::Limits;
pub use worker::by_worker;
pub use world::World;
