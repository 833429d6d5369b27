//! A map by key, listed in the order of keys, which contracts see as a finite map, and the laws of
//! such maps.
//!
//! Here belongs how objects are found by key, and (`jobs`) how Jobs are found by owner. What an
//! object means, and when it changes, belongs to the crates above. They rest on the clauses of
//! `Table` and `Jobs`, which say what each call answers and leaves, and on `table_laws`.
#![tactic(auto)]

mod in_order;
mod jobs;
mod laws;
mod table;
mod tagged;

pub use jobs::Jobs;
pub use laws::{apart_laws, table_laws};
pub use table::Table;
pub use tagged::Tagged;
