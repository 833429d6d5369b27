// What is said to people of a run.
mod calls;
mod families;
mod gaps;
mod idle;
mod order;
mod refused;
mod standings;
mod suspended;
mod whole;

pub(crate) use whole::{asked_remark, entries_of, gaps_in};
