// A text that is no schedule has exactly one fault, and a schedule's text has none.
mod faults;

pub use faults::{fault_in, fault_laws};
