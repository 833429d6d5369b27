// The laws of plans, over the definitions alone.
mod laws;

pub use laws::{fits_law, plan_laws};
