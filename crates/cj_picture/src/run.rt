//! The picture of a run.
pub(crate) mod bars;
pub(crate) mod crons;
pub(crate) mod marks;
pub(crate) mod picture;

pub use picture::picture_text;
