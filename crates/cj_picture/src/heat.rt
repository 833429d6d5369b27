//! The picture of what starts in a window of time.
pub(crate) mod cells;
mod clocks;
pub(crate) mod grid;
pub(crate) mod picture;
pub(crate) mod rows;

pub use picture::heat_picture;
