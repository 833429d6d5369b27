//! The picture of a cluster's Jobs.
pub(crate) mod bars;
pub(crate) mod findings;
pub(crate) mod picture;
pub(crate) mod window;

pub use picture::cluster_picture;
pub use window::Window;
