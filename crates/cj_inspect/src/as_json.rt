// The answers as JSON.
pub(crate) mod audit;
pub(crate) mod clusters;
pub(crate) mod nights;
pub(crate) mod summary;
pub(crate) mod upcoming;
