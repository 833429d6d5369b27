// Laws of the work queue, over the definitions of its calls.
mod laws;

pub use laws::{queue_laws, row_laws};
