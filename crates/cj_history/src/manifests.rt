// Laws that join layers which don't use one another.
mod created;

pub use created::created_laws;
