// What each call of a worker does with what the world holds.
mod active;
mod claim;
mod finish;
mod plan_steps;
mod roles;
mod see;
mod take;

pub use roles::by_worker;
