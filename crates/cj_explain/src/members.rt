// What is missing or wrong in a scenario, a script or the scenario of a run: the first of its
// members that is, by its path, and what that has to be.
mod action;
mod entries;
mod items;
mod member;
mod seen;
mod want;
mod wholes;
mod wrong;

pub use seen::look;
