// What each call of users, runners and informers does with what the world holds.
mod crons;
mod jobs;
mod keys;
mod readings;
mod roles;
mod writing;

pub use roles::{by_informer, by_runner, by_user};
