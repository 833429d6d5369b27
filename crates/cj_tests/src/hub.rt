// Tests of the hub: users on threads, strange passes, full histories, waiting Takes, its window,
// desks, and how far the work is.
pub mod answers;
mod closings;
mod desk_tests;
mod end_tests;
mod full_tests;
mod state_tests;
mod strange_tests;
mod user_tests;
mod users;
mod wait_tests;
mod wake_tests;
mod window_tests;
mod woken_tests;
