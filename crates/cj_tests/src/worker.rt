// Tests of syncs and workers: a whole sync, syncs that are disturbed at each point, a clock that
// moves on, a Job's name that is taken, and two workers on threads, of which one may be stopped at
// each point.
mod add_tests;
mod clock_tests;
mod clocks;
mod deeds;
mod disturbed;
mod edit_tests;
mod fixtures;
mod gates;
mod idle_tests;
mod moving;
mod name_tests;
mod stop_tests;
mod stops;
mod syncs;
mod thread_tests;
mod tries;
mod two_keys;
mod whole_tests;
mod worker_ends;
