// Tests of the watch window: worked rows.
#[cfg(test)]
mod events;
#[cfg(test)]
mod watch_tests;
