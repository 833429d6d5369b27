// Tests of the work queue: worked rows, and thousands of keys that wait.
#[cfg(test)]
mod boxed;
#[cfg(test)]
mod calls;
#[cfg(test)]
mod queue_tests;
