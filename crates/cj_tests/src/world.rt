// Tests of the world: each way in which it refuses a call, by `apply` and by `enter`.
mod boxed;
mod calls;
mod refusal_tests;
mod script;
