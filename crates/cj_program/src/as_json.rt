// A run and a replay as JSON.
mod bars;
mod gaps;
mod marks;
mod replay;
mod whole;

pub(crate) use replay::replay_json;
pub(crate) use whole::run_json;
