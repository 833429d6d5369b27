use cj_calls::{Call, End};
use cj_types::{Key, Outcome, Seconds};

/// What a step does. Parts of it are known only when the step's turn comes.
#[derive(Drop)]
pub enum Operation {
    /// A call as it stands.
    Calls(Call),
    /// The end of the Job that has the key when the step's turn comes.
    Ends(Key, Outcome, Seconds),
    /// The claim of the plan at this moment, for what the worker has seen when the step's turn
    /// comes.
    Claims(Seconds),
    /// The end of a sync, with the reasons of its plan.
    Closes(End),
}
