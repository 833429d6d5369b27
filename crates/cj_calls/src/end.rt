use cj_types::{Millis, Same};

/// How a sync ends.
#[derive(Clone, Copy, Debug, PartialEq, Eq)]
pub enum End {
    /// All steps of the plan are made.
    Well,
    /// Something was refused: the key is to be tried again, with a delay from this moment on.
    Again(Millis),
}

impl Same for End {
    fn same(&self, other: &End) -> bool {
        self == other
    }
}
