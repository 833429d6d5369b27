/// How a Job ends.
#[derive(Clone, Copy, Debug, PartialEq, Eq)]
pub enum RunEnd {
    Complete,
    Failed,
}

/// How a Job runs: for how many seconds, and how it ends then.
#[derive(Clone, Copy, Debug, PartialEq, Eq)]
pub struct Run {
    pub seconds: u64,
    pub end: RunEnd,
}
