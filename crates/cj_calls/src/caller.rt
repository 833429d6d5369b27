use cj_types::Same;

/// The role of a caller, which determines the calls that it may make.
#[derive(Clone, Copy, Debug, PartialEq, Eq)]
pub enum Role {
    /// Writes CronJobs and Jobs, and reads them.
    User,
    /// Ends Jobs, and reads.
    Runner,
    /// Reads, and fills the queue.
    Informer,
    /// Takes keys of the queue, and makes the syncs.
    Worker,
}

/// Who makes a call.
#[derive(Clone, Copy, Debug, PartialEq, Eq)]
pub struct Caller {
    pub number: u64,
    pub role: Role,
}

impl Same for Caller {
    fn same(&self, other: &Caller) -> bool {
        self == other
    }
}
