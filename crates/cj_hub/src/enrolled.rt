use cj_calls::Role;

/// What a book keeps of a pass that it enrolled: its role, and how many entries of the history are
/// the pass's.
#[derive(Clone, Copy)]
pub struct Enrolled {
    pub role: Role,
    pub count: u64,
}
