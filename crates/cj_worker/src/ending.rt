use crate::gate::Point;
use cj_types::Refusal;

/// How a sync ended.
#[derive(Debug, Drop)]
pub enum SyncEnd {
    /// Every step of the plan was accepted.
    Done,
    /// This was refused, or memory was lacking: the key is to be tried again, with a delay.
    Retried(Refusal),
    /// There was nothing to take.
    Idle,
    /// There was nothing to take, and the queue is shut.
    ShutDown,
    /// This kept the sync from beginning or from ending. A key that it took stays held.
    Broken(Refusal),
    /// The gate stopped it at this point. The key stays held.
    Stopped(Point),
}
