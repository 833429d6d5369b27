ghost use Rattle.std.specs.Prelude.{◌≡◌};

use crate::{FieldFaults, TryCopy, Version};
use std::alloc::{AllocError, Global};
use thiserror::Error;

/// Why a call is refused. A refused call leaves all as it was.
#[derive(Debug, Drop, Error)]
pub enum Refusal {
    /// The bytes aren't JSON (HTTP status 400).
    #[error("Syntax")]
    Syntax,
    /// The fields at fault, each with its cause (422).
    #[error("Invalid")]
    Invalid(FieldFaults),
    /// The caller's role may not make the call (403).
    #[error("NotPermitted")]
    NotPermitted,
    /// There is no such object (404).
    #[error("NotFound")]
    NotFound,
    /// The name is taken (409).
    #[error("AlreadyExists")]
    AlreadyExists,
    /// The version or uid isn't the current one; carries the current version (409).
    #[error("Conflict")]
    Conflict(Version),
    /// The events after that version aren't kept any more; carries the oldest version served (410).
    #[error("Expired")]
    Expired(Version),
    /// A worker's call that its sync can't make at this point.
    #[error("OutOfPhase")]
    OutOfPhase,
    /// A plan that wasn't made from the answers that the worker got.
    #[error("Stale")]
    Stale,
    /// The queue is empty.
    #[error("Empty")]
    Empty,
    /// The queue is empty and shut down.
    #[error("ShutDown")]
    ShutDown,
    /// The history has reached its limit of entries.
    #[error("HistoryFull")]
    HistoryFull,
    /// A caller that this history doesn't know.
    #[error("Estranged")]
    Estranged,
    /// Memory was asked for and refused.
    #[error("OutOfMemory")]
    OutOfMemory,
    /// The end of a Job that has ended.
    #[error("AlreadyFinished")]
    AlreadyFinished,
}

impl From<AllocError> for Refusal {
    ghost use Rattle.cj_base.specs.declared.refusal.Refusal.TheVariants.{OutOfMemory};

    ghost from_gives = { λ _ e. e ≡ OutOfMemory };

    fn from(_error: AllocError) -> Refusal {
        Refusal::OutOfMemory
    }
}

impl TryCopy for Refusal {
    fn try_copy(&self, alloc: Global) -> Result<Refusal, Refusal> {
        Ok(match self {
            Refusal::Syntax => Refusal::Syntax,
            Refusal::Invalid(faults) => Refusal::Invalid(faults.try_copy(alloc)?),
            Refusal::NotPermitted => Refusal::NotPermitted,
            Refusal::NotFound => Refusal::NotFound,
            Refusal::AlreadyExists => Refusal::AlreadyExists,
            Refusal::Conflict(current) => Refusal::Conflict(*current),
            Refusal::Expired(oldest) => Refusal::Expired(*oldest),
            Refusal::OutOfPhase => Refusal::OutOfPhase,
            Refusal::Stale => Refusal::Stale,
            Refusal::Empty => Refusal::Empty,
            Refusal::ShutDown => Refusal::ShutDown,
            Refusal::HistoryFull => Refusal::HistoryFull,
            Refusal::Estranged => Refusal::Estranged,
            Refusal::OutOfMemory => Refusal::OutOfMemory,
            Refusal::AlreadyFinished => Refusal::AlreadyFinished,
        })
    }
}
