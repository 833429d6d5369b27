// Why a run has no report.
ghost use Rattle.std.specs.Prelude.{◌≡◌};
ghost use Rattle.cj_io.specs.Statuses.{failure_of};
ghost use Rattle.cj_run.specs.Errors.{error_of, failure_by};
ghost use Rattle.cj_run.specs.Runs.{IsRunFailure};

use cj_io::Failure;
use cj_types::Refusal;
use std::alloc::{AllocError, AllocFailed};

/// Why a run goes no further, or has no report.
#[derive(Clone, Copy, Debug, PartialEq, Eq)]
pub(crate) enum RunError {
    /// A worker gave up: the ends of the workers say why.
    GivenUp,
    /// A call found the history full.
    HistoryFull,
    /// Memory was asked for and refused, or a thread couldn't be started.
    Memory,
    /// A call was refused for no cause that it can have.
    UnexpectedRefusal,
    /// The history, or who called in it, is not that of a run.
    Inconsistent,
}

impl RunError {
    /// The error that a refused call is to a run.
    pub(crate) fn of(refusal: &Refusal) -> RunError
        ensures { result ≡ error_of (failure_of refusal.now) }
    {
        match Failure::of(refusal) {
            Failure::Memory => RunError::Memory,
            Failure::HistoryFull => RunError::HistoryFull,
            _ => RunError::UnexpectedRefusal,
        }
    }

    /// The failure that the error is to whoever wanted the report.
    pub(crate) fn failure(self) -> Failure
        ensures value { result ≡ failure_by self }
        ensures run { IsRunFailure result }
    {
        match self {
            RunError::HistoryFull => Failure::HistoryFull,
            RunError::Memory => Failure::Memory,
            RunError::UnexpectedRefusal => Failure::UnexpectedRefusal,
            RunError::GivenUp | RunError::Inconsistent => Failure::InconsistentRun,
        }
    }
}

impl From<Refusal> for RunError {
    ghost from_gives = { λ refusal error. error ≡ error_of (failure_of refusal) };

    fn from(refusal: Refusal) -> RunError {
        RunError::of(&refusal)
    }
}

impl From<AllocError> for RunError {
    ghost use Rattle.cj_run.specs.declared.error.RunError.TheVariants as Why;

    ghost from_gives = { λ _ error. error ≡ Why.Memory };

    fn from(_error: AllocError) -> RunError {
        RunError::Memory
    }
}

impl<T: Drop> From<AllocFailed<T>> for RunError {
    ghost use Rattle.cj_run.specs.declared.error.RunError.TheVariants as Why;

    ghost from_gives = { λ _ error. error ≡ Why.Memory };

    fn from(_error: AllocFailed<T>) -> RunError {
        RunError::Memory
    }
}
