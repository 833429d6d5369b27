ghost use Rattle.std.specs.Prelude.{◌≡◌};
ghost use Rattle.cj_io.specs.Statuses.{failure_line, failure_of};

use cj_base::Refusal;
use std::alloc::{AllocError, AllocFailed};
use std::io;
use std::io::ErrorKind;
use thiserror::Error;

/// Why a request could not be served, though nothing is wrong with it.
#[derive(Clone, Copy, Debug, PartialEq, Eq, Error)]
pub enum Failure {
    /// Reading, writing or opening failed.
    #[error("input or output failed")]
    Device,
    /// Memory was asked for and refused; a thread that can't be started counts as such.
    #[error("out of memory")]
    Memory,
    /// A call found the history full.
    #[error("history full")]
    HistoryFull,
    /// A call was refused for a cause that is never its cause: the program is at fault.
    #[error("internal error: a call was refused for no cause that it can have")]
    UnexpectedRefusal,
    /// The history of a run breaks a rule of every run: the program is at fault.
    #[error("internal error: the history of the run is not what its participants did")]
    InconsistentRun,
}

impl Failure {
    /// The failure that a refused call is to whoever asked for an answer. Only a refused growth is
    /// want of memory.
    pub fn of(refusal: &Refusal) -> Failure
        ensures { result ≡ failure_of refusal.now }
    {
        match refusal {
            Refusal::OutOfMemory => Failure::Memory,
            Refusal::HistoryFull => Failure::HistoryFull,
            _ => Failure::UnexpectedRefusal,
        }
    }

    /// The line on standard error that names the failure.
    pub(crate) fn line(self) -> &'static [u8]
        ensures { result.now ≡ failure_line self }
    {
        match self {
            Failure::Device => b"cronsim: input or output failed\n",
            Failure::Memory => b"cronsim: out of memory\n",
            Failure::HistoryFull => b"cronsim: history full\n",
            Failure::UnexpectedRefusal => {
                b"cronsim: internal error: a call was refused for no cause that it can have\n"
            }
            Failure::InconsistentRun => {
                b"cronsim: internal error: the history of the run is not what its participants did\n"
            }
        }
    }
}

impl From<AllocError> for Failure {
    ghost use Rattle.cj_io.specs.declared.failure.Failure.TheVariants as Why;

    ghost from_gives = { λ _ failure. failure ≡ Why.Memory };

    fn from(_error: AllocError) -> Failure {
        Failure::Memory
    }
}

impl<T: Drop> From<AllocFailed<T>> for Failure {
    ghost use Rattle.cj_io.specs.declared.failure.Failure.TheVariants as Why;

    ghost from_gives = { λ _ failure. failure ≡ Why.Memory };

    fn from(_error: AllocFailed<T>) -> Failure {
        Failure::Memory
    }
}

// A failed call may say that memory was wanting.
impl From<io::Error> for Failure {
    ghost use Rattle.std.specs.Prelude.{◌≢◌, ◌⊎◌};
    ghost use Rattle.std.specs.IoError.{error_kind};
    ghost use Rattle.std.specs.declared.io.ErrorKind.TheVariants as Kind;
    ghost use Rattle.cj_io.specs.declared.failure.Failure.TheVariants as Why;

    ghost from_gives = { λ error e. ((error_kind error ≡ Kind.OutOfMemory) × (e ≡ Why.Memory))
        ⊎ ((error_kind error ≢ Kind.OutOfMemory) × (e ≡ Why.Device)) };

    fn from(error: io::Error) -> Failure {
        if error.kind() == ErrorKind::OutOfMemory {
            Failure::Memory
        } else {
            Failure::Device
        }
    }
}

impl From<Refusal> for Failure {
    ghost from_gives = { λ refusal failure. failure ≡ failure_of refusal };

    fn from(refusal: Refusal) -> Failure {
        Failure::of(&refusal)
    }
}
