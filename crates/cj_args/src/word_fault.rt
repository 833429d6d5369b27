ghost use Rattle.std.specs.Prelude.{◌≡◌};

use clap::Error;
use clap::error::ErrorKind;
use std::alloc::AllocError;

/// Why the words of a command line are no request.
#[derive(Debug, Drop, thiserror::Error)]
pub enum WordFault {
    /// The words are wrong, or ask for help or the version: what `clap` has to say.
    #[error("{0}")]
    Refused(Error),
    /// A value that the command requires isn't there.
    #[error("incomplete words")]
    Incomplete,
    /// Memory was asked for and refused.
    #[error("out of memory")]
    OutOfMemory,
}

impl From<AllocError> for WordFault {
    ghost use Rattle.cj_args.specs.declared.word_fault.WordFault.TheVariants as Fault;

    ghost from_gives = { λ _ e. e ≡ Fault.OutOfMemory };

    fn from(_error: AllocError) -> WordFault {
        WordFault::OutOfMemory
    }
}

impl From<Error> for WordFault {
    ghost use Rattle.std.specs.Prelude.{◌≢◌, ◌⊎◌};
    ghost use Rattle.clap.specs.Values.{kind_of};
    ghost use Rattle.clap.specs.declared.error.kind.ErrorKind.TheVariants as Kind;
    ghost use Rattle.cj_args.specs.declared.word_fault.WordFault.TheVariants as Fault;

    ghost from_gives = { λ error e. ((kind_of error ≡ Kind.OutOfMemory) × (e ≡ Fault.OutOfMemory))
        ⊎ ((kind_of error ≢ Kind.OutOfMemory) × (e ≡ Fault.Refused error)) };

    fn from(error: Error) -> WordFault {
        if error.kind() == ErrorKind::OutOfMemory {
            WordFault::OutOfMemory
        } else {
            WordFault::Refused(error)
        }
    }
}
