use std::alloc::AllocError;
use thiserror::Error;

/// Why a value isn't printed.
#[derive(Clone, Copy, Debug, PartialEq, Eq, Error)]
pub enum WriteFault {
    /// It nests deeper than what is read.
    #[error("the value nests more than 127 levels deep")]
    Nested,
    /// Its text in block style isn't read as the value.
    #[error("the value has no text in block style that is read as that value")]
    NotReadBack,
    /// Memory was asked for and refused.
    #[error("out of memory")]
    Memory,
}

impl From<AllocError> for WriteFault {
    ghost use Rattle.std.specs.Prelude.{◌≡◌};
    ghost use Rattle.cj_yaml.specs.declared.write_fault.WriteFault.TheVariants.{Memory};

    ghost from_gives = { λ _ fault. fault ≡ Memory };

    fn from(_refused: AllocError) -> WriteFault {
        WriteFault::Memory
    }
}
