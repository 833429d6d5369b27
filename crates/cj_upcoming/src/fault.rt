use cj_base::Refusal;
use std::alloc::AllocError;
use thiserror::Error;

/// Why the starts of a window aren't listed.
#[derive(Debug, Drop, Error)]
pub enum StartsFault {
    /// Memory was asked for and refused.
    #[error("out of memory")]
    Memory,
    /// The window has more starts than may be listed.
    #[error("too many starts")]
    TooMany,
}

impl From<AllocError> for StartsFault {
    ghost use Rattle.std.specs.Prelude.{◌≡◌};
    ghost use Rattle.cj_upcoming.specs.declared.fault.StartsFault.TheVariants.{Memory};

    ghost from_gives = { λ _ e. e ≡ Memory };

    fn from(_: AllocError) -> StartsFault {
        StartsFault::Memory
    }
}

impl From<Refusal> for StartsFault {
    ghost use Rattle.std.specs.Prelude.{◌≡◌};
    ghost use Rattle.cj_upcoming.specs.declared.fault.StartsFault.TheVariants.{Memory};

    ghost from_gives = { λ _ e. e ≡ Memory };

    fn from(_: Refusal) -> StartsFault {
        StartsFault::Memory
    }
}
