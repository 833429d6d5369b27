use cj_base::Refusal;
use thiserror::Error;

/// Why there is no table of zones.
#[derive(Clone, Copy, Debug, PartialEq, Eq, Error)]
pub enum Refused {
    /// A rule is refused.
    #[error("zone")]
    Zone,
    /// Memory was asked for and refused.
    #[error("out of memory")]
    Memory,
}

// The calls that convert by this are refused for want of memory alone, as their clauses say.
impl From<Refusal> for Refused {
    ghost use Rattle.std.specs.Prelude.{◌≡◌};
    ghost use Rattle.cj_io.specs.declared.zone_files.refused.Refused.TheVariants.{Memory};

    ghost from_gives = { λ _ e. e ≡ Memory };

    fn from(_refusal: Refusal) -> Refused {
        Refused::Memory
    }
}
