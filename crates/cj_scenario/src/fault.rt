use cj_types::{FieldFault, Refusal};
use thiserror::Error;

/// Why bytes are no scenario.
#[derive(Clone, Copy, Debug, PartialEq, Eq, Error)]
pub enum SceneFault {
    /// They aren't JSON.
    #[error("Syntax")]
    Syntax,
    /// A member is missing or has the wrong form, a zone is refused, or two Jobs have one minute.
    #[error("scenario")]
    Form,
    /// The first fault of the manifest.
    #[error("{0}")]
    Manifest(FieldFault),
    /// Memory was asked for and refused.
    #[error("out of memory")]
    Memory,
}

// The calls that convert by this are refused for want of memory alone, as their clauses say.
impl From<Refusal> for SceneFault {
    ghost use Rattle.std.specs.Prelude.{◌≡◌};
    ghost use Rattle.cj_scenario.specs.declared.fault.SceneFault.TheVariants.{Memory};

    ghost from_gives = { λ _ e. e ≡ Memory };

    fn from(_refusal: Refusal) -> SceneFault {
        SceneFault::Memory
    }
}
