use cj_types::Refusal;
use thiserror::Error;

/// Why bytes are no list of a cluster's objects.
#[derive(Clone, Copy, Debug, PartialEq, Eq, Error)]
pub enum ListFault {
    /// They aren't JSON.
    #[error("Syntax")]
    Syntax,
    /// The value is neither a list of objects nor a CronJob or a Job.
    #[error("list")]
    Form,
    /// Memory was asked for and refused.
    #[error("out of memory")]
    Memory,
}

// The calls that go by this refuse nothing but memory.
impl From<Refusal> for ListFault {
    ghost use Rattle.std.specs.Prelude.{◌≡◌};
    ghost use Rattle.cj_cluster.specs.declared.kubectl.fault.ListFault.TheVariants.{Memory};

    ghost from_gives = { λ _ e. e ≡ Memory };

    fn from(_refusal: Refusal) -> ListFault {
        ListFault::Memory
    }
}
