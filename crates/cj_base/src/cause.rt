use crate::ScheduleFault;
use thiserror::Error;

/// Why a field of a manifest, or the name of a zone, is refused.
#[derive(Clone, Copy, Debug, PartialEq, Eq, Error)]
pub enum Cause {
    /// A required member is missing.
    #[error("Required")]
    Required,
    /// A value of another JSON type than the field's.
    #[error("Type")]
    WrongType,
    /// A text that isn't one of the field's choices.
    #[error("NotSupported")]
    NotSupported,
    /// A number that is neither an i64 nor a u64.
    #[error("Fraction")]
    Fraction,
    /// A name of too many characters.
    #[error("TooLong")]
    TooLong,
    /// A name that isn't well formed.
    #[error("Format")]
    Format,
    /// A number out of the field's range.
    #[error("Range")]
    Range,
    /// A zone that isn't known, or a rule, file or name that defines none.
    #[error("Zone")]
    Zone,
    /// A member that isn't allowed in a call of this kind.
    #[error("NotAllowed")]
    NotAllowed,
    /// A schedule that isn't in the grammar.
    #[error("Schedule {0}")]
    Schedule(ScheduleFault),
}
