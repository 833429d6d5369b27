use crate::place::Place;
use thiserror::Error;

/// What YAML 1.1, and so the API server, reads otherwise than YAML 1.2.
#[derive(Clone, Copy, Debug, Error)]
pub enum WarningKind {
    /// `yes`, `no`, `on`, `off`, `y` and `n`: texts here, booleans there.
    #[error("a text here, but the API server reads a boolean; write true or false, or quote it")]
    Boolean,
    /// `0644`: read as octal, as the API server does. YAML 1.2 has it decimal.
    #[error("read as octal, as the API server does")]
    Octal,
    /// `1_000`, `0b11` and `-0x1f`: texts here, numbers there.
    #[error("a text here, but a number in YAML 1.1, which the API server reads; quote it")]
    Number,
}

/// A warning, and the place of the value or key.
#[derive(Clone, Copy, Debug, Error)]
#[error("{place}: {kind}")]
pub struct Warning {
    pub kind: WarningKind,
    pub place: Place,
}

// A warning at an offset in the text.
#[derive(Clone, Copy)]
pub(crate) struct Mark {
    pub kind: WarningKind,
    pub at: usize,
}
