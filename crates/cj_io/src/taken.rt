/// What a reader came to.
#[derive(Clone, Copy, Debug, PartialEq, Eq)]
pub enum Taken {
    /// The end of a line.
    Line,
    /// The end of the input, behind a line that has no end.
    Rest,
    /// The end of the input.
    End,
}

/// What a reader kept of a line.
#[derive(Clone, Copy, Debug, PartialEq, Eq)]
pub enum Kept {
    /// All of it, without its end.
    Whole,
    /// A beginning, since it is too long.
    TooLong,
    /// A beginning, since memory was wanting.
    Cut,
}
