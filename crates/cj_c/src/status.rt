// What a call answers, as the number that its caller gets.

/// Done.
pub(crate) const DONE: u32 = 0;
/// There is no such time, or no such text.
pub(crate) const NONE: u32 = 1;
/// A text is refused, as the fault says.
pub(crate) const REFUSED: u32 = 2;
/// Memory was asked for and refused.
pub(crate) const MEMORY: u32 = 3;
/// A time is after the year 9998.
pub(crate) const RANGE: u32 = 4;
/// Nothing is kept behind the handle.
pub(crate) const CLOSED: u32 = 5;
/// The buffer is too small for the text, whose length is given.
pub(crate) const ROOM: u32 = 6;
