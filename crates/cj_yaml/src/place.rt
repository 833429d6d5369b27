use crate::chars::{byte, ends_line, mark_len};
use std::fmt;

/// A place in a text: its line, and the column in characters. Both count from 1.
#[derive(Clone, Copy, Debug)]
pub struct Place {
    pub line: usize,
    pub column: usize,
}

impl Place {
    ghost use Rattle.std.specs.Prelude.{◌≡◌, ◌-◌, min, length};
    ghost use Rattle.cj_yaml.specs.Places.{behind, ends_line, place_after, place_at, start};

    // The first place of a text.
    pub(crate) const START: Place = Place { line: 1, column: 1 };

    // The place of the byte at an offset, or of the end where the text is shorter. A byte order
    // mark in front counts as no character.
    pub(crate) fn of(text: &[u8], offset: usize) -> Place
        ensures { result ≡ place_at text.now (min offset (length text.now)) }
    {
        let start = Place { line: 1, column: 1 };
        start.after(text, mark_len(text), offset.min(text.len()))
    }

    // The place behind the bytes between two offsets, of which the first is at this place.
    pub(crate) fn after(self, text: &[u8], from: usize, to: usize) -> Place
        ensures { result ≡ place_after text.now from (to - from) self }
    {
        let mut place = self;
        for at in from..to {
            place = place.behind(text, at);
        }
        place
    }

    // The place behind the byte at an offset, which is at this place.
    fn behind(self, text: &[u8], at: usize) -> Place
        ensures { result ≡ behind text.now at self }
    {
        if ends_line(text, at) {
            Place {
                line: self.line.saturating_add(1),
                column: 1,
            }
        } else if byte(text, at) & 0xc0 == 0x80 {
            self
        } else {
            Place {
                line: self.line,
                column: self.column.saturating_add(1),
            }
        }
    }
}

impl fmt::Display for Place {
    fn fmt<W: fmt::Write>(&self, f: &mut fmt::Formatter<W>) -> fmt::Result {
        let line = self.line;
        let column = self.column;
        write!(f, "line {line}, column {column}")
    }
}
