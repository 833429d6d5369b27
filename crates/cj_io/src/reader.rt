ghost use Rattle.std.specs.Prelude.{◌≡◌, ◌++◌, ◌∷◌, ◌<◌, ◌≤◌, List, ℕ, [], Ok, false, drop, length, slice_index, take, IfOk, OnOk, if◌then◌else◌};
ghost use Rattle.std.specs.Prelude.{Option};
ghost use Rattle.std.specs.Io.KnownBytes.{Consumes, IsAtEnd};
ghost use Rattle.cj_io.specs.declared.taken.Kept.TheVariants.{Whole};
ghost use Rattle.cj_io.specs.Lines.{IsKept, IsPlain, Reads, coming, line_feed, waiting};

use crate::taken::{Kept, Taken};
use memchr::memchr;
use std::alloc::{AllocError, Global};
use std::io;
use std::io::{ErrorKind, Read};

/// The most bytes of a line that is kept whole, without its end.
pub const MOST_LINE_BYTES: usize = 67_108_864;
// How many bytes are asked for at once.
const CHUNK: usize = 16_384;
// The room that a line has at first.
const ROOM: usize = 4_096;
// The most room that is kept from line to line.
const MOST_ROOM: usize = 1_048_576;

/// What is read of an input, line by line.
#[derive(Debug, Drop)]
pub struct LineReader {
    chunk: Vec<u8>,
    begin: usize,
    line: Vec<u8>,
    kept: Kept,
}

// Adds a part of a line to what is kept of it.
fn push(line: &mut Vec<u8>, kept: Kept, part: &[u8]) -> Kept
    ensures { (seen : List ℕ) → IsKept kept line.old.items seen
        → IsKept result line.new.items (seen ++ part.now) }
{
    if kept != Kept::Whole {
        return kept;
    }
    if part.len() > MOST_LINE_BYTES.saturating_sub(line.len()) {
        return Kept::TooLong;
    }
    match line.extend_from_slice(part) {
        Ok(()) => Kept::Whole,
        Err(_) => Kept::Cut,
    }
}

/// How many bytes stand before the first line end: all of them, if there is none.
pub fn plain_length(bytes: &[u8]) -> usize
    ensures within { result ≤ length bytes.now }
    ensures before { IsPlain (take result bytes.now) }
    ensures at { result < length bytes.now → slice_index bytes.now result ≡ line_feed }
{
    memchr(b'\n', bytes).unwrap_or(bytes.len())
}

// What stands behind so many bytes.
fn behind(bytes: &[u8], count: usize) -> &[u8]
    ensures { result.now ≡ drop count bytes.now }
{
    bytes.get(count..).unwrap_or(&[])
}

impl LineReader {
    /// A reader that has read nothing.
    pub fn new(alloc: Global) -> Result<LineReader, AllocError>
        ensures { IfOk result (λ r. waiting r ≡ []) }
    {
        Ok(LineReader {
            chunk: Vec::with_capacity(alloc, CHUNK)?,
            begin: 0,
            line: Vec::with_capacity(alloc, ROOM)?,
            kept: Kept::Whole,
        })
    }

    /// What was kept of the line.
    pub fn line(&self) -> &[u8]
        ensures { result.now ≡ self.now.line.items }
    {
        self.line.as_slice()
    }

    /// Whether that is all of it.
    pub fn kept(&self) -> Kept
        ensures { result ≡ self.now.kept }
    {
        self.kept
    }

    fn waiting(&self) -> &[u8]
        ensures { result.now ≡ waiting self.now }
    {
        behind(self.chunk.as_slice(), self.begin)
    }

    // Forgets the line; the room of a long one is given back.
    fn clear(&mut self, alloc: Global)
        ensures line { self.new.line.items ≡ [] }
        ensures kept { self.new.kept ≡ Whole }
        ensures same { waiting self.new ≡ waiting self.old }
    {
        self.kept = Kept::Whole;
        self.line.clear();
        if self.line.capacity() > MOST_ROOM {
            self.line = Vec::new(alloc);
        }
    }

    // Reads what there is; false at the end of the input.
    fn fill<R: Read>(&mut self, input: &mut R) -> io::Result<bool>
        requires { waiting self.now ≡ [] }
        ensures line { self.new.line ≡ self.old.line }
        ensures kept { self.new.kept ≡ self.old.kept }
        ensures some { OnOk result (Consumes (R.remaining input.old) (R.remaining input.new)
            (waiting self.new)) }
        ensures end { result ≡ Ok false → IsAtEnd (R.remaining input.new) }
        ensures none { result ≡ Ok false → waiting self.new ≡ [] }
    {
        let mut bytes = [0u8; CHUNK];
        match input.read(&mut bytes) {
            Ok(count) => {
                self.chunk.clear();
                self.begin = 0;
                self.chunk.extend_from_slice(&bytes[..count])?;
                Ok(count > 0)
            }
            Err(error) if error.kind() == ErrorKind::Interrupted => Ok(true),
            Err(error) => Err(error),
        }
    }

    // Takes what there is of a line; whether its end was there.
    fn take(&mut self) -> bool
        ensures { (part : List ℕ) × IsPlain part
            × ((left : Option (List ℕ)) → Consumes (coming self.old left) (coming self.new left)
            (part ++ (if result then line_feed ∷ [] else [])))
            × ((seen : List ℕ) → IsKept self.old.kept self.old.line.items seen
            → IsKept self.new.kept self.new.line.items (seen ++ part)) }
    {
        let rest = behind(self.chunk.as_slice(), self.begin);
        let count = plain_length(rest);
        self.kept = push(&mut self.line, self.kept, &rest[..count]);
        if count < rest.len() {
            self.begin += count + 1;
            true
        } else {
            self.begin = self.chunk.len();
            false
        }
    }

    // What it came to at the end of the input.
    fn last(&self) -> Taken
        ensures { (seen : List ℕ) (old new : Option (List ℕ)) → IsPlain seen →
            IsKept self.now.kept self.now.line.items seen → Consumes old new seen → IsAtEnd new →
            Reads result self.now.kept self.now.line.items old new }
    {
        match self.kept {
            Kept::Whole if self.line.is_empty() => Taken::End,
            _ => Taken::Rest,
        }
    }

    // Sees to it that something waits; false at the end of the input.
    fn refill<R: Read>(&mut self, input: &mut R) -> io::Result<bool>
        ensures line { self.new.line ≡ self.old.line }
        ensures kept { self.new.kept ≡ self.old.kept }
        ensures same { OnOk result (Consumes (coming self.old (R.remaining input.old))
            (coming self.new (R.remaining input.new)) []) }
        ensures end { result ≡ Ok false → IsAtEnd (coming self.new (R.remaining input.new)) }
    {
        if self.waiting().is_empty() {
            self.fill(input)
        } else {
            Ok(true)
        }
    }

    /// Reads the next line, and keeps it. Of one that is longer than `MOST_LINE_BYTES`, or where
    /// memory is wanting, it keeps a beginning. It waits for bytes only where it has no whole line.
    ///
    /// The error is the input's.
    pub fn read_line<R: Read>(&mut self, alloc: Global, input: &mut R) -> io::Result<Taken>
        ensures { IfOk result (λ taken. Reads taken self.new.kept self.new.line.items
            (coming self.old (R.remaining input.old)) (coming self.new (R.remaining input.new))) }
    {
        self.clear(alloc);
        for _ in 0..u64::MAX {
            if !self.refill(input)? {
                return Ok(self.last());
            }
            if self.take() {
                return Ok(Taken::Line);
            }
        }
        Err(io::Error::from(ErrorKind::Interrupted))
    }
}
