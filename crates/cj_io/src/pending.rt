// Text that is written as it grows.
ghost use Rattle.std.specs.Prelude.{◌≡◌, ◌++◌, [], OnErr, OnOk};
ghost use Rattle.std.specs.Io.KnownBytes.{Appends};
ghost use Rattle.cj_io.specs.Writing.{AppendsSome, Prints};

use crate::failure::Failure;
use crate::writing::{write_and_flush, write_whole};
use std::alloc::Global;
use std::io::Write;
use std::marker::Model;

// How many bytes must wait before they are written.
const MUCH: usize = 65_536;

/// Text that is buffered until there is much of it. Contracts see the text.
#[derive(Drop)]
pub struct Pending {
    text: String,
}

impl Model for Pending {
    ghost use Rattle.std.specs.Prelude.{ℕ, List, string_bytes};

    ghost Value = { List ℕ };

    ghost view = { λ p. string_bytes p.text };
}

impl Pending {
    /// No text.
    pub fn new(alloc: Global) -> Pending
        ensures { result ≡ [] }
    {
        Pending {
            text: String::new(alloc),
        }
    }

    fn push(&mut self, text: &str) -> Result<(), Failure>
        ensures ok { OnOk result (self.new ≡ self.old ++ text.now) }
        ensures err { OnErr result (self.new ≡ self.old) }
    {
        self.text.push_str(text)?;
        Ok(())
    }

    // Writes all of it.
    fn write_out<W: Write>(&mut self, out: &mut W) -> Result<(), Failure>
        ensures empty { OnOk result (self.new ≡ []) }
        ensures whole { OnOk result (Appends (W.contents out.old) (W.contents out.new) self.old) }
        ensures begun { AppendsSome (W.contents out.old) (W.contents out.new) self.old }
    {
        write_whole(out, self.text.as_bytes())?;
        self.text.clear();
        Ok(())
    }

    /// Adds the text, and writes all that waits once that is much. Where writing fails, a beginning
    /// of it was written.
    #[tactic(auto, using(crate::proofs::Written::prints_waiting, crate::proofs::Written::prints_all, crate::proofs::Written::appends_nothing))]
    pub fn print<W: Write>(&mut self, out: &mut W, text: &str) -> Result<(), Failure>
        ensures ok { OnOk result (Prints (W.contents out.old) self.old text.now (W.contents out.new)
            self.new) }
        ensures err { OnErr result (AppendsSome (W.contents out.old) (W.contents out.new)
            (self.old ++ text.now)) }
    {
        self.push(text)?;
        if self.text.len() < MUCH {
            return Ok(());
        }
        self.write_out(out)
    }

    /// Writes all that waits, or where the writer fails a beginning of it.
    pub fn finish<W: Write>(self, out: &mut W) -> Result<(), Failure>
        ensures whole { OnOk result (Appends (W.contents out.old) (W.contents out.new) self) }
        ensures begun { AppendsSome (W.contents out.old) (W.contents out.new) self }
    {
        write_and_flush(out, self.text.as_bytes())
    }
}
