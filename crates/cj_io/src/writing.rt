// What is written, and what is said where it can't be.
ghost use Rattle.std.specs.Prelude.{◌≡◌, ◌≤◌, IfOk, OnErr, OnOk, length, take};
ghost use Rattle.std.specs.Io.KnownBytes.{Appends, Keeps};
ghost use Rattle.cj_io.specs.Statuses.{failure_line};
ghost use Rattle.cj_io.specs.Writing.{AppendsSome};
ghost use Rattle.cj_io.specs.declared.exit_status.ExitStatus.TheVariants.{Failed};

use crate::exit_status::ExitStatus;
use crate::failure::Failure;
use std::io;
use std::io::{ErrorKind, Write};

// How many writes a text may take.
const MOST_WRITES: u64 = u64::MAX;

// Writes once, and answers how many of the bytes the writer took: none where it was interrupted.
fn write_once<W: Write>(writer: &mut W, bytes: &[u8]) -> io::Result<usize>
    ensures within { IfOk result (λ count. count ≤ length bytes.now) }
    ensures taken { IfOk result (λ count. Appends (W.contents writer.old) (W.contents writer.new)
        (take count bytes.now)) }
    ensures kept { OnErr result (Keeps (W.contents writer.old) (W.contents writer.new)) }
{
    match writer.write(bytes) {
        Ok(0) => Err(io::Error::from(ErrorKind::WriteZero)),
        Ok(count) => Ok(count),
        Err(error) if error.kind() == ErrorKind::Interrupted => Ok(0),
        Err(error) => Err(error),
    }
}

/// Writes all the bytes, or where the writer fails a beginning of them.
pub fn write_whole<W: Write>(writer: &mut W, bytes: &[u8]) -> io::Result<()>
    ensures whole { OnOk result (Appends (W.contents writer.old) (W.contents writer.new)
        bytes.now) }
    ensures begun { AppendsSome (W.contents writer.old) (W.contents writer.new) bytes.now }
{
    let mut written = 0;
    for _ in 0..MOST_WRITES {
        if written == bytes.len() {
            return Ok(());
        }
        let count = write_once(writer, &bytes[written..])?;
        written += count;
    }
    Err(io::Error::from(ErrorKind::Interrupted))
}

/// Writes the line that names a failure to standard error, as far as that takes it, and answers the
/// status.
pub fn tell_failure<E: Write>(failure: Failure, err: &mut E) -> ExitStatus
    ensures status { result ≡ Failed }
    ensures told { AppendsSome (E.contents err.old) (E.contents err.new) (failure_line failure) }
{
    let _ = write_whole(err, failure.line());
    ExitStatus::Failed
}

/// Writes all the bytes, or a beginning of them, and flushes the writer, so that it keeps nothing
/// back.
pub fn write_and_flush<W: Write>(writer: &mut W, bytes: &[u8]) -> Result<(), Failure>
    ensures whole { OnOk result (Appends (W.contents writer.old) (W.contents writer.new)
        bytes.now) }
    ensures begun { AppendsSome (W.contents writer.old) (W.contents writer.new) bytes.now }
{
    write_whole(writer, bytes)?;
    writer.flush()?;
    Ok(())
}
