// What is written, and what is said where it can't be.
ghost use Rattle.std.specs.Prelude.{◌≡◌, ◌≢◌};
ghost use Rattle.std.specs.Io.KnownBytes.{Appends};
ghost use Rattle.cj_io.specs.declared.exit_status.ExitStatus.TheVariants as Status;
ghost use Rattle.cj_program.specs.Writing.{IsCut};

use cj_io::{ExitStatus, tell_failure, write_and_flush, write_whole};
use std::io::Write;

/// Writes both texts and answers the status, or `Failed` where a writer fails.
pub fn give<W: Write, E: Write>(
    status: ExitStatus,
    printed: &str,
    said: &str,
    out: &mut W,
    err: &mut E,
) -> ExitStatus
    requires { status ≢ Status.Failed }
    ensures status { result ≢ Status.Failed → result ≡ status }
    ensures printed { result ≢ Status.Failed → Appends (W.contents out.old) (W.contents out.new)
        printed.now }
    ensures said { result ≢ Status.Failed → Appends (E.contents err.old) (E.contents err.new)
        said.now }
    ensures cut { result ≡ Status.Failed → IsCut printed.now said.now (W.contents out.old)
        (W.contents out.new) (E.contents err.old) (E.contents err.new) }
{
    if let Err(failure) = write_and_flush(out, printed.as_bytes()) {
        return tell_failure(failure, err);
    }
    match write_whole(err, said.as_bytes()) {
        Ok(()) => status,
        Err(_) => ExitStatus::Failed,
    }
}
