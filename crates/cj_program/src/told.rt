// What is said where words are no request.
ghost use Rattle.std.specs.Prelude.{◌≡◌, ◌≢◌, IfOk};
ghost use Rattle.std.specs.Io.KnownBytes.{Appends};
ghost use Rattle.cj_io.specs.declared.exit_status.ExitStatus.TheVariants as Status;
ghost use Rattle.cj_program.specs.Told.{Telling, Tells, TellsOf, telling_of};

use crate::writing::give;
use cj_args::WordFault;
use cj_io::{ExitStatus, Failure, tell_failure};
use clap::Error;
use std::alloc::{AllocError, Global};
use std::io::Write;

/// The status, and the texts for standard output and standard error.
#[derive(Debug, Drop)]
pub(crate) struct Told {
    status: ExitStatus,
    printed: String,
    said: String,
}

// What `clap` has to say, on the stream that it is for.
fn told_by_clap(alloc: Global, error: &Error) -> Result<Told, AllocError>
    ensures told { IfOk result (λ t. TellsOf error.now (telling_of t)) }
    ensures status { IfOk result (λ t. t.status ≢ Status.Failed) }
{
    let text = format!(in alloc; "{error}")?;
    if error.use_stderr() {
        Ok(Told {
            status: ExitStatus::Usage,
            printed: String::new(alloc),
            said: text,
        })
    } else {
        Ok(Told {
            status: ExitStatus::Success,
            printed: text,
            said: String::new(alloc),
        })
    }
}

fn told_of(alloc: Global, fault: &WordFault) -> Result<Told, Failure>
    ensures told { IfOk result (λ t. Tells fault.now (telling_of t)) }
    ensures status { IfOk result (λ t. t.status ≢ Status.Failed) }
{
    match fault {
        WordFault::Refused(error) => Ok(told_by_clap(alloc, error)?),
        WordFault::Incomplete => Ok(Told {
            status: ExitStatus::Usage,
            printed: String::new(alloc),
            said: String::from_str(alloc, "cronsim: incomplete words\n")?,
        }),
        WordFault::OutOfMemory => Err(Failure::Memory),
    }
}

/// Says why words are no request, and answers the exit status: `Success` where help or the version
/// was asked for, which is printed; `Usage` for wrong words, with what `clap` has to say on
/// standard error; `Failed` after a failure.
pub fn tell_fault<W: Write, E: Write>(
    alloc: Global,
    fault: &WordFault,
    out: &mut W,
    err: &mut E,
) -> ExitStatus
    ensures told { result ≢ Status.Failed → (t : Telling) × Tells fault.now t × (result ≡ t.status)
        × Appends (W.contents out.old) (W.contents out.new) t.printed
        × Appends (E.contents err.old) (E.contents err.new) t.said }
{
    match told_of(alloc, fault) {
        Ok(told) => give(
            told.status,
            told.printed.as_str(),
            told.said.as_str(),
            out,
            err,
        ),
        Err(failure) => tell_failure(failure, err),
    }
}
