// Checking a transcript.
use crate::entries::{FORM, read_entry};
use crate::verdict::{Repeated, Verdict};
use cj_args::{ControlRequest, VERSION};
use cj_io::{ExitStatus, Failure, Kept, LineReader, Taken, write_and_flush};
use cj_machine::Secret;
use std::alloc::Global;
use std::io::{Read, Write};

const WANTED: &str =
    "want a file that --transcript wrote: its first line has cronsim and options, and each further one in, out, zone, wanting or end";

// How far a transcript was read.
#[derive(Clone, Copy, Debug, PartialEq, Eq)]
enum Ending {
    // To its end, or to where nothing can be compared any more.
    Over,
    // To a line that is cut off, or to an end that no line tells.
    CutOff,
    // To a line that differs, which was printed.
    Differs,
    // To a line that is no line of a transcript.
    Refused,
    // To the first line, which says that the form is newer.
    Newer(u64),
}

// Prints what differs.
fn print_difference<W: Write>(
    alloc: Global,
    number: u64,
    line: &[u8],
    done: Option<String>,
    out: &mut W,
) -> Result<(), Failure> {
    let had = str::from_utf8(line).unwrap_or("");
    let text = match done {
        Some(done) => format!(in alloc;
            "line {number} differs\n  transcript    {had}\n  this program  {done}\n"
        )?,
        None => format!(in alloc;
            "line {number} differs\n  transcript    {had}\n  this program  nothing\n"
        )?,
    };
    write_and_flush(out, text.as_bytes())
}

// Compares a line; an ending, if it has one.
fn compare<W: Write>(
    alloc: Global,
    repeated: &mut Repeated,
    number: u64,
    line: &[u8],
    out: &mut W,
) -> Result<Option<Ending>, Failure> {
    let Some(entry) = read_entry(alloc, line)? else {
        return Ok(Some(Ending::Refused));
    };
    match repeated.take(entry)? {
        Verdict::Agrees => Ok(None),
        Verdict::Over => Ok(Some(Ending::Over)),
        Verdict::Misplaced => Ok(Some(Ending::Refused)),
        Verdict::Newer(form) => Ok(Some(Ending::Newer(form))),
        Verdict::Differs(done) => {
            print_difference(alloc, number, line, done, out)?;
            Ok(Some(Ending::Differs))
        }
    }
}

// Compares line after line.
fn compare_all<R: Read, W: Write>(
    alloc: Global,
    repeated: &mut Repeated,
    input: &mut R,
    out: &mut W,
) -> Result<(u64, Ending), Failure> {
    let mut reader = LineReader::new(alloc)?;
    let mut number = 0u64;
    for _ in 0..u64::MAX {
        match reader.read_line(alloc, input)? {
            Taken::Rest | Taken::End if number == 0 => return Ok((1, Ending::Refused)),
            Taken::Rest | Taken::End => return Ok((number, Ending::CutOff)),
            Taken::Line => number = number.saturating_add(1),
        }
        match reader.kept() {
            Kept::Whole => {}
            Kept::TooLong => return Ok((number, Ending::Refused)),
            Kept::Cut => return Err(Failure::Memory),
        }
        if let Some(ending) = compare(alloc, repeated, number, reader.line(), out)? {
            return Ok((number, ending));
        }
    }
    Ok((number, Ending::CutOff))
}

// Prints that all agrees.
fn print_agreement<W: Write>(
    alloc: Global,
    repeated: &Repeated,
    out: &mut W,
) -> Result<(), Failure> {
    let (lines, requests) = (repeated.lines, repeated.requests);
    let text = format!(in alloc; "{lines} lines in, {requests} requests: as this program does\n")?;
    write_and_flush(out, text.as_bytes())
}

// Says which line is refused.
fn tell_refused<E: Write>(
    alloc: Global,
    control: &ControlRequest<'_>,
    number: u64,
    err: &mut E,
) -> Result<(), Failure> {
    let mut text = format!(in alloc; "cronsim: transcript: line {number}\n")?;
    if control.explain {
        text.push_str("line: ")?;
        text.push_str(WANTED)?;
        text.push_str("\n")?;
    }
    write_and_flush(err, text.as_bytes())
}

// Says that a transcript is of a newer form.
fn tell_newer<E: Write>(alloc: Global, form: u64, err: &mut E) -> Result<(), Failure> {
    let text = format!(in alloc;
        "cronsim: the transcript is of version {form}, and this cronsim reads up to version {FORM}\n"
    )?;
    write_and_flush(err, text.as_bytes())
}

// Says of a transcript that another version wrote it.
fn tell_version<E: Write>(alloc: Global, repeated: &Repeated, err: &mut E) -> Result<(), Failure> {
    let Some(version) = &repeated.version else {
        return Ok(());
    };
    let version = version.as_str();
    let text = format!(in alloc;
        "cronsim: version {version} wrote the transcript, and this is {VERSION}\n"
    )?;
    write_and_flush(err, text.as_bytes())
}

/// Gives a controller the lines that came in by a transcript, with its options and zones, and
/// compares the requests with those of the transcript.
///
/// `Success` where they are the same, to the end or to where the transcript is cut off; `Refused`
/// where a line differs, which is printed, or is no line of a transcript, or the transcript is of a
/// newer form, which is said.
pub fn check_transcript<R: Read, W: Write, E: Write>(
    alloc: Global,
    control: &ControlRequest<'_>,
    secret: Secret,
    input: &mut R,
    out: &mut W,
    err: &mut E,
) -> Result<ExitStatus, Failure> {
    let mut repeated = Repeated::new(alloc, secret)?;
    let (number, ending) = compare_all(alloc, &mut repeated, input, out)?;
    tell_version(alloc, &repeated, err)?;
    match ending {
        Ending::Refused => tell_refused(alloc, control, number, err)?,
        Ending::Newer(form) => tell_newer(alloc, form, err)?,
        Ending::Differs => {}
        Ending::Over => print_agreement(alloc, &repeated, out)?,
        Ending::CutOff => {
            print_agreement(alloc, &repeated, out)?;
            let text = format!(in alloc;
                "cronsim: the transcript is cut off after line {number}\n"
            )?;
            write_and_flush(err, text.as_bytes())?;
        }
    }
    match ending {
        Ending::Over | Ending::CutOff => Ok(ExitStatus::Success),
        Ending::Differs | Ending::Refused | Ending::Newer(_) => Ok(ExitStatus::Refused),
    }
}
