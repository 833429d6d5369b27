use crate::folder::{input_files, push_clock_file, push_input_files};
use crate::source::{Files, Input};
use crate::streams::Output;
use crate::taken::{Passed, Taken, named_json, tell_passed};
use crate::telling::{Served, at_terminal, tell, tell_more};
use cj_program::{
    CheckRequest, CronFile, ExitStatus, Failure, FileAnswer, MOST_BYTES, MOST_LIST_BYTES,
    MOST_LIST_READS, MOST_READS, ReportRequest, UpcomingRequest, ZoneFile, check_file_answer,
    fault_places, read_input, serve_report, serve_several, serve_upcoming, shape_words,
    tell_failure,
};
use std::io;
use std::io::Write;

// What is said of a file that can't be read, where nobody knows the cause.
const UNREAD: &str = "it can't be read, or is too long";

// What is said of a folder that stands among the files, since its own can't all be named.
const UNLISTED: &str = "it can't be listed, or has names that aren't UTF-8";

// Why one of several files can't be read.
fn cause_of(input: &Input) -> &'static str {
    if input.is_folder() {
        UNLISTED
    } else {
        input.cause().unwrap_or(UNREAD)
    }
}

// What people are told of files behind what is answered of them.
#[derive(Drop)]
struct Told {
    lines: Vec<u8>,
    // (whether nothing was told of the files yet)
    is_first: bool,
    // (what is passed over)
    passed: Passed,
}

// Adds what people are told of a file that was read: what it is, and where its faults stand.
fn push_hints(
    rt: &HostRuntime,
    check: &CheckRequest<'_>,
    name: &str,
    files: &[ZoneFile],
    source: &[u8],
    lines: &mut Vec<u8>,
) -> Result<(), Failure> {
    let shape = shape_words(source);
    if !shape.is_empty() {
        let _ = write!(lines, "{name}: {shape}");
    }
    let places = fault_places(rt.alloc(), check, files, name, source)?;
    let _ = lines.write_all(places.as_bytes());
    Ok(())
}

// What is answered of the bytes of one of several files; none where it is passed over.
fn bytes_answer<'a>(
    rt: &HostRuntime,
    check: &CheckRequest<'a>,
    folder: &str,
    name: &'a str,
    files: Files,
    bytes: Vec<u8>,
    told: &mut Told,
) -> Result<Option<FileAnswer<'a>>, Failure> {
    let alloc = rt.alloc();
    let source = if check.explain {
        Vec::from_slice(alloc, bytes.as_slice())?
    } else {
        Vec::new(alloc)
    };
    let taken = named_json(rt, name, bytes, files, told.is_first)?;
    told.passed = told.passed.with(&taken);
    let Taken { bytes, is_bare, .. } = taken;
    if is_bare {
        return Ok(None);
    }
    let zones = input_files(rt, folder, bytes.as_slice())?;
    let answer = check_file_answer(alloc, check, name, zones.as_slice(), &mut bytes.as_slice())?;
    if check.explain {
        let lines = &mut told.lines;
        push_hints(rt, check, name, zones.as_slice(), source.as_slice(), lines)?;
    }
    Ok(Some(FileAnswer {
        name,
        answer: Some(answer),
    }))
}

// What is answered of one of several files; none where it is passed over.
fn answer_of<'a>(
    rt: &HostRuntime,
    check: &CheckRequest<'a>,
    folder: &str,
    name: &'a str,
    files: Files,
    told: &mut Told,
) -> Result<Option<FileAnswer<'a>>, Failure> {
    let mut input = Input::open(rt, Some(name));
    match read_input(rt.alloc(), &mut input, MOST_BYTES, MOST_READS) {
        Ok(bytes) => bytes_answer(rt, check, folder, name, files, bytes, told),
        Err(Failure::Memory) => Err(Failure::Memory),
        Err(_) => {
            let cause = cause_of(&input);
            let _ = writeln!(&mut told.lines, "{name}: {cause}");
            Ok(Some(FileAnswer { name, answer: None }))
        }
    }
}

// Checks several files, one after another.
fn check_all<W: Write>(
    rt: &HostRuntime,
    check: &CheckRequest<'_>,
    folder: &str,
    files: Files,
    is_first: bool,
    out: &mut W,
) -> Result<Served, Failure> {
    let alloc = rt.alloc();
    let mut answers = Vec::new(alloc);
    let mut told = Told {
        lines: Vec::new(alloc),
        is_first,
        passed: Passed::NOTHING,
    };
    for name in check.files.as_slice() {
        if let Some(answer) = answer_of(rt, check, folder, name, files, &mut told)? {
            answers.push(answer)?;
        }
    }
    let mut said = Vec::new(alloc);
    let status = serve_several(alloc, check, answers.as_slice(), out, &mut said);
    if is_first {
        tell_passed(told.passed, &mut said);
    }
    if check.explain || at_terminal(rt) {
        let _ = said.write_all(told.lines.as_slice());
    }
    Ok(Served { status, said })
}

// Whether people are to be told why a file is refused. Standard input can't be read once more.
fn wants_why(rt: &HostRuntime, check: &CheckRequest<'_>, served: &Served) -> bool {
    let is_refused = served.status == ExitStatus::Refused && !check.explain;
    let is_kept = check.files.as_slice().iter().all(|name| *name != "-");
    is_refused && is_kept && at_terminal(rt)
}

/// Serves a request to check several files.
pub fn serve_files(
    rt: &HostRuntime,
    check: &mut CheckRequest<'_>,
    folder: &str,
    files: Files,
) -> Result<ExitStatus, Failure> {
    let mut out = Output::new(rt);
    let first = check_all(rt, check, folder, files, true, &mut out)?;
    let status = tell(rt, &first, out.is_closed());
    if wants_why(rt, check, &first) {
        check.explain = true;
        let second = check_all(rt, check, folder, files, false, &mut io::sink())?;
        tell_more(rt, &first, &second);
    }
    Ok(status)
}

// What is taken of one of several files; none where it can't be read, which standard error says.
fn bytes_of(rt: &HostRuntime, name: &str, files: Files) -> Result<Option<Taken>, Failure> {
    let mut input = Input::open(rt, Some(name));
    match read_input(rt.alloc(), &mut input, MOST_LIST_BYTES, MOST_LIST_READS) {
        Ok(bytes) => Ok(Some(named_json(rt, name, bytes, files, true)?)),
        Err(Failure::Memory) => Err(Failure::Memory),
        Err(failure) => {
            let err = &mut rt.stderr();
            let _ = tell_failure(failure, err);
            let cause = cause_of(&input);
            let _ = writeln!(err, "{name}: {cause}");
            Ok(None)
        }
    }
}

// The bytes of all files, without those of a file that is passed over; none where one can't be
// read.
fn all_bytes(
    rt: &HostRuntime,
    names: &[&str],
    files: Files,
) -> Result<Option<Vec<Option<Vec<u8>>>>, Failure> {
    let mut all = Vec::new(rt.alloc());
    let mut passed = Passed::NOTHING;
    for name in names {
        let Some(taken) = bytes_of(rt, name, files)? else {
            return Ok(None);
        };
        passed = passed.with(&taken);
        let Taken { bytes, is_bare, .. } = taken;
        all.push(if is_bare { None } else { Some(bytes) })?;
    }
    tell_passed(passed, &mut rt.stderr());
    Ok(Some(all))
}

// Says what several files have start.
fn answer_upcoming<W: Write>(
    rt: &HostRuntime,
    upcoming: &UpcomingRequest<'_>,
    zone_files: &[ZoneFile],
    sources: &[CronFile<'_>],
    out: &mut W,
) -> Served {
    let alloc = rt.alloc();
    let mut said = Vec::new(alloc);
    let status = serve_upcoming(alloc, upcoming, zone_files, sources, out, &mut said);
    Served { status, said }
}

// Serves such a request on files that were read.
fn serve_read(
    rt: &HostRuntime,
    upcoming: &mut UpcomingRequest<'_>,
    zone_files: &[ZoneFile],
    sources: &[CronFile<'_>],
) -> ExitStatus {
    let mut out = Output::new(rt);
    let first = answer_upcoming(rt, upcoming, zone_files, sources, &mut out);
    let status = tell(rt, &first, out.is_closed());
    let is_refused = first.status == ExitStatus::Refused && out.is_empty();
    if is_refused && !upcoming.explain && at_terminal(rt) {
        upcoming.explain = true;
        let second = answer_upcoming(rt, upcoming, zone_files, sources, &mut io::sink());
        tell_more(rt, &first, &second);
    }
    status
}

/// Serves a request for what several files have start: all of them are read first, then the files
/// of their zones.
pub fn serve_upcoming_files(
    rt: &HostRuntime,
    upcoming: &mut UpcomingRequest<'_>,
    folder: &str,
    files: Files,
) -> Result<ExitStatus, Failure> {
    let alloc = rt.alloc();
    let Some(all) = all_bytes(rt, upcoming.files.as_slice(), files)? else {
        return Ok(ExitStatus::Failed);
    };
    let mut zone_files = Vec::new(alloc);
    let mut sources = Vec::new(alloc);
    for (name, bytes) in upcoming.files.as_slice().iter().zip(all.as_slice()) {
        if let Some(bytes) = bytes {
            let bytes = bytes.as_slice();
            push_input_files(rt, &mut zone_files, folder, bytes)?;
            sources.push(CronFile { name: *name, bytes })?;
        }
    }
    let rules = upcoming.zones.rules.as_slice();
    push_clock_file(rt, &mut zone_files, folder, rules, upcoming.clock.zone)?;
    Ok(serve_read(rt, upcoming, zone_files.as_slice(), sources.as_slice()))
}

// The page on what several files have.
fn answer_report<W: Write>(
    rt: &HostRuntime,
    report: &ReportRequest<'_>,
    zone_files: &[ZoneFile],
    sources: &[CronFile<'_>],
    out: &mut W,
) -> Served {
    let alloc = rt.alloc();
    let mut said = Vec::new(alloc);
    let status = serve_report(alloc, report, zone_files, sources, out, &mut said);
    Served { status, said }
}

// Serves a request for a page on files that were read.
fn serve_page(
    rt: &HostRuntime,
    report: &mut ReportRequest<'_>,
    zone_files: &[ZoneFile],
    sources: &[CronFile<'_>],
) -> ExitStatus {
    let mut out = Output::new(rt);
    let first = answer_report(rt, report, zone_files, sources, &mut out);
    let status = tell(rt, &first, out.is_closed());
    let is_refused = first.status == ExitStatus::Refused && out.is_empty();
    if is_refused && !report.explain && at_terminal(rt) {
        report.explain = true;
        let second = answer_report(rt, report, zone_files, sources, &mut io::sink());
        tell_more(rt, &first, &second);
    }
    status
}

/// Serves a request for a page on what several files have: all of them are read first, then the
/// files of their zones.
pub fn serve_report_files(
    rt: &HostRuntime,
    report: &mut ReportRequest<'_>,
    folder: &str,
    files: Files,
) -> Result<ExitStatus, Failure> {
    let alloc = rt.alloc();
    let Some(all) = all_bytes(rt, report.files.as_slice(), files)? else {
        return Ok(ExitStatus::Failed);
    };
    let mut zone_files = Vec::new(alloc);
    let mut sources = Vec::new(alloc);
    for (name, bytes) in report.files.as_slice().iter().zip(all.as_slice()) {
        if let Some(bytes) = bytes {
            let bytes = bytes.as_slice();
            push_input_files(rt, &mut zone_files, folder, bytes)?;
            sources.push(CronFile { name: *name, bytes })?;
        }
    }
    Ok(serve_page(rt, report, zone_files.as_slice(), sources.as_slice()))
}
