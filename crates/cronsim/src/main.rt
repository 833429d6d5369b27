//! The program `cronsim`: it takes the words of its command line, opens the file that they name,
//! reads the zone files that its input names, and has `cj_program` serve the request. Where a
//! moment is now, or relative to now, it reads the clock. Nothing else belongs here, since no
//! contract can say what a file, a clock or a terminal holds.
#![tactic(auto)]

mod clock;
mod control;
mod folder;
mod folding;
mod listing;
mod machine;
mod progress;
mod secret;
mod several;
mod shown_zone;
mod source;
mod streams;
mod taken;
mod telling;
mod words;
mod zone_names;
mod zoned;

use cj_program::{
    ExitStatus, Failure, MOST_BYTES, MOST_LIST_BYTES, MOST_LIST_READS, MOST_READS, Meter, Request,
    ZoneFile, parse_words, read_input, tell_failure, tell_fault, word_tips,
};
use clock::moment_by_clock;
use control::serve_control;
use folder::{crontab_files, folder_set, named_file, request_files};
use folding::tell_folded;
use listing::{Listing, files_listed};
use progress::{is_shown, serve_shown};
use secret::new_secret;
use several::{serve_files, serve_report_files, serve_upcoming_files};
use shown_zone::{local_zone, names_unshown, with_zone};
use source::{Files, Input};
use std::alloc::Global;
use std::io::{IsTerminal, Write};
use std::process::ExitCode;
use std::sync::Wait;
use std::thread::Threads;
use std::time::Clock;
use taken::json_of;
use telling::{
    at_terminal, serve_on, tell_file, tell_manifest, tell_places, tell_shape, tell_waiting,
};
use words::{asked, clash, joined};
use zone_names::{tell_zones, without_names};
use zoned::{moment_by_zone, moment_text, other_text, tell_skipped};

// Whether the schedules of a file's CronJobs are asked about.
fn describes_file(request: &Request<'_>) -> bool {
    match request {
        Request::Describe(describe) => describe.is_in_file(),
        _ => false,
    }
}

// Whether the input is what a cluster has.
fn reads_cluster(request: &Request<'_>) -> bool {
    match request {
        Request::Why(_) | Request::Audit(_) | Request::Upcoming(_) => true,
        Request::Report(_) | Request::Scenario(_) => true,
        _ => describes_file(request),
    }
}

// The most bytes that an input may have.
fn most_bytes(request: &Request<'_>) -> usize {
    if reads_cluster(request) {
        MOST_LIST_BYTES
    } else {
        MOST_BYTES
    }
}

// The most reads after which an input must have ended.
fn most_reads(request: &Request<'_>) -> u32 {
    if reads_cluster(request) {
        MOST_LIST_READS
    } else {
        MOST_READS
    }
}

// Whether people are told of a file that can't be read: where they ask for that or are at a
// terminal, and always by the commands on a cluster and on the times to come.
fn tells_files(rt: &HostRuntime, request: &Request<'_>) -> bool {
    match request {
        Request::Crontab(_) | Request::Control(_) => true,
        _ => reads_cluster(request) || request.explains() || at_terminal(rt),
    }
}

// The bytes of an input, kept for what people are told of places in them.
fn kept_source(
    rt: &HostRuntime,
    request: &Request<'_>,
    bytes: &[u8],
) -> Result<Option<Vec<u8>>, Failure> {
    match request {
        Request::Check(check) if check.explain || at_terminal(rt) => {
            Ok(Some(Vec::from_slice(rt.alloc(), bytes)?))
        }
        _ => Ok(None),
    }
}

// Says to people where the faults of a request's manifests stand in that text.
fn tell_source(
    rt: &HostRuntime,
    request: &Request<'_>,
    status: ExitStatus,
    files: &[ZoneFile],
    source: Option<&Vec<u8>>,
) -> Result<(), Failure> {
    let Some(source) = source else {
        return Ok(());
    };
    match request {
        Request::Check(check) => tell_places(rt, check, status, files, source.as_slice()),
        _ => Ok(()),
    }
}

// Says to people why the file of a failed request could not be opened, or that it is too long.
fn tell_unread(rt: &HostRuntime, request: &Request<'_>, status: ExitStatus, input: &Input) {
    if status != ExitStatus::Failed || !tells_files(rt, request) {
        return;
    }
    let Some(file) = request.file() else {
        return;
    };
    let err = &mut rt.stderr();
    let most = most_bytes(request);
    if let Some(cause) = input.cause() {
        let _ = writeln!(err, "{file}: {cause}");
    } else if input.is_above(most) && !matches!(request, Request::Control(_)) {
        let _ = writeln!(
            err,
            "{file}: longer than {most} bytes, the most that is read"
        );
    }
}

// Serves a request whose input may name zones of a folder: the input is read first, then the files
// of the zones.
fn serve_with_folder<T: Threads + Wait + Sync>(
    threads: &T,
    rt: &HostRuntime,
    request: &mut Request<'_>,
    folder: &str,
    input: &mut Input,
    meter: &Meter,
) -> Result<ExitStatus, Failure> {
    let (most, reads) = (most_bytes(request), most_reads(request));
    match read_input(rt.alloc(), input, most, reads) {
        Ok(bytes) => {
            let source = kept_source(rt, request, bytes.as_slice())?;
            let bytes = json_of(rt, bytes)?;
            let bytes = bytes.as_slice();
            let files = request_files(rt, request, folder, bytes)?;
            let served = serve_on(threads, rt, request, files.as_slice(), Some(bytes), meter);
            tell_shape(rt, request, served.status, bytes);
            if !served.is_of_words() {
                tell_source(
                    rt,
                    request,
                    served.status,
                    files.as_slice(),
                    source.as_ref(),
                )?;
            }
            tell_zones(rt, request, &served, folder, files.as_slice(), bytes)?;
            Ok(served.status)
        }
        Err(Failure::Memory) => Err(Failure::Memory),
        Err(_) => Ok(serve_on(threads, rt, request, &[], None, meter).status),
    }
}

// The folder of zones where nobody gives one: the machine's own.
const MACHINE_FOLDER: &str = "/usr/share/zoneinfo";

// The name that the zone of a request on one schedule may have.
fn zone_name<'a>(request: &Request<'a>) -> Option<&'a str> {
    match request {
        Request::Next(next) => next.time_zone.or(next.zone),
        Request::Describe(describe) => describe.time_zone.or(describe.zone),
        Request::Previous(previous) => previous.time_zone.or(previous.zone),
        _ => None,
    }
}

// Serves a request on one schedule, with the file of its zone.
fn serve_schedule<T: Threads + Wait + Sync>(
    threads: &T,
    rt: &HostRuntime,
    request: &mut Request<'_>,
    folder: &str,
    meter: &Meter,
) -> Result<ExitStatus, Failure> {
    let files = named_file(rt, folder, zone_name(request).unwrap_or(""))?;
    let served = serve_on(threads, rt, request, files.as_slice(), Some(b""), meter);
    tell_zones(rt, request, &served, folder, files.as_slice(), b"")?;
    tell_file(rt, request, &served);
    Ok(served.status)
}

// Serves a request on a crontab, with the files of the zones that it names.
fn serve_crontab<T: Threads + Wait + Sync>(
    threads: &T,
    rt: &HostRuntime,
    request: &mut Request<'_>,
    folder: &str,
    input: &mut Input,
    meter: &Meter,
) -> Result<ExitStatus, Failure> {
    match read_input(rt.alloc(), input, MOST_BYTES, MOST_READS) {
        Ok(bytes) => {
            let bytes = bytes.as_slice();
            let files = crontab_files(rt, request, folder, bytes)?;
            let served = serve_on(threads, rt, request, files.as_slice(), Some(bytes), meter);
            tell_manifest(rt, request, served.status, bytes);
            Ok(served.status)
        }
        Err(Failure::Memory) => Err(Failure::Memory),
        Err(_) => Ok(serve_on(threads, rt, request, &[], None, meter).status),
    }
}

// Serves a request that reads one file at most, with the zone files that it asks for.
fn serve_one<T: Threads + Wait + Sync>(
    threads: &T,
    rt: &HostRuntime,
    request: &mut Request<'_>,
    folder: &str,
    input: &mut Input,
    meter: &Meter,
) -> Result<ExitStatus, Failure> {
    match request {
        Request::Control(control) => Ok(serve_control(rt, control, folder, input)),
        Request::Crontab(_) => serve_crontab(threads, rt, request, folder, input, meter),
        Request::Next(_) | Request::Describe(_) | Request::Previous(_) => {
            serve_schedule(threads, rt, request, folder, meter)
        }
        _ => serve_with_folder(threads, rt, request, folder, input, meter),
    }
}

// Serves a request, with the zone files that it asks for.
fn serve_request<T: Threads + Wait + Sync>(
    threads: &T,
    rt: &HostRuntime,
    request: &mut Request<'_>,
    input: &mut Input,
    meter: &Meter,
) -> Result<ExitStatus, Failure> {
    let set = folder_set(rt)?;
    let set = set.as_ref().map(|folder| folder.as_str());
    let folder = request.folder().or(set).unwrap_or(MACHINE_FOLDER);
    without_names(rt, request, folder)?;
    if describes_file(request) {
        return serve_with_folder(threads, rt, request, folder, input, meter);
    }
    let Some(files) = input.files() else {
        return serve_one(threads, rt, request, folder, input, meter);
    };
    match request {
        Request::Check(check) => serve_files(rt, check, folder, files),
        Request::Upcoming(upcoming) => serve_upcoming_files(rt, upcoming, folder, files),
        Request::Report(report) => serve_report_files(rt, report, folder, files),
        _ => serve_one(threads, rt, request, folder, input, meter),
    }
}

// The moment that a request means by the clock: now, where the words leave it out, or as long
// before or after now as they say. `check` without `--explain` needs none where the words leave it
// out.
fn clock_moment(rt: &HostRuntime, request: &Request<'_>) -> Result<Option<String>, Failure> {
    match request {
        Request::Next(next) => moment_by_clock(rt, Some(next.after)),
        Request::Plan(plan) => moment_by_clock(rt, Some(plan.moment)),
        Request::Check(check) if check.explain || check.moment.is_some() => {
            moment_by_clock(rt, check.moment)
        }
        Request::Why(why) => moment_by_clock(rt, why.moment),
        Request::Audit(audit) if audit.since.is_some() || audit.moment.is_some() => {
            moment_by_clock(rt, audit.moment)
        }
        Request::Upcoming(upcoming) => moment_by_clock(rt, upcoming.from),
        Request::Describe(describe) => moment_by_clock(rt, describe.after),
        Request::Previous(previous) => moment_by_clock(rt, previous.before),
        Request::Scenario(scenario) => moment_by_clock(rt, scenario.from),
        Request::Report(report) => moment_by_clock(rt, report.moment),
        Request::Crontab(crontab) => moment_by_clock(rt, crontab.moment),
        _ => Ok(None),
    }
}

// The end that a request's words give its window by the clock, as `+2h`.
fn clock_end(rt: &HostRuntime, request: &Request<'_>) -> Result<Option<String>, Failure> {
    match request {
        Request::Upcoming(upcoming) if upcoming.until.is_some() => {
            moment_by_clock(rt, upcoming.until)
        }
        Request::Scenario(scenario) if scenario.until.is_some() => {
            moment_by_clock(rt, scenario.until)
        }
        _ => Ok(None),
    }
}

// The request with that end, or start of what is shown, where it means one.
fn with_end<'a>(mut request: Request<'a>, end: Option<&'a str>) -> Request<'a> {
    if end.is_some() {
        match &mut request {
            Request::Upcoming(upcoming) => upcoming.until = end,
            Request::Scenario(scenario) => scenario.until = end,
            Request::Audit(audit) => audit.since = end,
            _ => {}
        }
    }
    request
}

// The names of the files of a request that takes several; none of other requests.
fn file_names<'r, 'a>(request: &'r Request<'a>) -> &'r [&'a str] {
    match request {
        Request::Check(check) => check.files.as_slice(),
        Request::Upcoming(upcoming) => upcoming.files.as_slice(),
        Request::Report(report) => report.files.as_slice(),
        _ => &[],
    }
}

// The request with these files.
fn with_files<'a>(mut request: Request<'a>, files: Vec<&'a str>) -> Request<'a> {
    match &mut request {
        Request::Check(check) => check.files = files,
        Request::Upcoming(upcoming) => upcoming.files = files,
        Request::Report(report) => report.files = files,
        _ => {}
    }
    request
}

// The request with that moment, where it means one.
fn at_moment<'a>(mut request: Request<'a>, moment: Option<&'a str>) -> Request<'a> {
    if moment.is_some() {
        match &mut request {
            Request::Next(next) => next.after = moment.unwrap_or(next.after),
            Request::Plan(plan) => plan.moment = moment.unwrap_or(plan.moment),
            Request::Check(check) => check.moment = moment,
            Request::Why(why) => why.moment = moment,
            Request::Audit(audit) => audit.moment = moment,
            Request::Upcoming(upcoming) => upcoming.from = moment,
            Request::Describe(describe) => describe.after = moment,
            Request::Previous(previous) => previous.before = moment,
            Request::Scenario(scenario) => scenario.from = moment,
            Request::Report(report) => report.moment = moment,
            Request::Crontab(crontab) => crontab.moment = moment,
            _ => {}
        }
    }
    request
}

// What a request reads: its file, or several, each of which is opened when its turn comes.
fn input_of(rt: &HostRuntime, request: &Request<'_>, is_listed: bool) -> Input {
    if is_listed {
        return Input::several(Files::Listed);
    }
    if file_names(request).len() > 1 {
        return Input::several(Files::Named);
    }
    tell_waiting(rt, request.file());
    Input::open(rt, request.file())
}

// Opens what a request reads, whose files may be those of a folder, and serves it.
fn serve_opened<T: Threads + Wait + Clock + Sync>(
    threads: &T,
    rt: &HostRuntime,
    mut request: Request<'_>,
    is_listed: bool,
) -> Result<ExitStatus, Failure> {
    let mut input = input_of(rt, &request, is_listed);
    let status = if is_shown(rt, &request) {
        serve_shown(threads, rt, &mut request, &mut input)?
    } else {
        serve_request(
            threads,
            rt,
            &mut request,
            &mut input,
            &Meter::keyed(new_secret(rt)),
        )?
    };
    tell_unread(rt, &request, status, &input);
    Ok(status)
}

// The texts of words.
fn texts_of<'a>(alloc: Global, words: &'a [String]) -> Result<Vec<&'a str>, Failure> {
    let mut texts = Vec::new(alloc);
    for word in words {
        texts.push(word.as_str())?;
    }
    Ok(texts)
}

// Serves a request, with the files of folders in their place.
fn serve_listed<T: Threads + Wait + Clock + Sync>(
    threads: &T,
    rt: &HostRuntime,
    request: Request<'_>,
) -> Result<ExitStatus, Failure> {
    match files_listed(rt, file_names(&request))? {
        Listing::Plain => serve_opened(threads, rt, request, false),
        Listing::Refused => Ok(ExitStatus::Refused),
        Listing::Files(files) => {
            let files = texts_of(rt.alloc(), files.as_slice())?;
            serve_opened(threads, rt, with_files(request, files), true)
        }
    }
}

// The moment that a text of a request means by its zone's clock, where it has no offset.
fn zoned_moment(
    rt: &HostRuntime,
    request: &Request<'_>,
    text: Option<&str>,
) -> Result<Option<String>, Failure> {
    let set = folder_set(rt)?;
    let set = set.as_ref().map(|folder| folder.as_str());
    let folder = request.folder().or(set).unwrap_or(MACHINE_FOLDER);
    moment_by_zone(rt, request, folder, text)
}

// Says that `--zone` alone doesn't change by which clock times are printed.
fn tell_unshown(rt: &HostRuntime) {
    let _ = writeln!(
        &mut rt.stderr(),
        "--zone: times are printed in UTC; --time-zone NAME prints them by that zone's clock"
    );
}

// Serves a request whose moments may be by a zone's clock. A moment that this clock skips is told
// behind the refusal.
fn serve_zoned<T: Threads + Wait + Clock + Sync>(
    threads: &T,
    rt: &HostRuntime,
    request: Request<'_>,
) -> Result<ExitStatus, Failure> {
    let moment = zoned_moment(rt, &request, moment_text(&request))?;
    let moment = moment.as_ref().map(|text| text.as_str());
    let end = zoned_moment(rt, &request, other_text(&request))?;
    let end = end.as_ref().map(|text| text.as_str());
    let is_wanted = request.explains() || at_terminal(rt);
    let is_unshown = is_wanted && names_unshown(&request);
    let request = with_end(at_moment(request, moment), end);
    let status = serve_listed(threads, rt, request)?;
    if is_wanted {
        tell_skipped(rt, moment);
        tell_skipped(rt, end);
    }
    if is_unshown && status == ExitStatus::Success {
        tell_unshown(rt);
    }
    Ok(status)
}

// Serves a request, with what its words leave to the machine: moments by its clock, and its zone.
fn serve_parsed<T: Threads + Wait + Clock + Sync>(
    threads: &T,
    rt: &HostRuntime,
    request: Request<'_>,
) -> Result<ExitStatus, Failure> {
    let moment = clock_moment(rt, &request)?;
    let end = clock_end(rt, &request)?;
    let zone = local_zone(rt, &request)?;
    let request = at_moment(request, moment.as_ref().map(|text| text.as_str()));
    let request = with_end(request, end.as_ref().map(|text| text.as_str()));
    let request = with_zone(request, zone.as_ref().map(|text| text.as_str()));
    serve_zoned(threads, rt, request)
}

// Says to people what may be meant by words that are wrong.
fn tell_tips(rt: &HostRuntime, status: ExitStatus, words: &[&str]) {
    let is_asked = words.iter().any(|word| *word == "--explain");
    if status == ExitStatus::Usage && (is_asked || at_terminal(rt)) {
        if let Ok(tips) = word_tips(rt.alloc(), words) {
            let _ = rt.stderr().write_all(tips.as_bytes());
        }
    }
}

// Says that two options can't be used beside each other.
fn tell_clash(rt: &HostRuntime, one: &str, other: &str) -> ExitStatus {
    let _ = writeln!(
        &mut rt.stderr(),
        "error: the argument '{one}' cannot be used with '{other}'\n\nFor more information, try '--help'."
    );
    ExitStatus::Usage
}

// Serves the request of words that are read, unless they clash.
fn serve_words<T: Threads + Wait + Clock + Sync>(
    threads: &T,
    rt: &HostRuntime,
    request: Request<'_>,
    words: &[&str],
) -> Result<ExitStatus, Failure> {
    match clash(words) {
        Some((one, other)) => Ok(tell_clash(rt, one, other)),
        None => serve_parsed(threads, rt, request),
    }
}

// Reads the words of the command line, and serves the request that they are.
fn run<T: Threads + Wait + Clock + Sync>(
    threads: &T,
    rt: &HostRuntime,
) -> Result<ExitStatus, Failure> {
    let alloc = rt.alloc();
    let given: Vec<String> = std::env::args(rt)?.collect(alloc)?;
    let args = joined(alloc, given.as_slice())?;
    let words = texts_of(alloc, args.as_slice())?;
    let words = asked(words.as_slice());
    match parse_words(alloc, words) {
        Ok(request) => serve_words(threads, rt, request, words),
        Err(fault) => {
            let status = if rt.stdout().is_terminal() {
                tell_folded(rt, &fault)?
            } else {
                tell_fault(alloc, &fault, &mut rt.stdout(), &mut rt.stderr())
            };
            tell_tips(rt, status, words);
            Ok(status)
        }
    }
}

fn main(rt: HostRuntime) -> ExitCode {
    let status = match run(&rt, &rt) {
        Ok(status) => status,
        Err(failure) => tell_failure(failure, &mut rt.stderr()),
    };
    ExitCode::from(status.code())
}
