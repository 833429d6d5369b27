// What is told on standard error: it is kept until it is known whether anybody still reads the
// answer, and at a terminal it says why a request is refused, as `--explain` does.
use crate::source::Input;
use crate::streams::Output;
use cj_program::{
    CheckRequest, ExitStatus, Failure, Meter, Request, ZoneFile, fault_places, serve, shape_words,
    tell_failure,
};
use memchr::memmem;
use std::fs::metadata;
use std::io;
use std::io::{IsTerminal, Write};
use std::sync::Wait;
use std::thread::Threads;

/// How a request was served: the status, and what there is to say.
#[derive(Drop)]
pub struct Served {
    pub status: ExitStatus,
    pub said: Vec<u8>,
}

impl Served {
    /// Whether what is refused is a word of the request, and no input.
    pub fn is_of_words(&self) -> bool {
        self.said.as_slice().starts_with(b"cronsim: ")
    }
}

/// Whether people read what is said.
pub fn at_terminal(rt: &HostRuntime) -> bool {
    rt.stderr().is_terminal()
}

/// Says at a terminal that what is typed there is read, where no pipe and no file is given.
pub fn tell_waiting(rt: &HostRuntime, file: Option<&str>) {
    if file == Some("-") && rt.stdin().is_terminal() && at_terminal(rt) {
        let _ = writeln!(
            rt.stderr(),
            "cronsim: reading what is typed here, up to Ctrl-D; FILE names a file"
        );
    }
}

/// Says what there is to say, and answers the status. Where nobody reads the answer any more, as
/// behind `head`, there is nothing to say.
pub fn tell(rt: &HostRuntime, served: &Served, is_closed: bool) -> ExitStatus {
    let err = &mut rt.stderr();
    if served.status != ExitStatus::Failed {
        return match err.write_all(served.said.as_slice()) {
            Ok(()) => served.status,
            Err(_) => ExitStatus::Failed,
        };
    }
    if served.said.is_empty() {
        return tell_failure(Failure::Memory, err);
    }
    if !is_closed {
        let _ = err.write_all(served.said.as_slice());
    }
    ExitStatus::Failed
}

// Whether a line is there and isn't among those that were said.
fn is_fresh(line: &[u8], said: &[u8]) -> bool {
    !line.is_empty() && memmem::find(said, line).is_none()
}

/// Says what a second answer has to say and the first hadn't.
pub fn tell_more(rt: &HostRuntime, first: &Served, second: &Served) {
    let said = first.said.as_slice();
    for line in second.said.as_slice().split(|byte| *byte == b'\n') {
        if is_fresh(line, said) {
            let _ = rt.stderr().write_all(line);
            let _ = rt.stderr().write_all(b"\n");
        }
    }
}

/// The request with its refusal explained.
pub fn explain(request: &mut Request<'_>) {
    match request {
        Request::Next(next) => next.explain = true,
        Request::Check(check) => check.explain = true,
        Request::Plan(plan) => plan.explain = true,
        Request::Replay(replay) => replay.explain = true,
        Request::Run(run) => run.explain = true,
        Request::Why(why) => why.explain = true,
        Request::Audit(audit) => audit.explain = true,
        Request::Upcoming(upcoming) => upcoming.explain = true,
        Request::Describe(describe) => describe.explain = true,
        Request::Previous(previous) => previous.explain = true,
        Request::Report(report) => report.explain = true,
        Request::Crontab(crontab) => crontab.explain = true,
        Request::Scenario(scenario) => scenario.explain = true,
        Request::Control(_) => {}
    }
}

/// Whether people are to be told why a request was refused, or what it is warned of: they read what
/// is said, nobody asked for it already, and standard output has none of the answer. `check` has
/// refusals and warnings there.
pub fn wants_why(rt: &HostRuntime, request: &Request<'_>, served: &Served, out: &Output) -> bool {
    let is_check = matches!(request, Request::Check(_));
    let is_refused = served.status == ExitStatus::Refused && (is_check || out.is_empty());
    let is_warned = served.status == ExitStatus::Success && is_check && out.has_warned();
    !request.explains() && (is_refused || is_warned) && at_terminal(rt)
}

// Whether people are to be told of the items that are refused: they read what is said, and nobody
// asked for it already.
fn wants_items(rt: &HostRuntime, request: &Request<'_>, served: &Served, out: &Output) -> bool {
    let is_refused = served.status == ExitStatus::Refused && !request.explains();
    is_refused && out.has_refused() && at_terminal(rt)
}

// Says what a second answer has to say of items and the first hadn't.
fn tell_items(rt: &HostRuntime, first: &Served, second: &Served) {
    let said = first.said.as_slice();
    for line in second.said.as_slice().split(|byte| *byte == b'\n') {
        if line.starts_with(b"item ") && is_fresh(line, said) {
            let _ = rt.stderr().write_all(line);
            let _ = rt.stderr().write_all(b"\n");
        }
    }
}

// Serves a request on the bytes of its input; without them each read fails.
fn answer<T: Threads + Wait + Sync, W: Write>(
    threads: &T,
    rt: &HostRuntime,
    request: &Request<'_>,
    files: &[ZoneFile],
    bytes: Option<&[u8]>,
    meter: &Meter,
    out: &mut W,
) -> Served {
    let alloc = rt.alloc();
    let mut said = Vec::new(alloc);
    let err = &mut said;
    let status = match bytes {
        Some(bytes) => {
            let mut rest = bytes;
            serve(threads, alloc, request, files, &mut rest, out, err, meter)
        }
        None => {
            let mut rest = Input::unreadable();
            serve(threads, alloc, request, files, &mut rest, out, err, meter)
        }
    };
    Served { status, said }
}

/// Serves a request on the bytes of its input, where there are any, and says what there is to say.
/// Answers how it was served, without what a terminal alone is told.
pub fn serve_on<T: Threads + Wait + Sync>(
    threads: &T,
    rt: &HostRuntime,
    request: &mut Request<'_>,
    files: &[ZoneFile],
    bytes: Option<&[u8]>,
    meter: &Meter,
) -> Served {
    let mut out = Output::new(rt);
    let mut first = answer(threads, rt, request, files, bytes, meter, &mut out);
    first.status = tell(rt, &first, out.is_closed());
    if wants_why(rt, request, &first, &out) {
        explain(request);
        let second = answer(threads, rt, request, files, bytes, meter, &mut io::sink());
        tell_more(rt, &first, &second);
    } else if wants_items(rt, request, &first, &out) {
        explain(request);
        let second = answer(threads, rt, request, files, bytes, meter, &mut io::sink());
        tell_items(rt, &first, &second);
    }
    first
}

/// Says to people what a refused input is, where they have it by mistake.
pub fn tell_shape(rt: &HostRuntime, request: &Request<'_>, status: ExitStatus, bytes: &[u8]) {
    let words = shape_words(bytes);
    let is_wanted = request.explains() || at_terminal(rt);
    if status != ExitStatus::Refused || words.is_empty() || !is_wanted {
        return;
    }
    let file = request.file().unwrap_or("FILE");
    let _ = write!(&mut rt.stderr(), "{file}: {words}");
}

/// Says to people who give a manifest for a crontab what reads manifests.
pub fn tell_manifest(rt: &HostRuntime, request: &Request<'_>, status: ExitStatus, bytes: &[u8]) {
    let is_wanted = request.explains() || at_terminal(rt);
    let is_manifest = memmem::find(bytes, b"apiVersion:").is_some();
    if status == ExitStatus::Refused && is_manifest && is_wanted {
        let file = request.file().unwrap_or("FILE");
        let _ = writeln!(
            &mut rt.stderr(),
            "{file}: it looks like a manifest; cronsim check reads those"
        );
    }
}

/// Says to people where the faults of manifests stand in the text that was read. That is looked at
/// only where they are told why.
pub fn tell_places(
    rt: &HostRuntime,
    check: &CheckRequest<'_>,
    status: ExitStatus,
    files: &[ZoneFile],
    source: &[u8],
) -> Result<(), Failure> {
    let is_wanted = match status {
        ExitStatus::Failed => false,
        ExitStatus::Refused => check.explain || at_terminal(rt),
        _ => check.explain,
    };
    if is_wanted {
        let name = check.files.as_slice().first().copied().unwrap_or("FILE");
        let lines = fault_places(rt.alloc(), check, files, name, source)?;
        let _ = rt.stderr().write_all(lines.as_bytes());
    }
    Ok(())
}

// The schedule of a request on one schedule.
fn schedule_of<'a>(request: &Request<'a>) -> Option<&'a str> {
    match request {
        Request::Next(next) => Some(next.schedule),
        Request::Describe(describe) => Some(describe.schedule),
        Request::Previous(previous) => Some(previous.schedule),
        _ => None,
    }
}

/// Says to people that what they gave for a schedule is the name of a file.
pub fn tell_file(rt: &HostRuntime, request: &Request<'_>, served: &Served) {
    let is_wanted = request.explains() || at_terminal(rt);
    let Some(name) = schedule_of(request) else {
        return;
    };
    let is_schedule = served.said.as_slice().starts_with(b"cronsim: schedule ");
    if is_wanted && is_schedule && metadata(rt, name).is_ok_and(|found| found.is_file()) {
        let _ = writeln!(
            &mut rt.stderr(),
            "schedule: there is a file {name}; cronsim describe -f {name} describes its CronJobs"
        );
    }
}
