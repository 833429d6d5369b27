// The progress of a run on a terminal: a line on standard error, which is cleared when the run is
// over.
use crate::secret::new_secret;
use crate::serve_request;
use crate::source::Input;
use cj_program::{ExitStatus, Failure, Meter, Request};
use crossbeam_channel::{Receiver, RecvTimeoutError, bounded};
use std::io::{IsTerminal, Write};
use std::sync::Wait;
use std::thread;
use std::thread::Threads;
use std::time::{Clock, Duration};

// How often the line is written, in milliseconds.
const PAUSE: u64 = 500;

// Writes how far the run is, over the line that was there.
fn tell(rt: &HostRuntime, meter: &Meter) {
    let (over, all) = (meter.over(), meter.all());
    if all > 0 {
        let _ = write!(&mut rt.stderr(), "\rcronsim: {over} of {all} instants");
    }
}

// Clears the line.
fn clear(rt: &HostRuntime) {
    let _ = rt.stderr().write_all(b"\r\x1b[K");
}

// Writes how far the run is now and then, until the other end of the channel is gone.
fn watch<T: Wait + Clock>(threads: &T, rt: &HostRuntime, meter: &Meter, end: &Receiver<u64>) {
    let mut told = false;
    for _ in threads.forever() {
        match end.recv_timeout(threads, Duration::from_millis(PAUSE)) {
            Err(RecvTimeoutError::Timeout) => {
                tell(rt, meter);
                told = true;
            }
            _ => {
                if told {
                    clear(rt);
                }
                return;
            }
        }
    }
}

/// Whether progress is shown: of a run, on a terminal.
pub fn is_shown(rt: &HostRuntime, request: &Request<'_>) -> bool {
    matches!(request, Request::Run(_)) && rt.stderr().is_terminal()
}

/// Serves a request, and shows its progress meanwhile, where a thread can be started for that.
pub fn serve_shown<T: Threads + Wait + Clock + Sync>(
    threads: &T,
    rt: &HostRuntime,
    request: &mut Request<'_>,
    input: &mut Input,
) -> Result<ExitStatus, Failure> {
    let meter = Meter::keyed(new_secret(rt));
    let (end, ended) = bounded(rt.alloc(), 1)?;
    thread::scope(
        thread::scope_env(),
        threads,
        |scope| -> Result<ExitStatus, Failure> {
            let child = scope.spawn(|| watch(threads, rt, &meter, &ended));
            let status = serve_request(threads, rt, request, input, &meter);
            drop(end);
            if let Ok(child) = child {
                child.join(threads);
            }
            status
        },
    )
}
