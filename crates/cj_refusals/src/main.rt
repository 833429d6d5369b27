//! Makes calls on a hub and on worlds while somebody outside refuses requests for memory.
//!
//! Here belongs what tests/refusals runs to see that a refused call leaves all as it was, and is
//! then made as usual. Nothing is built on it.
//!
//! Without arguments it makes eleven calls through one pass of a hub, and closes it. The exit
//! status is the number of calls that were entered, 20 where there was no memory for a hub and a
//! pass, 30 where the pass counts another number than was entered, and 31 where the hub isn't
//! closed.
//!
//! With FILE PLACE CALL DETAIL it makes one call on a world, at the place of a step of the script
//! in the file: `trials` says what is compared. It writes what the call is usually answered, then
//! makes the call, and then writes what came of it: memory that is refused between the two writes
//! is refused to the call alone. The exit status is 0 where all was as it should be, 1 where it
//! wasn't, and 20 where the arguments say no call, or there was no memory beside the call.
#![tactic(auto)]

mod asks;
mod boxed;
mod hubs;
mod trials;
mod twins;
mod words;

use asks::Ask;
use cj_types::Refusal;
use std::alloc::Global;
use std::process::ExitCode;
use std::sync::Wait;
use trials::try_call;

// The exit status where there was nothing to try.
const NOTHING: u8 = 20;

fn arguments(rt: &HostRuntime) -> Option<Vec<String>> {
    let args = std::env::args(rt).ok()?;
    args.collect(rt.alloc()).ok()
}

// Makes the call that the arguments name.
fn tried(
    rt: &HostRuntime,
    alloc: Global,
    file: &str,
    place: &str,
    ask: &Ask<'_>,
) -> Result<u8, Refusal> {
    let place = place.parse::<usize>().map_err(|_| Refusal::Syntax)?;
    let text = std::fs::read_to_string(rt, file).map_err(|_| Refusal::Syntax)?;
    try_call(rt, alloc, text.as_bytes(), place, ask)
}

// Makes the calls that the program's words say, and answers the exit status.
fn status_of<R: Wait>(wait: &R, rt: &HostRuntime, words: &[String]) -> Result<u8, Refusal> {
    match words {
        [_, file, place, call, detail] => {
            let ask = Ask {
                call: call.as_str(),
                detail: detail.as_str(),
            };
            tried(rt, rt.alloc(), file.as_str(), place.as_str(), &ask)
        }
        _ => hubs::called(wait, rt.alloc()),
    }
}

fn main(rt: HostRuntime) -> ExitCode {
    let Some(words) = arguments(&rt) else {
        return ExitCode::from(NOTHING);
    };
    match status_of(&rt, &rt, words.as_slice()) {
        Ok(status) => ExitCode::from(status),
        Err(_) => ExitCode::from(NOTHING),
    }
}
