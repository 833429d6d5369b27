// Moments without an offset, by the clock of a request's zone.
use crate::folder::named_file;
use crate::shown_zone::clock_of;
use cj_program::{
    Failure, Refusal, Request, Seconds, ZoneTable, ZonedMoment, moment_in, time_text, zones_for,
};
use std::io::Write;

// The words on a request's zone.
#[derive(Drop)]
struct Asked<'a> {
    name: Option<&'a str>,
    word: Option<&'a str>,
}

/// The moment of a request on a zone's clock.
pub fn moment_text<'a>(request: &Request<'a>) -> Option<&'a str> {
    match request {
        Request::Next(next) => Some(next.after),
        Request::Describe(describe) => describe.after,
        Request::Previous(previous) => previous.before,
        Request::Why(why) => why.moment,
        Request::Audit(audit) => audit.moment,
        Request::Upcoming(upcoming) => upcoming.from,
        _ => None,
    }
}

/// The other moment of such a request: the end of its window, or the start of what is shown.
pub fn other_text<'a>(request: &Request<'a>) -> Option<&'a str> {
    match request {
        Request::Audit(audit) => audit.since,
        Request::Upcoming(upcoming) => upcoming.until,
        _ => None,
    }
}

// What a request asks for by its zone: that of its schedule, or that of the clock by which its
// times are printed.
fn asked_of<'a>(request: &Request<'a>) -> Asked<'a> {
    let (name, word) = match request {
        Request::Next(next) => (next.time_zone, next.zone),
        Request::Describe(describe) => (describe.time_zone, describe.zone),
        Request::Previous(previous) => (previous.time_zone, previous.zone),
        _ => {
            let word = match clock_of(request) {
                Some(clock) => clock.zone,
                None => None,
            };
            (None, word)
        }
    };
    Asked { name, word }
}

// The zone that is asked for; none where there is no such zone.
fn table_of(
    rt: &HostRuntime,
    asked: &Asked<'_>,
    folder: &str,
) -> Result<Option<ZoneTable>, Failure> {
    let files = named_file(rt, folder, asked.name.or(asked.word).unwrap_or(""))?;
    match zones_for(rt.alloc(), asked.name, asked.word, files.as_slice()) {
        Ok(table) => Ok(Some(table)),
        Err(Refusal::OutOfMemory) => Err(Failure::Memory),
        Err(_) => Ok(None),
    }
}

// What stands behind a moment that the clock skips.
const SKIPPED: &str = " (skipped)";

// What a text of a moment that the clock skips becomes: no time, so that it is refused.
fn skipped(rt: &HostRuntime, text: &str) -> Result<Option<String>, Failure> {
    let alloc = rt.alloc();
    Ok(Some(format!(in alloc; "{text}{SKIPPED}")?))
}

/// Says of a moment that the clock skips that it is one.
pub fn tell_skipped(rt: &HostRuntime, text: Option<&str>) {
    if let Some(moment) = text.and_then(|text| text.strip_suffix(SKIPPED)) {
        let _ = writeln!(
            &mut rt.stderr(),
            "{moment}: the clock of the zone goes forward over this time; want one that it shows"
        );
    }
}

fn printed(rt: &HostRuntime, time: Seconds) -> Result<Option<String>, Failure> {
    Ok(Some(time_text(rt.alloc(), time)?))
}

/// The moment that a text without an offset says by the clock of the request's zone, as it is
/// printed, or a text that is no time where that clock skips it; none where the text has an offset
/// or is no time, or the request names no zone.
pub fn moment_by_zone(
    rt: &HostRuntime,
    request: &Request<'_>,
    folder: &str,
    text: Option<&str>,
) -> Result<Option<String>, Failure> {
    let asked = asked_of(request);
    let Some(text) = text else {
        return Ok(None);
    };
    if asked.name.or(asked.word).is_none() {
        return Ok(None);
    }
    let Some(table) = table_of(rt, &asked, folder)? else {
        return Ok(None);
    };
    match moment_in(rt.alloc(), table.default_zone(), text)? {
        ZonedMoment::At(time) => printed(rt, time),
        ZonedMoment::Skipped => skipped(rt, text),
        ZonedMoment::Other => Ok(None),
    }
}
