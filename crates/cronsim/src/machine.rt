// The zone of this machine's clock.
use cj_program::{Failure, MOST_READS, read_input};
use std::alloc::AllocError;
use std::env;
use std::env::VarError;
use std::fs::{File, read_link};

// The most bytes of a file with the name of a zone.
const MOST_NAME_BYTES: usize = 4_096;

// Behind this a path has the name of a zone.
const FOLDER: &str = "zoneinfo/";

// The zone that a text means: a name, a path to its file, or a rule. UTC needs no file.
fn zone_meant(text: &str) -> &str {
    let name = match text.rsplit_once(FOLDER) {
        Some((_, name)) => name,
        None => text,
    };
    match name {
        "Etc/UTC" => "UTC",
        name if name.starts_with('/') => "",
        name => name,
    }
}

// That zone, where there is one.
fn copied(rt: &HostRuntime, text: &str) -> Result<Option<String>, AllocError> {
    match zone_meant(text) {
        "" => Ok(None),
        zone => Ok(Some(String::from_str(rt.alloc(), zone)?)),
    }
}

// The zone that the environment names.
fn zone_set(rt: &HostRuntime) -> Result<Option<String>, Failure> {
    match env::var(rt, "TZ") {
        Ok(text) => {
            let text = text.as_str();
            let zone = copied(rt, text.strip_prefix(':').unwrap_or(text));
            zone.map_err(|_| Failure::Memory)
        }
        Err(VarError::OutOfMemory) => Err(Failure::Memory),
        Err(_) => Ok(None),
    }
}

// The zone whose file is the machine's.
fn zone_linked(rt: &HostRuntime) -> Result<Option<String>, Failure> {
    match read_link(rt, "/etc/localtime") {
        Ok(path) if path.as_str().contains(FOLDER) => {
            copied(rt, path.as_str()).map_err(|_| Failure::Memory)
        }
        _ => Ok(None),
    }
}

// The zone that a file has the name of, as Debian keeps it.
fn zone_written(rt: &HostRuntime) -> Result<Option<String>, Failure> {
    let Ok(mut file) = File::open(rt, "/etc/timezone") else {
        return Ok(None);
    };
    let bytes = match read_input(rt.alloc(), &mut file, MOST_NAME_BYTES, MOST_READS) {
        Ok(bytes) => bytes,
        Err(Failure::Memory) => return Err(Failure::Memory),
        Err(_) => return Ok(None),
    };
    let text = str::from_utf8(bytes.as_slice()).unwrap_or("");
    let line = text.lines().next().unwrap_or("");
    copied(rt, line.trim()).map_err(|_| Failure::Memory)
}

/// The zone of this machine's clock: that of the variable TZ, else the one that /etc/localtime
/// leads to, else the one that /etc/timezone names, else UTC.
pub fn machine_zone(rt: &HostRuntime) -> Result<String, Failure> {
    if let Some(zone) = zone_set(rt)? {
        return Ok(zone);
    }
    if let Some(zone) = zone_linked(rt)? {
        return Ok(zone);
    }
    if let Some(zone) = zone_written(rt)? {
        return Ok(zone);
    }
    String::from_str(rt.alloc(), "UTC").map_err(|_| Failure::Memory)
}
