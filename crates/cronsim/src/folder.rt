use crate::shown_zone::clock_of;
use cj_program::{
    Failure, FileBytes, MOST_READS, Request, Text, ZoneFile, crontab_zones, is_file_name,
    read_input, zones_named,
};
use memchr::memmem;
use std::env;
use std::env::VarError;
use std::fs::File;

// The most bytes of a zone file.
const MOST_ZONE_BYTES: usize = 1_048_576;

/// The file of a zone in the folder; none where there is no such file, or it is too large to be
/// one.
pub fn file_of(rt: &HostRuntime, folder: &str, name: &str) -> Result<Option<ZoneFile>, Failure> {
    let alloc = rt.alloc();
    let path = format!(in alloc; "{folder}/{name}")?;
    let Ok(mut file) = File::open(rt, path.as_str()) else {
        return Ok(None);
    };
    match read_input(alloc, &mut file, MOST_ZONE_BYTES, MOST_READS) {
        Ok(bytes) => Ok(Some(ZoneFile {
            name: Text::new(alloc, name)?,
            bytes: FileBytes::from_vec(bytes),
        })),
        Err(Failure::Memory) => Err(Failure::Memory),
        Err(_) => Ok(None),
    }
}

// Adds the file of a zone, where the zone's name leads to one in the folder. No folder has the
// empty name.
fn push_file(
    rt: &HostRuntime,
    files: &mut Vec<ZoneFile>,
    folder: &str,
    name: &str,
) -> Result<(), Failure> {
    if !folder.is_empty() && is_file_name(name) {
        if let Some(file) = file_of(rt, folder, name)? {
            files.push(file)?;
        }
    }
    Ok(())
}

/// The folder that the environment names, if it does.
pub fn folder_set(rt: &HostRuntime) -> Result<Option<String>, Failure> {
    match env::var(rt, "CRONSIM_ZONEINFO") {
        Ok(folder) => Ok(Some(folder)),
        Err(VarError::OutOfMemory) => Err(Failure::Memory),
        Err(_) => Ok(None),
    }
}

/// The file of the zone of that name in the folder, if there is one.
pub fn named_file(rt: &HostRuntime, folder: &str, name: &str) -> Result<Vec<ZoneFile>, Failure> {
    let mut files = Vec::new(rt.alloc());
    push_file(rt, &mut files, folder, name)?;
    Ok(files)
}

// Whether JSON may have a member `timeZone`: if it has the name as it is, or an escape that may
// stand for a letter of it.
fn may_name_zones(input: &[u8]) -> bool {
    memmem::find(input, b"timeZone").is_some() || memmem::find(input, b"\\u").is_some()
}

/// Adds the files of the zones that an input names, but for zones that have one already.
pub fn push_input_files(
    rt: &HostRuntime,
    files: &mut Vec<ZoneFile>,
    folder: &str,
    input: &[u8],
) -> Result<(), Failure> {
    if !may_name_zones(input) {
        return Ok(());
    }
    let names = zones_named(rt.alloc(), input)?;
    for name in names.as_slice() {
        let name = name.as_str();
        let is_there = files.iter().any(|file| file.name.as_str() == name);
        if !is_there {
            push_file(rt, files, folder, name)?;
        }
    }
    Ok(())
}

// Whether a zone has a file here.
fn has_file(files: &[ZoneFile], name: &str) -> bool {
    files.iter().any(|file| file.name.as_str() == name)
}

/// Whether a word gives a zone of that name its rule.
pub fn is_rule_of(word: &str, name: &str) -> bool {
    match word.split_once('=') {
        Some((of, _)) => of == name,
        None => false,
    }
}

// Whether one of these words gives a zone its rule.
fn has_rule(rules: &[&str], name: &str) -> bool {
    rules.iter().any(|word| is_rule_of(word, name))
}

// Adds the file of a zone, unless it has one already or a rule.
fn push_fresh(
    rt: &HostRuntime,
    files: &mut Vec<ZoneFile>,
    folder: &str,
    rules: &[&str],
    name: &str,
) -> Result<(), Failure> {
    if has_file(files.as_slice(), name) || has_rule(rules, name) {
        return Ok(());
    }
    push_file(rt, files, folder, name)
}

/// Adds the file of the zone by whose clock times are printed, unless it has one already or a rule.
pub fn push_clock_file(
    rt: &HostRuntime,
    files: &mut Vec<ZoneFile>,
    folder: &str,
    rules: &[&str],
    zone: Option<&str>,
) -> Result<(), Failure> {
    match zone {
        Some(zone) if zone != "UTC" => push_fresh(rt, files, folder, rules, zone),
        _ => Ok(()),
    }
}

/// The files of the zones that a crontab and its request name.
pub fn crontab_files(
    rt: &HostRuntime,
    request: &Request<'_>,
    folder: &str,
    input: &[u8],
) -> Result<Vec<ZoneFile>, Failure> {
    let mut files = Vec::new(rt.alloc());
    let Request::Crontab(crontab) = request else {
        return Ok(files);
    };
    let rules = crontab.zones.rules.as_slice();
    let name = crontab.time_zone.unwrap_or("");
    push_fresh(rt, &mut files, folder, rules, name)?;
    let names = crontab_zones(rt.alloc(), input)?;
    for name in names.as_slice() {
        push_fresh(rt, &mut files, folder, rules, name.as_str())?;
    }
    Ok(files)
}

/// The files of the zones that the input names.
pub fn input_files(rt: &HostRuntime, folder: &str, input: &[u8]) -> Result<Vec<ZoneFile>, Failure> {
    let mut files = Vec::new(rt.alloc());
    push_input_files(rt, &mut files, folder, input)?;
    Ok(files)
}

/// The files of the zones that the input names, and of the one by whose clock times are printed.
pub fn request_files(
    rt: &HostRuntime,
    request: &Request<'_>,
    folder: &str,
    input: &[u8],
) -> Result<Vec<ZoneFile>, Failure> {
    let mut files = input_files(rt, folder, input)?;
    let (Some(clock), Some(zones)) = (clock_of(request), request.zones()) else {
        return Ok(files);
    };
    push_clock_file(rt, &mut files, folder, zones.rules.as_slice(), clock.zone)?;
    Ok(files)
}
