// The names of zones in the words and in the input, and in the folder.
use crate::folder::named_file;
use crate::shown_zone::clock_of;
use crate::telling::{Served, at_terminal};
use cj_program::{ExitStatus, Failure, Request, ZoneFile, nearest_zone, zones_named};
use std::fs::{metadata, read_dir};
use std::io::Write;

// The words on zones but for those that are names of zones in the folder: these need no rule, since
// the zones that an input names are read from there.
fn rules_of<'a>(
    rt: &HostRuntime,
    folder: &str,
    words: &[&'a str],
) -> Result<Vec<&'a str>, Failure> {
    let mut rules = Vec::new(rt.alloc());
    for word in words {
        if named_file(rt, folder, word)?.is_empty() {
            rules.push(*word)?;
        }
    }
    Ok(rules)
}

// Leaves out of these words those that are names of zones in the folder.
fn leave_out(rt: &HostRuntime, folder: &str, words: &mut Vec<&str>) -> Result<(), Failure> {
    let rules = rules_of(rt, folder, words.as_slice())?;
    *words = rules;
    Ok(())
}

/// Leaves out of the words of `--zone NAME=RULE` those that are names of zones in the folder.
pub fn without_names(
    rt: &HostRuntime,
    request: &mut Request<'_>,
    folder: &str,
) -> Result<(), Failure> {
    match request {
        Request::Check(check) => leave_out(rt, folder, &mut check.zones.rules),
        Request::Plan(plan) => leave_out(rt, folder, &mut plan.zones.rules),
        Request::Replay(replay) => leave_out(rt, folder, &mut replay.zones.rules),
        Request::Run(run) => leave_out(rt, folder, &mut run.zones.rules),
        Request::Why(why) => leave_out(rt, folder, &mut why.zones.rules),
        Request::Audit(audit) => leave_out(rt, folder, &mut audit.zones.rules),
        Request::Upcoming(upcoming) => leave_out(rt, folder, &mut upcoming.zones.rules),
        Request::Report(report) => leave_out(rt, folder, &mut report.zones.rules),
        Request::Crontab(crontab) => leave_out(rt, folder, &mut crontab.zones.rules),
        Request::Scenario(scenario) => leave_out(rt, folder, &mut scenario.zones.rules),
        _ => Ok(()),
    }
}

// The most folders that are looked into for names.
const MOST_FOLDERS: u32 = 1_000;

// Whether a file or a folder may have the name of a zone, or begin it: those of other forms of the
// zones, `posix` and `right`, don't.
fn may_name_zone(name: &str) -> bool {
    name.as_bytes()
        .first()
        .is_some_and(|byte| byte.is_ascii_uppercase())
}

// The names of the files in a folder of zones, and in the place of its folders theirs to look into.
fn push_names(
    rt: &HostRuntime,
    folder: &str,
    below: &str,
    names: &mut Vec<String>,
    folders: &mut Vec<String>,
) -> Result<(), Failure> {
    let alloc = rt.alloc();
    let path = format!(in alloc; "{folder}/{below}")?;
    let Ok(entries) = read_dir(rt, path.as_str()) else {
        return Ok(());
    };
    for entry in entries {
        let Ok(entry) = entry else {
            continue;
        };
        let last = entry.file_name();
        if !may_name_zone(last) {
            continue;
        }
        let is_folder = entry.file_type().is_ok_and(|kind| kind.is_dir());
        if is_folder {
            let name = format!(in alloc; "{below}{last}/")?;
            folders.push(name).map_err(|_| Failure::Memory)?;
        } else {
            let name = format!(in alloc; "{below}{last}")?;
            names.push(name).map_err(|_| Failure::Memory)?;
        }
    }
    Ok(())
}

// The names of all zones in a folder.
fn names_in(rt: &HostRuntime, folder: &str) -> Result<Vec<String>, Failure> {
    let mut names = Vec::new(rt.alloc());
    let mut folders = Vec::new(rt.alloc());
    push_names(rt, folder, "", &mut names, &mut folders)?;
    for _ in 0..MOST_FOLDERS {
        let Some(below) = folders.pop() else {
            return Ok(names);
        };
        push_names(rt, folder, below.as_str(), &mut names, &mut folders)?;
    }
    Ok(names)
}

// A name that is asked for, and what asks for it.
#[derive(Drop)]
struct AskedZone {
    by: &'static str,
    name: String,
}

fn push_asked(
    rt: &HostRuntime,
    asked: &mut Vec<AskedZone>,
    by: &'static str,
    name: &str,
) -> Result<(), Failure> {
    let name = String::from_str(rt.alloc(), name)?;
    asked
        .push(AskedZone { by, name })
        .map_err(|_| Failure::Memory)
}

// The zones that one schedule is asked about in.
fn push_words(
    rt: &HostRuntime,
    asked: &mut Vec<AskedZone>,
    zone: Option<&str>,
    name: Option<&str>,
) -> Result<(), Failure> {
    if let Some(zone) = zone {
        push_asked(rt, asked, "--zone", zone)?;
    }
    if let Some(name) = name {
        push_asked(rt, asked, "--time-zone", name)?;
    }
    Ok(())
}

// Whether the words have a rule for the name.
fn has_rule(words: &[&str], name: &str) -> bool {
    words.iter().any(|word| word.split_once('=').is_some_and(|(of, _)| of == name))
}

// The zones that an input names, and those of the words that have no rule.
fn push_named(
    rt: &HostRuntime,
    asked: &mut Vec<AskedZone>,
    words: &[&str],
    input: &[u8],
) -> Result<(), Failure> {
    for word in words {
        if !word.contains('=') {
            push_asked(rt, asked, "--zone", word)?;
        }
    }
    let names = zones_named(rt.alloc(), input)?;
    for name in names.as_slice() {
        let name = name.as_str();
        if !has_rule(words, name) {
            push_asked(rt, asked, "spec.timeZone", name)?;
        }
    }
    Ok(())
}

// The zones that a request asks for by name.
fn asked_zones(
    rt: &HostRuntime,
    request: &Request<'_>,
    input: &[u8],
) -> Result<Vec<AskedZone>, Failure> {
    let mut asked = Vec::new(rt.alloc());
    match request {
        Request::Next(next) => push_words(rt, &mut asked, next.zone, next.time_zone)?,
        Request::Describe(describe) if describe.is_in_file() => {
            push_named(rt, &mut asked, &[], input)?;
        }
        Request::Describe(describe) => {
            push_words(rt, &mut asked, describe.zone, describe.time_zone)?;
        }
        Request::Previous(previous) => {
            push_words(rt, &mut asked, previous.zone, previous.time_zone)?;
        }
        _ => {
            if let Some(zones) = request.zones() {
                push_named(rt, &mut asked, zones.rules.as_slice(), input)?;
            }
        }
    }
    Ok(asked)
}

// The zone by whose clock times are printed, where a name alone says which.
fn push_clock(
    rt: &HostRuntime,
    asked: &mut Vec<AskedZone>,
    request: &Request<'_>,
) -> Result<(), Failure> {
    let Some(clock) = clock_of(request) else {
        return Ok(());
    };
    let by = if clock.is_local {
        "--local"
    } else {
        "--time-zone"
    };
    match clock.zone {
        Some(zone) if !zone.contains('=') && !zone.contains(',') => {
            push_asked(rt, asked, by, zone)
        }
        _ => Ok(()),
    }
}

// Whether the name is one of UTC, or of a zone whose file was read.
fn is_known(name: &str, files: &[ZoneFile]) -> bool {
    name == "UTC" || name == "Etc/UTC" || files.iter().any(|file| file.name.as_str() == name)
}

// Whether a text is a distance from UTC, as `UTC+2` or `+02:00`.
fn is_distance(name: &str) -> bool {
    let behind = name.strip_prefix("UTC").unwrap_or(name);
    let behind = behind.strip_prefix("GMT").unwrap_or(behind);
    behind.starts_with('+') || behind.starts_with('-')
}

// Whether a text may be what a clock shows beside its time, as `BST`.
fn is_abbreviation(name: &str) -> bool {
    name.len() <= 5 && name.as_bytes().iter().all(|byte| byte.is_ascii_uppercase())
}

// What people may write in the place of a name that names no zone.
fn hint_of(name: &str) -> &'static str {
    if is_distance(name) {
        "; Etc/GMT-2 is two hours ahead of UTC all year"
    } else if is_abbreviation(name) {
        "; an abbreviation is of no one zone: want a name like Europe/London"
    } else {
        ""
    }
}

// Says which zones aren't known, and which may be meant.
fn tell_unknown(
    rt: &HostRuntime,
    folder: &str,
    files: &[ZoneFile],
    asked: &[AskedZone],
) -> Result<(), Failure> {
    let names = names_in(rt, folder)?;
    let err = &mut rt.stderr();
    for AskedZone { by, name } in asked {
        let name = name.as_str();
        if is_known(name, files) {
            continue;
        }
        let hint = hint_of(name);
        let meant = if hint.is_empty() {
            nearest_zone(rt.alloc(), name, names.as_slice())?
        } else {
            None
        };
        let _ = match meant {
            Some(meant) => {
                writeln!(
                    err,
                    "{by}: no zone {name} in {folder}; did you mean {meant}?"
                )
            }
            None => writeln!(err, "{by}: no zone {name} in {folder}{hint}"),
        };
    }
    Ok(())
}

// Whether a zone is why a request was refused.
fn lacks_zone(served: &Served) -> bool {
    served.said.as_slice().starts_with(b"cronsim: zone\n")
}

// Whether people are to be told of a zone that may be why a request was refused. One on a schedule
// says itself whether that was so.
fn may_lack_zone(rt: &HostRuntime, request: &Request<'_>, served: &Served) -> bool {
    let is_wanted = request.explains() || at_terminal(rt);
    let is_refused = served.status == ExitStatus::Refused;
    let is_input = request.zones().is_some() || request.file().is_some();
    is_wanted && is_refused && (lacks_zone(served) || is_input && !served.is_of_words())
}

/// Says to people which zones a refused request asks for and nobody knows: that there is no folder
/// of zones, or which zone of the folder may be meant.
pub fn tell_zones(
    rt: &HostRuntime,
    request: &Request<'_>,
    served: &Served,
    folder: &str,
    files: &[ZoneFile],
    input: &[u8],
) -> Result<(), Failure> {
    if folder.is_empty() || !may_lack_zone(rt, request, served) {
        return Ok(());
    }
    let mut asked = asked_zones(rt, request, input)?;
    if lacks_zone(served) {
        push_clock(rt, &mut asked, request)?;
    }
    let is_lacking = asked
        .iter()
        .any(|zone| !is_known(zone.name.as_str(), files));
    if !is_lacking {
        return Ok(());
    }
    if metadata(rt, folder).is_ok_and(|found| found.is_dir()) {
        tell_unknown(rt, folder, files, asked.as_slice())
    } else {
        let _ = writeln!(
            &mut rt.stderr(),
            "--zoneinfo: there is no folder {folder}, where zones are looked up by their names; Debian's package tzdata has /usr/share/zoneinfo"
        );
        Ok(())
    }
}
