// The files of the folders that are among the files of a command.
use cj_program::Failure;
use std::fs::{FileType, metadata, read_dir};
use std::io::{Error, ErrorKind, Write};

// The most files that are taken of a folder, and the most folders that are looked into.
const MOST_FILES: usize = 10_000;

const MOST_FOLDERS: u32 = 10_000;

// The most levels of folders, one below the other; the folder that is named is the first.
const MOST_LEVELS: u32 = 32;

// What the names of the files end with.
const ENDINGS: &[&str] = &[".yaml", ".yml", ".json"];

/// The files of a command, where folders may be among them.
#[derive(Drop)]
pub enum Listing {
    /// No folder is among them.
    Plain,
    /// The files, with those of each folder in its place.
    Files(Vec<String>),
    /// The files of a folder can't be taken, as standard error says.
    Refused,
}

// Why the files of a folder aren't taken.
#[derive(Drop)]
enum Untaken {
    None,
    Many,
    Deep,
    Memory,
}

// A folder that is to be looked into.
#[derive(Drop)]
struct Below {
    // (what the names of its files begin with: its own name and a slash)
    prefix: String,
    level: u32,
}

// What is found in a folder, and which of its folders are to be looked into.
#[derive(Drop)]
struct Found {
    files: Vec<String>,
    folders: Vec<Below>,
}

impl Found {
    fn push_file(&mut self, name: String) -> Result<(), Untaken> {
        if self.files.len() >= MOST_FILES {
            return Err(Untaken::Many);
        }
        self.files.push(name).map_err(|_| Untaken::Memory)
    }

    fn push_folder(&mut self, prefix: String, level: u32) -> Result<(), Untaken> {
        if level > MOST_LEVELS {
            return Err(Untaken::Deep);
        }
        self.folders
            .push(Below { prefix, level })
            .map_err(|_| Untaken::Memory)
    }
}

// A text of two.
fn both(rt: &HostRuntime, first: &str, second: &str) -> Result<String, Untaken> {
    let mut text = String::from_str(rt.alloc(), first).map_err(|_| Untaken::Memory)?;
    text.push_str(second).map_err(|_| Untaken::Memory)?;
    Ok(text)
}

fn is_wanted(name: &str) -> bool {
    ENDINGS.iter().any(|ending| name.ends_with(*ending))
}

// Whether an entry is a file, or a link that leads to one. A link that leads nowhere counts as one:
// reading it says so.
fn is_file(rt: &HostRuntime, name: &str, kind: FileType) -> bool {
    if kind.is_symlink() {
        match metadata(rt, name) {
            Ok(target) => target.is_file(),
            Err(_) => true,
        }
    } else {
        kind.is_file()
    }
}

// Notes an entry of a folder: a folder, or a file that is looked at.
fn push_entry(
    rt: &HostRuntime,
    found: &mut Found,
    at: &Below,
    last: &str,
    kind: FileType,
) -> Result<(), Untaken> {
    let name = both(rt, at.prefix.as_str(), last)?;
    if kind.is_dir() {
        let prefix = both(rt, name.as_str(), "/")?;
        found.push_folder(prefix, at.level.saturating_add(1))
    } else if is_wanted(last) && is_file(rt, name.as_str(), kind) {
        found.push_file(name)
    } else {
        Ok(())
    }
}

// What an entry that can't be looked at is to its folder: it isn't seen whole. Want of memory ends
// the search.
fn seen_despite(error: &Error) -> Result<bool, Untaken> {
    match error.kind() {
        ErrorKind::OutOfMemory => Err(Untaken::Memory),
        _ => Ok(false),
    }
}

// Notes the entries of a folder, but for hidden ones; answers whether all of them could be looked
// at.
fn push_entries(rt: &HostRuntime, found: &mut Found, at: &Below) -> Result<bool, Untaken> {
    let entries = match read_dir(rt, at.prefix.as_str()) {
        Ok(entries) => entries,
        Err(error) => return seen_despite(&error),
    };
    let mut is_whole = true;
    for entry in entries {
        let entry = match entry {
            Ok(entry) => entry,
            Err(error) => {
                is_whole = seen_despite(&error)?;
                continue;
            }
        };
        let last = entry.file_name();
        if last.starts_with('.') {
            continue;
        }
        match entry.file_type() {
            Ok(kind) => push_entry(rt, found, at, last, kind)?,
            Err(error) => is_whole = seen_despite(&error)?,
        }
    }
    Ok(is_whole)
}

// The name of a folder, of what the names of its files begin with.
fn name_of(prefix: &str) -> &str {
    match prefix.strip_suffix('/') {
        Some(name) if !name.is_empty() => name,
        _ => prefix,
    }
}

// Looks into a folder. One whose entries can't all be looked at stands among the files, where
// reading it fails.
fn look_into(rt: &HostRuntime, found: &mut Found, at: &Below) -> Result<(), Untaken> {
    if push_entries(rt, found, at)? {
        return Ok(());
    }
    let name = both(rt, name_of(at.prefix.as_str()), "")?;
    found.push_file(name)
}

// Looks through a folder and all folders in it.
fn look_through(rt: &HostRuntime, found: &mut Found) -> Result<(), Untaken> {
    for _ in 0..MOST_FOLDERS {
        let Some(at) = found.folders.pop() else {
            return Ok(());
        };
        look_into(rt, found, &at)?;
    }
    Err(Untaken::Many)
}

// The files of a folder of that name, in the order of their names.
fn files_in(rt: &HostRuntime, name: &str) -> Result<Vec<String>, Untaken> {
    let mut found = Found {
        files: Vec::new(rt.alloc()),
        folders: Vec::new(rt.alloc()),
    };
    found.push_folder(both(rt, name.trim_end_matches('/'), "/")?, 1)?;
    look_through(rt, &mut found)?;
    let Found {
        mut files,
        folders: _,
    } = found;
    if files.is_empty() {
        return Err(Untaken::None);
    }
    files.sort_unstable();
    Ok(files)
}

fn is_folder(rt: &HostRuntime, name: &str) -> bool {
    name != "-" && metadata(rt, name).is_ok_and(|found| found.is_dir())
}

// Adds a file, or the files of a folder.
fn push_named(rt: &HostRuntime, files: &mut Vec<String>, name: &str) -> Result<(), Untaken> {
    if is_folder(rt, name) {
        let mut found = files_in(rt, name)?;
        return files.append(&mut found).map_err(|_| Untaken::Memory);
    }
    let name = both(rt, name, "")?;
    files.push(name).map_err(|_| Untaken::Memory)
}

// Says why the files of a folder aren't taken.
fn refuse(rt: &HostRuntime, name: &str, why: &Untaken) -> Result<Listing, Failure> {
    let err = &mut rt.stderr();
    let _ = match why {
        Untaken::None => writeln!(err, "{name}: no .yaml, .yml or .json file in it"),
        Untaken::Many => writeln!(
            err,
            "{name}: more than {MOST_FILES} files or folders in it, the most that are looked at"
        ),
        Untaken::Deep => writeln!(
            err,
            "{name}: more than {MOST_LEVELS} levels of folders in it, the most that are looked at"
        ),
        Untaken::Memory => return Err(Failure::Memory),
    };
    Ok(Listing::Refused)
}

/// The files of a command with those names, each folder replaced by its files.
pub fn files_listed(rt: &HostRuntime, names: &[&str]) -> Result<Listing, Failure> {
    if !names.iter().any(|name| is_folder(rt, name)) {
        return Ok(Listing::Plain);
    }
    let mut files = Vec::new(rt.alloc());
    for name in names {
        if let Err(why) = push_named(rt, &mut files, name) {
            return refuse(rt, name, &why);
        }
    }
    Ok(Listing::Files(files))
}
