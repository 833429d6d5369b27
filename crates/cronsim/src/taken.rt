use crate::source::Files;
use cj_program::{Failure, JsonInput, is_bare_object, json_input};
use std::io::Write;

// How the line begins that counts objects of kinds that no command looks at.
const OTHERS: &str = "FILE: objects of other kinds, passed over: ";

/// What the commands take for the bytes of one of several files.
#[derive(Drop)]
pub struct Taken {
    pub bytes: Vec<u8>,
    /// How many objects of kinds that no command looks at are passed over.
    pub others: u64,
    /// Whether the file is passed over: it came with a folder, and has no object of Kubernetes.
    pub is_bare: bool,
}

/// How much is passed over in several files.
#[derive(Clone, Copy)]
pub struct Passed {
    /// How many objects of kinds that no command looks at.
    pub others: u64,
    /// How many files without an object of Kubernetes.
    pub bare: u64,
}

impl Passed {
    /// Nothing.
    pub const NOTHING: Passed = Passed { others: 0, bare: 0 };

    /// With what is passed over of a file.
    pub fn with(self, taken: &Taken) -> Passed {
        let bare = if taken.is_bare { 1 } else { 0 };
        Passed {
            others: self.others.saturating_add(taken.others),
            bare: self.bare.saturating_add(bare),
        }
    }
}

// Says lines to people.
fn say(rt: &HostRuntime, lines: &str) {
    let _ = rt.stderr().write_all(lines.as_bytes());
}

// Says lines to people, each behind the name of the file that they are about, but for the number of
// objects of other kinds.
fn say_of(rt: &HostRuntime, name: &str, lines: &str) {
    for line in lines.lines() {
        if !line.starts_with(OTHERS) {
            let rest = line.strip_prefix("FILE: ").unwrap_or(line);
            let _ = writeln!(&mut rt.stderr(), "{name}: {rest}");
        }
    }
}

// How many objects of other kinds the lines tell of.
fn others_in(lines: &str) -> u64 {
    for line in lines.lines() {
        if let Some(count) = line.strip_prefix(OTHERS) {
            return count.parse::<u64>().unwrap_or(0);
        }
    }
    0
}

/// Says what is passed over in several files, where something is.
pub fn tell_passed<W: Write>(passed: Passed, err: &mut W) {
    let Passed { others, bare } = passed;
    if bare > 0 {
        let _ = writeln!(
            err,
            "files without an object of Kubernetes, passed over: {bare}"
        );
    }
    if others > 0 {
        let _ = writeln!(
            err,
            "objects of other kinds in these files, passed over: {others}"
        );
    }
}

/// What the commands take for the bytes of an input: JSON of its objects. What there is to be said
/// of it goes to standard error.
pub fn json_of(rt: &HostRuntime, bytes: Vec<u8>) -> Result<Vec<u8>, Failure> {
    let JsonInput { bytes, said } = json_input(rt.alloc(), bytes)?;
    say(rt, said.as_str());
    Ok(bytes)
}

// Whether a text is nothing but blanks, comments and marks of YAML's documents.
fn says_nothing(bytes: &[u8]) -> bool {
    for line in bytes.split(|byte| *byte == b'\n') {
        let words = line.trim_ascii();
        let is_mark = words == b"---".as_slice();
        if !words.is_empty() && !is_mark && !words.starts_with(b"#") {
            return false;
        }
    }
    true
}

/// The same of one of several files, of which there is something to be said the first time.
pub fn named_json(
    rt: &HostRuntime,
    name: &str,
    bytes: Vec<u8>,
    files: Files,
    is_first: bool,
) -> Result<Taken, Failure> {
    let JsonInput { bytes, said } = json_input(rt.alloc(), bytes)?;
    let text = bytes.as_slice();
    let is_bare = files == Files::Listed
        && (says_nothing(text) || is_bare_object(rt.alloc(), text)?);
    if is_first {
        say_of(rt, name, said.as_str());
    }
    Ok(Taken {
        bytes,
        others: others_in(said.as_str()),
        is_bare,
    })
}
