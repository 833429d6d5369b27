// What people are told while a controller runs.
use cj_base::Seconds;
use cj_io::{Failure, write_and_flush, write_whole};
use cj_machine::Level;
use cj_zone::time_text;
use serde_json::json;
use std::alloc::{AllocError, Global};
use std::io::Write;

/// How lines are printed on standard error.
#[derive(Clone, Copy, Debug, Drop)]
pub struct Remarks<'a> {
    /// Whether each is a JSON value.
    pub is_json: bool,
    /// What tells this replica from others.
    pub replica: &'a str,
}

// The time of a line; empty before the clock was told.
fn time_of(alloc: Global, at: u64) -> Result<String, AllocError> {
    match Seconds::new(at) {
        Some(time) if at != 0 => time_text(alloc, time).map_err(|_| AllocError),
        _ => Ok(String::new(alloc)),
    }
}

fn json_line(
    alloc: Global,
    replica: &str,
    time: &str,
    level: Level,
    words: &str,
) -> Result<String, AllocError> {
    let value = json!(in alloc; {
        "level": level.name(),
        "message": words,
        "replica": replica,
        "time": time
    })?;
    let mut text = value.to_string(alloc)?;
    text.push_str("\n")?;
    Ok(text)
}

fn text_line(alloc: Global, time: &str, level: Level, words: &str) -> Result<String, AllocError> {
    let level = level.name();
    if time.is_empty() {
        format!(in alloc; "{level} {words}\n")
    } else {
        format!(in alloc; "{time} {level} {words}\n")
    }
}

// A line, written without memory.
fn write_bare<E: Write>(words: &str, err: &mut E) -> Result<(), Failure> {
    write_whole(err, words.as_bytes())?;
    write_and_flush(err, b"\n")
}

impl Remarks<'_> {
    fn line(
        &self,
        alloc: Global,
        at: u64,
        level: Level,
        words: &str,
    ) -> Result<String, AllocError> {
        let time = time_of(alloc, at)?;
        if self.is_json {
            json_line(alloc, self.replica, time.as_str(), level, words)
        } else {
            text_line(alloc, time.as_str(), level, words)
        }
    }

    /// Says a line with its time, in seconds since 1970, and its level, as far as standard error
    /// takes it; without memory its words alone.
    pub fn say<E: Write>(&self, alloc: Global, at: u64, level: Level, words: &str, err: &mut E) {
        let _ = match self.line(alloc, at, level, words) {
            Ok(line) => write_and_flush(err, line.as_bytes()),
            Err(_) => write_bare(words, err),
        };
    }
}
