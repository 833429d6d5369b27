// The lines of a crontab that say something.
ghost use Rattle.std.specs.Prelude.{◌≡◌, ◌++◌, ◌∷◌, ℕ, List, [], None, IfOk, OnOk, if◌then◌else◌, length, nat_lt};
ghost use Rattle.std.specs.List.{list_any};
ghost use Rattle.cj_check.specs.Crontab.{Adds, AddsOne, AreEntries, IsLine, is_refused, is_silent, without_blanks};

use crate::crontab::environment::Environment;
use crate::crontab::fault::{LineError, LineFault};
use crate::crontab::line::{Line, line_of};
use crate::crontab::pieces::first_line;
use crate::crontab::setting::Setting;
use cj_zone::ZoneTable;
use std::alloc::{AllocError, Global};

// The most lines that say something.
const MOST_LINES: usize = 100_000;

/// How a crontab is to be read.
#[derive(Clone, Copy)]
pub(crate) struct Form<'a> {
    /// Whether a user stands before each command.
    pub system: bool,
    /// The zone of its machine, if it is known.
    pub zone: Option<&'a str>,
}

/// A line that says something.
#[derive(Debug, Drop)]
pub(crate) struct Entry<'a> {
    /// Its number, from 1.
    pub number: usize,
    pub line: Line<'a>,
    /// The zone by whose clock cron goes there, if it is known.
    pub zone: Option<&'a str>,
}

/// Lines that are being read.
#[derive(Drop)]
struct Reading<'a> {
    entries: Vec<Entry<'a>>,
    environment: Environment<'a>,
    form: Form<'a>,
    zone: Option<&'a str>,
}

// The bytes without the blanks in front.
fn without_blanks(bytes: &[u8]) -> &[u8]
    ensures { result.now ≡ without_blanks bytes.now }
{
    let mut rest = bytes;
    while let [b' ' | b'\t', more @ ..] = rest {
        rest = more;
    }
    rest
}

// Whether a line says nothing: it is blank, or a comment.
fn is_silent(line: &[u8]) -> bool
    ensures { result ≡ is_silent line.now }
{
    matches!(line, [] | [b'#', ..])
}

impl<'a> Reading<'a> {
    fn push_entry(&mut self, entry: Entry<'a>) -> Result<(), AllocError>
        ensures { OnOk result (self.new.entries.items ≡ self.old.entries.items
            ++ (entry.entry ∷ [])) }
    {
        self.entries.push(entry).map_err(AllocError::from)
    }

    // Adds an entry for the line of that number and text.
    fn push(&mut self, number: usize, text: &'a [u8], line: Line<'a>) -> Result<(), AllocError>
        requires { IsLine text.now line }
        ensures { OnOk result (AddsOne (number, text.now) self.old.entries.items
            self.new.entries.items) }
    {
        let entry = Entry {
            number,
            line,
            zone: self.zone,
        };
        self.push_entry(entry)
    }

    // From here on cron goes by the clock of that zone.
    fn set_zone(&mut self, zones: &ZoneTable, name: &'a str) -> Option<LineFault>
        ensures { self.new.entries ≡ self.old.entries }
    {
        self.zone = if name.is_empty() {
            self.form.zone
        } else {
            Some(name)
        };
        if name.is_empty() || zones.get(name).is_some() {
            return None;
        }
        self.zone = None;
        Some(LineFault::Zone)
    }

    fn set(&mut self, zones: &ZoneTable, setting: Setting<'a>) -> Result<Line<'a>, AllocError>
        ensures line { IfOk result (λ l. (text : List ℕ) → IsLine text l) }
        ensures entries { self.new.entries ≡ self.old.entries }
    {
        if !self.environment.set(setting)? {
            return Ok(Line::Refused(LineFault::Variables));
        }
        if setting.name == "CRON_TZ" {
            if let Some(fault) = self.set_zone(zones, setting.value) {
                return Ok(Line::Refused(fault));
            }
        }
        Ok(Line::Setting(setting))
    }

    // What a line says, on the lines above.
    fn line(
        &mut self,
        alloc: Global,
        zones: &ZoneTable,
        bytes: &'a [u8],
    ) -> Result<Line<'a>, AllocError>
        ensures line { IfOk result (IsLine bytes.now) }
        ensures entries { self.new.entries ≡ self.old.entries }
    {
        let Ok(text) = str::from_utf8(bytes) else {
            return Ok(Line::Refused(LineFault::NotUtf8));
        };
        match line_of(alloc, text, self.form.system) {
            Ok(Line::Setting(setting)) => self.set(zones, setting),
            Ok(line) => Ok(line),
            Err(LineError::Fault(fault)) => Ok(Line::Refused(fault)),
            Err(LineError::OutOfMemory) => Err(AllocError),
        }
    }

    // What a line says, if there aren't too many before it.
    fn line_in_turn(
        &mut self,
        alloc: Global,
        zones: &ZoneTable,
        bytes: &'a [u8],
    ) -> Result<Line<'a>, AllocError>
        ensures line { IfOk result (IsLine bytes.now) }
        ensures entries { self.new.entries ≡ self.old.entries }
    {
        if self.entries.len() < MOST_LINES {
            self.line(alloc, zones, bytes)
        } else {
            Ok(Line::Refused(LineFault::Lines))
        }
    }

    // Reads a line, if it says something.
    fn read(
        &mut self,
        alloc: Global,
        zones: &ZoneTable,
        number: usize,
        bytes: &'a [u8],
    ) -> Result<(), AllocError>
        ensures { OnOk result (Adds number bytes.now self.old.entries.items
            self.new.entries.items) }
    {
        let bytes = without_blanks(bytes);
        if is_silent(bytes) {
            return Ok(());
        }
        let line = self.line_in_turn(alloc, zones, bytes)?;
        self.push(number, bytes, line)
    }

    // What is to be read of what is behind a line: nothing once there is an entry too many.
    fn left<'b>(&self, behind: Option<&'b [u8]>) -> Option<&'b [u8]>
        ensures { result ≡ (if nat_lt 100_000 (length self.now.entries.items) then None
            else behind.entry) }
    {
        if self.entries.len() > MOST_LINES {
            None
        } else {
            behind
        }
    }
}

/// The lines of a crontab that say something, in their order. A line that is refused doesn't stop
/// the reading; after the first 100,000 one more is refused, and no other is read.
#[tactic(auto, using(crate::proofs::CrontabLines::begins, crate::proofs::CrontabLines::reads_on, crate::proofs::CrontabLines::read_whole, crate::proofs::CrontabLines::number_fits, crate::proofs::CrontabLines::fewer_lines))]
pub(crate) fn entries_of<'a>(
    alloc: Global,
    form: Form<'a>,
    zones: &ZoneTable,
    bytes: &'a [u8],
) -> Result<Vec<Entry<'a>>, AllocError>
    ensures { IfOk result (λ v. AreEntries bytes.now v.items) }
{
    let mut reading = Reading {
        entries: Vec::new(alloc),
        environment: Environment::new(alloc),
        form,
        zone: form.zone,
    };
    let mut rest = Some(bytes);
    let mut number = 0;
    while let Some(text) = rest {
        let (line, behind) = first_line(text);
        number += 1;
        reading.read(alloc, zones, number, line)?;
        rest = reading.left(behind);
    }
    let Reading { entries, .. } = reading;
    Ok(entries)
}

/// Whether a line is refused.
pub(crate) fn is_refused(entry: &Entry<'_>) -> bool
    ensures { result ≡ is_refused entry.now }
{
    matches!(entry.line, Line::Refused(_))
}

/// Whether one of the lines is refused.
pub(crate) fn refuses(entries: &[Entry<'_>]) -> bool
    ensures { result ≡ list_any is_refused entries.now }
{
    entries.iter().any(|entry| is_refused(entry))
}
