// Whether a transcript is what this program does, line by line.
use crate::entries::Entry;
use cj_args::VERSION;
use cj_base::{Refusal, Text};
use cj_io::Failure;
use cj_machine::{ControlOptions, Machine, Secret};
use cj_zone::ZoneTable;
use std::alloc::Global;

/// What a line of a transcript is found to be.
#[derive(Drop)]
pub enum Verdict {
    /// What this program does, so far.
    Agrees,
    /// The same, and nothing behind it can be compared.
    Over,
    /// Something else: what this program does there, or nothing.
    Differs(Option<String>),
    /// The line has no place there.
    Misplaced,
    /// The transcript is of a form of this version, which is newer than what this program reads.
    Newer(u64),
}

/// This program, as it does again what a transcript has.
#[derive(Drop)]
pub struct Repeated {
    alloc: Global,
    secret: Secret,
    machine: Option<Machine>,
    zones: ZoneTable,
    due: Vec<String>,
    sent: usize,
    sought: Vec<Text>,
    found: usize,
    /// How many lines came in.
    pub lines: u64,
    /// How many requests went out.
    pub requests: u64,
    /// The version of the program that wrote the transcript, where it is another one.
    pub version: Option<Text>,
}

impl Repeated {
    /// It has read nothing.
    pub fn new(alloc: Global, secret: Secret) -> Result<Repeated, Failure> {
        Ok(Repeated {
            alloc,
            secret,
            machine: None,
            zones: ZoneTable::new(alloc)?,
            due: Vec::new(alloc),
            sent: 0,
            sought: Vec::new(alloc),
            found: 0,
            lines: 0,
            requests: 0,
            version: None,
        })
    }

    // What this program does next that the transcript must have, if anything.
    fn next_due(&self) -> Result<Option<String>, Failure> {
        if let Some(line) = self.due.get(self.sent) {
            return Ok(Some(line.clone()?));
        }
        match self.sought.get(self.found) {
            Some(name) => {
                let name = name.as_str();
                Ok(Some(format!(in self.alloc; "looks for the zone {name}")?))
            }
            None => Ok(None),
        }
    }

    fn begin(&mut self, version: Text, options: ControlOptions) -> Result<Verdict, Failure> {
        if self.machine.is_some() {
            return Ok(Verdict::Misplaced);
        }
        if version.as_str() != VERSION {
            self.version = Some(version);
        }
        self.machine = Some(Machine::new(self.alloc, options, self.secret)?);
        Ok(Verdict::Agrees)
    }

    fn hear(&mut self, line: &[u8]) -> Result<Verdict, Failure> {
        if let Some(due) = self.next_due()? {
            return Ok(Verdict::Differs(Some(due)));
        }
        let Some(machine) = &mut self.machine else {
            return Ok(Verdict::Misplaced);
        };
        machine.line(self.alloc, line, &self.zones)?;
        self.due = machine.take_out(self.alloc)?;
        let _ = machine.take_told(self.alloc);
        self.sought = machine.take_zones(self.alloc);
        self.sent = 0;
        self.found = 0;
        self.lines = self.lines.saturating_add(1);
        Ok(Verdict::Agrees)
    }

    fn send(&mut self, line: &[u8]) -> Result<Verdict, Failure> {
        if self.machine.is_none() {
            return Ok(Verdict::Misplaced);
        }
        let is_due = match self.due.get(self.sent) {
            Some(due) => due.as_bytes() == line,
            None => false,
        };
        if !is_due {
            return Ok(Verdict::Differs(self.next_due()?));
        }
        self.sent = self.sent.saturating_add(1);
        self.requests = self.requests.saturating_add(1);
        Ok(Verdict::Agrees)
    }

    fn find(&mut self, name: &Text, file: Option<&[u8]>) -> Result<Verdict, Failure> {
        let is_sought = self.sent == self.due.len()
            && match self.sought.get(self.found) {
                Some(sought) => sought.as_str() == name.as_str(),
                None => false,
            };
        if !is_sought {
            return Ok(Verdict::Differs(self.next_due()?));
        }
        self.found = self.found.saturating_add(1);
        if let Some(bytes) = file {
            if let Err(Refusal::OutOfMemory) = self.zones.add_file(name.as_str(), bytes) {
                return Err(Failure::Memory);
            }
        }
        Ok(Verdict::Agrees)
    }

    fn end(&self) -> Result<Verdict, Failure> {
        match self.next_due()? {
            Some(due) => Ok(Verdict::Differs(Some(due))),
            None if self.machine.is_none() => Ok(Verdict::Misplaced),
            None => Ok(Verdict::Over),
        }
    }

    /// Does what a line of the transcript says, and compares.
    pub fn take(&mut self, entry: Entry) -> Result<Verdict, Failure> {
        match entry {
            Entry::Start(version, options) => self.begin(version, options),
            Entry::Newer(_) if self.machine.is_some() => Ok(Verdict::Misplaced),
            Entry::Newer(form) => Ok(Verdict::Newer(form)),
            Entry::In(line) => self.hear(line.as_slice()),
            Entry::Out(line) => self.send(line.as_slice()),
            Entry::Zone(name, file) => match file {
                Some(file) => self.find(&name, Some(file.as_slice())),
                None => self.find(&name, None),
            },
            Entry::Wanting => Ok(Verdict::Over),
            Entry::End => self.end(),
        }
    }
}
