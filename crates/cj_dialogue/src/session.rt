// A controller that runs.
use crate::options::{OptionFault, forms_of, is_placed, options_of};
use crate::prefix::{error_line, id_of};
use crate::recorder::Recorder;
use crate::remarks::Remarks;
use crate::zone_source::ZoneSource;
use cj_args::ControlRequest;
use cj_base::{Refusal, Text};
use cj_io::{ExitStatus, Failure, Kept, LineReader, Taken, write_and_flush, write_whole};
use cj_machine::{Level, Machine, Secret};
use cj_zone::ZoneTable;
use serde_json::json;
use std::alloc::Global;
use std::io::{Read, Write};

// The line at the end of the input.
const STOP: &[u8] = b"{\"stop\":true}";

// The line by which a transport asks what the controller has counted.
const ASK: &[u8] = b"{\"metrics\":true}";

const OUT_OF_MEMORY: &str = "out of memory: skipped work will be retried";

/// A controller with what it stands on.
#[derive(Drop)]
struct Session<'a, 'b, Z, T> {
    alloc: Global,
    machine: Machine,
    zones: ZoneTable,
    source: &'a mut Z,
    recorder: Recorder<T>,
    remarks: Remarks<'b>,
}

// The lines as one text, each with its end.
fn joined(alloc: Global, lines: &[String]) -> Result<String, Failure> {
    let mut text = String::new(alloc);
    for line in lines {
        text.push_str(line.as_str())?;
        text.push_str("\n")?;
    }
    Ok(text)
}

// Writes lines at once; without memory for that one after another.
fn write_lines<W: Write>(alloc: Global, lines: &[String], out: &mut W) -> Result<(), Failure> {
    if let Ok(text) = joined(alloc, lines) {
        return write_and_flush(out, text.as_bytes());
    }
    for line in lines {
        write_whole(out, line.as_bytes())?;
        write_whole(out, b"\n")?;
    }
    write_and_flush(out, b"")
}

impl<'a, 'b, Z: ZoneSource, T: Write + Drop> Session<'a, 'b, Z, T> {
    fn say<E: Write>(&self, level: Level, words: &str, err: &mut E) {
        let at = self.machine.local_time();
        self.remarks.say(self.alloc, at, level, words, err);
    }

    // Something that somebody should look at.
    fn warn<E: Write>(&self, words: &str, err: &mut E) {
        self.say(Level::Warning, words, err);
    }

    // Says that memory was wanting, and notes it.
    fn want<E: Write>(&mut self, err: &mut E) {
        self.recorder.wanting();
        self.warn(OUT_OF_MEMORY, err);
    }

    // Gives the machine a line.
    fn give(&mut self, line: &[u8]) -> Result<(), Refusal> {
        self.recorder.line("in", line);
        self.machine.line(self.alloc, line, &self.zones)
    }

    // Tells the machine in place of a line that no answer came to the request that the line is
    // about.
    fn give_error<E: Write>(&mut self, line: &[u8], cause: &str, err: &mut E) {
        let Some(id) = id_of(line) else {
            return;
        };
        let given = match error_line(self.alloc, id, cause) {
            Ok(text) => self.give(text.as_bytes()),
            Err(_) => Err(Refusal::OutOfMemory),
        };
        if given.is_err() {
            self.want(err);
        }
    }

    // Writes the transcript; one that can't be written is given up.
    fn record<E: Write>(&mut self, err: &mut E) {
        if self.recorder.write().is_err() {
            self.warn(
                "the transcript can't be written; it goes on without one",
                err,
            );
        }
    }

    // Writes the requests.
    fn send<W: Write, E: Write>(&mut self, out: &mut W, err: &mut E) -> Result<(), Failure> {
        let Ok(lines) = self.machine.take_out(self.alloc) else {
            self.want(err);
            return Ok(());
        };
        for line in &lines {
            self.recorder.line("out", line.as_bytes());
        }
        self.record(err);
        if lines.is_empty() {
            Ok(())
        } else {
            write_lines(self.alloc, lines.as_slice(), out)
        }
    }

    // Says what people are told.
    fn tell<E: Write>(&mut self, err: &mut E) {
        let lines = self.machine.take_told(self.alloc);
        for line in &lines {
            self.say(line.level, line.text.as_str(), err);
        }
    }

    // The line that tells what the controller has counted.
    fn measures(&self) -> Result<String, Refusal> {
        let value = self.machine.measures(self.alloc)?;
        let line = json!(in self.alloc; {"metrics": value})?;
        Ok(line.to_string(self.alloc)?)
    }

    // Tells the transport what the controller has counted. Of a transcript it is no part.
    fn tell_measures<W: Write, E: Write>(
        &mut self,
        out: &mut W,
        err: &mut E,
    ) -> Result<(), Failure> {
        match self.measures() {
            Ok(line) => write_lines(self.alloc, &[line], out),
            Err(_) => {
                self.want(err);
                Ok(())
            }
        }
    }

    // Puts a zone into the table, if it has a file.
    fn add_zone(&mut self, name: &Text) -> Result<(), Failure> {
        let found = self.source.find(name.as_str())?;
        let file = found.as_ref().map(|bytes| bytes.as_slice());
        self.recorder.zone(name.as_str(), file);
        match file {
            Some(bytes) => match self.zones.add_file(name.as_str(), bytes) {
                Err(Refusal::OutOfMemory) => Err(Failure::Memory),
                _ => Ok(()),
            },
            None => Ok(()),
        }
    }

    // Puts the zones into the table that the machine asks for.
    fn add_zones<E: Write>(&mut self, err: &mut E) {
        let names = self.machine.take_zones(self.alloc);
        if names.is_empty() {
            return;
        }
        for name in &names {
            if self.add_zone(name).is_err() {
                self.want(err);
            }
        }
        self.record(err);
    }

    // What follows after a line.
    fn go_on<W: Write, E: Write>(&mut self, out: &mut W, err: &mut E) -> Result<(), Failure> {
        self.send(out, err)?;
        self.tell(err);
        self.add_zones(err);
        Ok(())
    }

    // Hears a line.
    fn hear<W: Write, E: Write>(
        &mut self,
        line: &[u8],
        out: &mut W,
        err: &mut E,
    ) -> Result<(), Failure> {
        if self.give(line).is_err() {
            self.want(err);
            self.give_error(line, "out of memory", err);
        }
        self.go_on(out, err)
    }

    // Hears of a line that was not kept.
    fn miss<W: Write, E: Write>(
        &mut self,
        line: &[u8],
        kept: Kept,
        out: &mut W,
        err: &mut E,
    ) -> Result<(), Failure> {
        if kept == Kept::TooLong {
            self.warn("a line of more than 67108864 bytes is left out", err);
            self.give_error(line, "an answer of more than 67108864 bytes", err);
        } else {
            self.want(err);
            self.give_error(line, "out of memory", err);
        }
        self.go_on(out, err)
    }

    // The end.
    fn end<E: Write>(&mut self, err: &mut E) {
        self.recorder.end();
        self.record(err);
    }

    // Hears what the reader has; whether there is more to hear.
    fn step<R: Read, W: Write, E: Write>(
        &mut self,
        reader: &mut LineReader,
        input: &mut R,
        out: &mut W,
        err: &mut E,
    ) -> Result<bool, Failure> {
        if reader.read_line(self.alloc, input)? == Taken::End {
            self.hear(STOP, out, err)?;
            return Ok(false);
        }
        match reader.kept() {
            Kept::Whole if reader.line() == ASK => self.tell_measures(out, err)?,
            Kept::Whole => self.hear(reader.line(), out, err)?,
            kept => self.miss(reader.line(), kept, out, err)?,
        }
        Ok(!self.machine.is_done())
    }

    // Runs to the end.
    fn run<R: Read, W: Write, E: Write>(
        &mut self,
        reader: &mut LineReader,
        input: &mut R,
        out: &mut W,
        err: &mut E,
    ) -> Result<(), Failure> {
        for _ in 0..u64::MAX {
            if !self.step(reader, input, out, err)? {
                break;
            }
        }
        self.end(err);
        if self.machine.is_done() {
            return Ok(());
        }
        self.warn("the input ended before all was answered", err);
        Err(Failure::Device)
    }
}

/// Runs a controller on the lines of an input until it is told to stop and has ended, or the input
/// ends, which is a stop too. A line's requests are written at once, and flushed, before the next
/// line is read; then what people are told.
///
/// `Refused` where an option is, `Success` at the end. `Device` where reading or writing fails, or
/// where the input ends while a sync waits for an answer; `Memory` where memory was wanting at the
/// start. Later that is said, and the controller goes on.
pub fn run_session<Z: ZoneSource, T: Write + Drop, R: Read, W: Write, E: Write>(
    alloc: Global,
    control: &ControlRequest<'_>,
    secret: Secret,
    source: &mut Z,
    transcript: Option<T>,
    input: &mut R,
    out: &mut W,
    err: &mut E,
) -> Result<ExitStatus, Failure> {
    let forms = if is_placed(alloc, control)? {
        forms_of(control)
    } else {
        Err(OptionFault::Namespace)
    };
    let (api, is_json) = match forms {
        Ok(forms) => forms,
        Err(fault) => {
            write_whole(err, fault.line().as_bytes())?;
            write_whole(err, fault.explained().as_bytes())?;
            return Ok(ExitStatus::Refused);
        }
    };
    let options = options_of(alloc, control, api)?;
    let mut recorder = Recorder::new(alloc, transcript);
    recorder.start(&options);
    recorder.write()?;
    let mut session = Session {
        alloc,
        machine: Machine::new(alloc, options, secret)?,
        zones: ZoneTable::new(alloc)?,
        source,
        recorder,
        remarks: Remarks {
            is_json,
            replica: control.replica.unwrap_or(""),
        },
    };
    let mut reader = LineReader::new(alloc)?;
    session.run(&mut reader, input, out, err)?;
    Ok(ExitStatus::Success)
}
