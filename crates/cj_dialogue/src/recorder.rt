// The transcript of a controller as it is written.
use crate::entries::{END, WANTING, push_line, push_start, push_zone};
use cj_io::{Failure, write_and_flush};
use cj_machine::ControlOptions;
use std::alloc::Global;
use std::io::Write;

/// A transcript, if one is wanted: what came in and went out since it was written last.
#[derive(Drop)]
pub struct Recorder<T> {
    alloc: Global,
    file: Option<T>,
    text: Vec<u8>,
    is_wanting: bool,
}

// What is written: the text, or that memory was wanting.
fn written_bytes<'x>(is_wanting: bool, text: &'x [u8]) -> &'x [u8] {
    if is_wanting { WANTING } else { text }
}

impl<T: Write + Drop> Recorder<T> {
    /// A transcript that has nothing yet.
    pub fn new(alloc: Global, file: Option<T>) -> Recorder<T> {
        Recorder {
            alloc,
            file,
            text: Vec::new(alloc),
            is_wanting: false,
        }
    }

    // Notes whether what was added was added.
    fn note(&mut self, added: Result<(), Failure>) {
        if added.is_err() {
            self.is_wanting = true;
        }
    }

    /// The beginning.
    pub fn start(&mut self, options: &ControlOptions) {
        if self.file.is_some() {
            let added = push_start(self.alloc, &mut self.text, options);
            self.note(added);
        }
    }

    /// What came in or went out.
    pub fn line(&mut self, key: &str, line: &[u8]) {
        if self.file.is_some() {
            let added = push_line(self.alloc, &mut self.text, key, line);
            self.note(added);
        }
    }

    /// A zone with its file.
    pub fn zone(&mut self, name: &str, file: Option<&[u8]>) {
        if self.file.is_some() {
            let added = push_zone(self.alloc, &mut self.text, name, file);
            self.note(added);
        }
    }

    /// Memory was wanting.
    pub fn wanting(&mut self) {
        self.is_wanting = true;
    }

    /// The end.
    pub fn end(&mut self) {
        if self.file.is_some() {
            let added = self.text.extend_from_slice(END).map_err(Failure::from);
            self.note(added);
        }
    }

    /// Writes what was added. Where memory was wanting, that is written in its place.
    ///
    /// Where writing fails, nothing more is written from then on.
    pub fn write(&mut self) -> Result<(), Failure> {
        let Some(file) = &mut self.file else {
            return Ok(());
        };
        let bytes = written_bytes(self.is_wanting, self.text.as_slice());
        let written = write_and_flush(file, bytes);
        self.text.clear();
        self.is_wanting = false;
        if written.is_err() {
            self.file = None;
        }
        written
    }
}
