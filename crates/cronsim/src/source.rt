use std::fs::File;
use std::io;
use std::io::{ErrorKind, Read, Stdin};

/// Where bytes come from.
#[derive(Drop)]
enum Source {
    Standard(Stdin),
    File(File),
    /// A file that could not be opened, or is a directory, for this cause: every read fails.
    Unopened(ErrorKind),
    /// Several files, each of which is opened when its turn comes: every read fails here.
    Several(Files),
}

/// Where the names of several files come from.
#[derive(Clone, Copy, Debug, PartialEq, Eq)]
pub enum Files {
    /// Each is named by a word.
    Named,
    /// A folder is among the words, and stands for the files in it.
    Listed,
}

/// What a command reads, and how many bytes of it were read.
#[derive(Drop)]
pub struct Input {
    source: Source,
    count: usize,
}

impl Input {
    /// The file of that name; standard input where it is `-`, or none is named.
    pub fn open(rt: &HostRuntime, name: Option<&str>) -> Input {
        let source = match name {
            None | Some("-") => Source::Standard(rt.stdin()),
            Some(name) => match File::open(rt, name) {
                Ok(file) => Source::File(file),
                Err(error) => Source::Unopened(error.kind()),
            },
        };
        Input { source, count: 0 }
    }

    /// That of several files.
    pub fn several(files: Files) -> Input {
        Input {
            source: Source::Several(files),
            count: 0,
        }
    }

    /// An input whose every read fails.
    pub fn unreadable() -> Input {
        Input {
            source: Source::Unopened(ErrorKind::Other),
            count: 0,
        }
    }

    /// Where the names of several files come from; none where it is that of one.
    pub fn files(&self) -> Option<Files> {
        match self.source {
            Source::Several(files) => Some(files),
            _ => None,
        }
    }

    /// Whether more bytes were read than so many.
    pub fn is_above(&self, most: usize) -> bool {
        self.count > most
    }

    /// Whether it is a directory.
    pub fn is_folder(&self) -> bool {
        matches!(self.source, Source::Unopened(ErrorKind::IsADirectory))
    }

    /// Why the file could not be opened, for people.
    pub fn cause(&self) -> Option<&'static str> {
        match self.source {
            Source::Unopened(ErrorKind::NotFound) => Some("no such file or directory"),
            Source::Unopened(ErrorKind::PermissionDenied) => Some("permission denied"),
            Source::Unopened(ErrorKind::IsADirectory) => Some("is a directory"),
            Source::Unopened(_) => Some("it can't be opened"),
            Source::Standard(_) | Source::File(_) | Source::Several(_) => None,
        }
    }
}

impl Read for Input {
    // A directory can be opened, but not read: that it is one is kept for people.
    fn read(&mut self, buf: &mut [u8]) -> io::Result<usize> {
        let read = match &mut self.source {
            Source::Standard(input) => input.read(buf),
            Source::File(file) => file.read(buf),
            Source::Unopened(kind) => Err(io::Error::from(*kind)),
            Source::Several(_) => Err(io::Error::from(ErrorKind::Other)),
        };
        match &read {
            Ok(count) => self.count = self.count.saturating_add(*count),
            Err(error) if error.kind() == ErrorKind::IsADirectory => {
                self.source = Source::Unopened(ErrorKind::IsADirectory);
            }
            Err(_) => {}
        }
        read
    }
}
