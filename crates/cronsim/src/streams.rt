use memchr::memmem;
use std::io;
use std::io::{ErrorKind, Stdout, Write};

/// Standard output, and what became of it.
#[derive(Drop)]
pub struct Output {
    out: Stdout,
    count: usize,
    is_closed: bool,
    has_refused: bool,
    has_warned: bool,
}

impl Output {
    /// Standard output before anything is written.
    pub fn new(rt: &HostRuntime) -> Output {
        Output {
            out: rt.stdout(),
            count: 0,
            is_closed: false,
            has_refused: false,
            has_warned: false,
        }
    }

    /// Whether it took nothing.
    pub fn is_empty(&self) -> bool {
        self.count == 0
    }

    /// Whether it took the line of an item that is refused, as far as one write shows it.
    pub fn has_refused(&self) -> bool {
        self.has_refused
    }

    /// Whether it took a warning, as far as one write shows it.
    pub fn has_warned(&self) -> bool {
        self.has_warned
    }

    /// Whether nobody reads it any more, as behind `head`.
    pub fn is_closed(&self) -> bool {
        self.is_closed
    }
}

impl Write for Output {
    fn write(&mut self, buf: &[u8]) -> io::Result<usize> {
        self.has_refused = self.has_refused || memmem::find(buf, b" refused ").is_some();
        self.has_warned = self.has_warned || memmem::find(buf, b"\nwarning ").is_some();
        let written = self.out.write(buf);
        match &written {
            Ok(count) => self.count = self.count.saturating_add(*count),
            Err(error) if error.kind() == ErrorKind::BrokenPipe => self.is_closed = true,
            Err(_) => {}
        }
        written
    }

    fn flush(&mut self) -> io::Result<()> {
        self.out.flush()
    }
}
