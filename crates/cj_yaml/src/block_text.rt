// Literal and folded texts (YAML 1.2.2, 8.1).
use crate::chars::{break_len, byte, is_blank, line_end, part, spaces_end};
use crate::cursor::Cursor;
use crate::fault::{FaultKind, Stop};
use std::alloc::Global;

// What becomes of the line breaks at the end (8.1.1.2).
#[derive(Clone, Copy, PartialEq, Eq)]
enum Chomp {
    Strip,
    Clip,
    Keep,
}

// The head of a literal or folded text.
#[derive(Clone, Copy)]
struct Head {
    folded: bool,
    chomp: Chomp,
    // (the indentation beyond the parent's, if it is given)
    given: Option<usize>,
}

// One line: where its spaces end and its text ends.
#[derive(Clone, Copy)]
struct Line {
    start: usize,
    content: usize,
    end: usize,
}

impl Line {
    fn at(text: &[u8], start: usize) -> Line {
        let content = spaces_end(text, start);
        Line {
            start,
            content,
            end: line_end(text, content),
        }
    }

    fn spaces(&self) -> usize {
        self.content.saturating_sub(self.start)
    }

    fn is_empty(&self) -> bool {
        self.content == self.end
    }
}

// Reads the head at the cursor, and goes to the line below it.
fn read_head(cursor: &mut Cursor<'_>) -> Result<Head, Stop> {
    let mut head = Head {
        folded: cursor.peek() == b'>',
        chomp: Chomp::Clip,
        given: None,
    };
    cursor.step(1);
    for _ in 0..2 {
        match cursor.peek() {
            b'+' if head.chomp == Chomp::Clip => head.chomp = Chomp::Keep,
            b'-' if head.chomp == Chomp::Clip => head.chomp = Chomp::Strip,
            b @ b'1'..=b'9' if head.given.is_none() => {
                head.given = Some(usize::from(b).saturating_sub(48));
            }
            _ => break,
        }
        cursor.step(1);
    }
    cursor.pass_blanks();
    if !cursor.ends_line() {
        return Err(cursor.fault(FaultKind::BlockHead));
    }
    let end = line_end(cursor.text, cursor.at);
    cursor.begin_line(end.saturating_add(break_len(cursor.text, end)));
    Ok(head)
}

// The indentation of a text whose first line begins there: that of its first line that isn't empty.
fn found_indent(text: &[u8], from: usize, least: usize) -> Result<usize, Stop> {
    let mut start = from;
    let mut most = least;
    for _ in from..text.len() {
        let line = Line::at(text, start);
        if byte(text, line.content) == b'\t' {
            return Err(Stop::new(FaultKind::Tab, line.content));
        }
        if !line.is_empty() {
            if line.spaces() >= least && line.spaces() < most {
                return Err(Stop::new(FaultKind::Indentation, line.content));
            }
            if line.spaces() >= least {
                return Ok(line.spaces());
            }
            break;
        }
        most = most.max(line.spaces());
        start = line.end.saturating_add(break_len(text, line.end));
    }
    Ok(most)
}

// The text of the lines that were read, and how many line breaks are behind its last content.
#[derive(Drop)]
struct Lines {
    bytes: Vec<u8>,
    breaks: usize,
    any: bool,
    // (whether the last line with content began with a blank behind the indentation)
    indented: bool,
}

impl Lines {
    fn push_breaks(&mut self, count: usize) -> Result<(), Stop> {
        for _ in 0..count {
            self.bytes.push(b'\n')?;
        }
        Ok(())
    }

    // Appends a line with content, behind the line breaks that are pending (8.1.3).
    fn push_line(&mut self, folded: bool, content: &[u8]) -> Result<(), Stop> {
        let indented = is_blank(byte(content, 0));
        if !folded || !self.any || self.indented || indented {
            self.push_breaks(self.breaks)?;
        } else if self.breaks == 1 {
            self.bytes.push(b' ')?;
        } else {
            self.push_breaks(self.breaks.saturating_sub(1))?;
        }
        self.bytes.extend_from_slice(content)?;
        self.any = true;
        self.indented = indented;
        self.breaks = 0;
        Ok(())
    }

    fn finish(mut self, chomp: Chomp) -> Result<Vec<u8>, Stop> {
        let breaks = match chomp {
            Chomp::Strip => 0,
            Chomp::Clip => if self.any { self.breaks.min(1) } else { 0 },
            Chomp::Keep => self.breaks,
        };
        self.push_breaks(breaks)?;
        let Lines { bytes, .. } = self;
        Ok(bytes)
    }
}

// Reads the lines from the cursor on that are indented by at least `indent` spaces.
fn read_lines(
    alloc: Global,
    cursor: &mut Cursor<'_>,
    folded: bool,
    from: usize,
    indent: usize,
) -> Result<Lines, Stop> {
    let text = cursor.text;
    let mut start = from;
    let mut lines = Lines {
        bytes: Vec::new(alloc),
        breaks: 0,
        any: false,
        indented: false,
    };
    for _ in from..text.len() {
        let line = Line::at(text, start);
        let is_blank_line = line.is_empty() && line.spaces() <= indent;
        if line.spaces() < indent && !is_blank_line || start >= text.len() {
            break;
        }
        if !is_blank_line {
            lines.push_line(folded, part(text, start.saturating_add(indent), line.end))?;
        }
        let width = break_len(text, line.end);
        lines.breaks = lines.breaks.saturating_add(width.min(1));
        start = line.end.saturating_add(width);
    }
    cursor.begin_line(start);
    Ok(lines)
}

// Reads the literal or folded text at the cursor, whose lines are indented by at least `least`
// spaces.
pub(crate) fn read_block_text(
    alloc: Global,
    cursor: &mut Cursor<'_>,
    least: usize,
) -> Result<String, Stop> {
    let at = cursor.at;
    let head = read_head(cursor)?;
    let from = cursor.line_start();
    let least = least.max(1);
    let indent = match head.given {
        Some(given) => least.saturating_add(given).saturating_sub(1),
        None => found_indent(cursor.text, from, least)?,
    };
    let lines = read_lines(alloc, cursor, head.folded, from, indent)?;
    let bytes = lines.finish(head.chomp)?;
    match String::from_utf8(bytes) {
        Ok(found) => Ok(found),
        Err(_) => Err(Stop::new(FaultKind::NotUtf8, at)),
    }
}
