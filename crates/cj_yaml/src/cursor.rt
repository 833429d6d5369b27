ghost use Rattle.std.specs.Prelude.{◌≡◌, ◌≢◌, ◌+◌, ◌-◌, ◌≤◌, ◌<◌, ◌^◌, ◌==◌, ◌&&◌, ℕ, List, IsOk, IsOkAnd, drop, length, nat_le, slice_index, true};
ghost use Rattle.cj_yaml.specs.Cursors.{IsBefore, IsOnLine, column_of, is_line, is_marker, leading, line_begun};
ghost use Rattle.cj_yaml.specs.OnLines.{is_blank, is_gap};

use crate::chars::{
    blanks_end, break_end, break_len, byte, is_blank, is_gap, is_marker, last_line, line_end,
    spaces_end,
};
use crate::fault::{FaultKind, Stop};

// A place in a text that is being read, with the line that it is on.
#[derive(Drop)]
pub(crate) struct Cursor<'a> {
    pub text: &'a [u8],
    pub at: usize,
    line: usize,
    indent: usize,
}

impl<'a> Cursor<'a> {
    pub(crate) fn new(text: &'a [u8], at: usize) -> Cursor<'a> {
        let mut cursor = Cursor {
            text,
            at,
            line: at,
            indent: 0,
        };
        cursor.begin_line(at);
        cursor
    }

    // Goes to the first byte behind the spaces of the line that begins there.
    pub(crate) fn begin_line(&mut self, line: usize)
        ensures { line ≤ length self.old.text.now → self.new ≡ line_begun self.old line }
    {
        let at = spaces_end(self.text, line);
        self.line = line;
        self.indent = at.saturating_sub(line);
        self.at = at;
    }

    // Goes to a later offset, over line breaks.
    pub(crate) fn pass_to(&mut self, to: usize) {
        if let Some(line) = last_line(self.text, self.at, to) {
            self.begin_line(line);
        }
        self.at = to;
    }

    pub(crate) fn peek(&self) -> u8
        ensures { result ≡ slice_index self.now.text.now self.now.at }
    {
        byte(self.text, self.at)
    }

    pub(crate) fn ahead(&self, count: usize) -> u8
        ensures { result ≡ slice_index self.now.text.now (self.now.at + count) }
    {
        byte(self.text, self.at.saturating_add(count))
    }

    pub(crate) fn step(&mut self, count: usize)
        ensures { self.old.at + count < 2 ^ 64
            → self.new ≡ record self.old { at = self.old.at + count } }
    {
        self.at = self.at.saturating_add(count);
    }

    pub(crate) fn column(&self) -> usize
        ensures { result ≡ self.now.at - self.now.line }
    {
        self.at.saturating_sub(self.line)
    }

    pub(crate) fn is_end(&self) -> bool
        ensures { result ≡ nat_le (length self.now.text.now) self.now.at }
    {
        self.at >= self.text.len()
    }

    // Where the line begins.
    pub(crate) fn line_start(&self) -> usize {
        self.line
    }

    // Whether only spaces stand before it on its line.
    pub(crate) fn is_fresh(&self) -> bool
        ensures { result ≡ (self.now.at - self.now.line == self.now.indent) }
    {
        self.column() == self.indent
    }

    // Whether a document's `---` or `...` stands here.
    pub(crate) fn is_marker(&self) -> bool
        ensures { result ≡ ((self.now.at - self.now.line == 0)
            && is_marker self.now.text.now self.now.at) }
    {
        self.column() == 0 && is_marker(self.text, self.at)
    }

    // Whether the `-` of an item of a list stands here.
    pub(crate) fn is_item(&self) -> bool
        ensures { result ≡ ((slice_index self.now.text.now self.now.at == 45)
            && is_gap (slice_index self.now.text.now (self.now.at + 1))) }
    {
        self.peek() == b'-' && is_gap(self.ahead(1))
    }

    pub(crate) fn fault(&self, kind: FaultKind) -> Stop
        ensures { result.kind ≡ kind }
    {
        Stop::new(kind, self.at)
    }

    pub(crate) fn pass_blanks(&mut self)
        ensures { self.old.at ≤ length self.old.text.now → self.new ≡ record self.old {
          at = self.old.at + leading is_blank (drop self.old.at self.old.text.now);
        } }
    {
        self.at = blanks_end(self.text, self.at);
    }

    // Whether nothing but a comment follows on the line.
    pub(crate) fn ends_line(&self) -> bool {
        let here = self.peek();
        self.is_end() || break_len(self.text, self.at) > 0 || (here == b'#' && self.opens_comment())
    }

    // Whether a `#` that stands here begins a comment: it is the first of its line, or a blank is
    // before it (6.6).
    fn opens_comment(&self) -> bool {
        self.is_fresh() || is_blank(byte(self.text, self.at.saturating_sub(1)))
    }

    // Goes to the end of the comment that stands here, if one does.
    fn pass_comment(&mut self)
        ensures { slice_index self.old.text.now self.old.at ≢ 35 → self.new ≡ self.old }
    {
        if self.peek() == b'#' && self.opens_comment() {
            self.at = line_end(self.text, self.at);
        }
    }

    // Passes over what is left of a line that has no content, and over its break. Otherwise it goes
    // to the content. Whether there was such a line.
    fn pass_line(&mut self) -> Result<bool, Stop>
        ensures printed { (n : ℕ) (rest : List ℕ) → is_line n rest ≡ true
            → IsBefore self.old n rest → IsOk result × IsOnLine self.new n rest }
    {
        if self.peek() == b'\t' && self.is_fresh() {
            return Err(self.fault(FaultKind::Tab));
        }
        self.pass_blanks();
        self.pass_comment();
        let end = break_end(self.text, self.at);
        if end > self.at {
            self.begin_line(end);
            return Ok(true);
        }
        Ok(false)
    }

    // Passes over lines without content.
    pub(crate) fn pass_lines(&mut self) -> Result<(), Stop>
        ensures printed { (n : ℕ) (rest : List ℕ) → is_line n rest ≡ true
            → IsBefore self.old n rest → IsOk result × IsOnLine self.new n rest }
    {
        let mut passed = self.pass_line()?;
        'lines: for _ in 0..self.text.len() {
            if !passed {
                break;
            }
            passed = self.pass_line()?;
        }
        Ok(())
    }

    // Goes to the content of a line below; its column. None at the document's end.
    pub(crate) fn next_content(&mut self) -> Result<Option<usize>, Stop>
        ensures printed { (n : ℕ) (rest : List ℕ) → is_line n rest ≡ true
            → IsBefore self.old n rest
            → IsOkAnd result (λ column. column ≡ column_of n rest) × IsOnLine self.new n rest }
    {
        self.pass_lines()?;
        if self.is_end() || self.is_marker() {
            return Ok(None);
        }
        if !self.is_fresh() {
            return Err(self.fault(FaultKind::Trailing));
        }
        Ok(Some(self.column()))
    }

    // Passes over blanks, comments and line breaks between brackets.
    pub(crate) fn pass_flow(&mut self) -> Result<(), Stop> {
        for _ in 0..=self.text.len() {
            self.pass_blanks();
            self.pass_comment();
            let width = break_len(self.text, self.at);
            if width == 0 {
                break;
            }
            self.begin_line(self.at.saturating_add(width));
            if self.is_marker() {
                return Err(self.fault(FaultKind::Unclosed));
            }
        }
        if self.is_end() {
            return Err(self.fault(FaultKind::Unclosed));
        }
        Ok(())
    }
}
