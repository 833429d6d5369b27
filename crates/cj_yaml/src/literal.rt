// Texts of several lines, as they are printed (YAML 1.2.2, 8.1).
ghost use Rattle.std.specs.Prelude.{◌≡◌, [], ◌∷◌, ◌++◌, ◌&&◌, ◌==◌, ◌||◌, cond, nat_le, not, false, IfOk, OnOk, string_bytes, true};
ghost use Rattle.cj_yaml.specs.BlockStyle.{are_shown_lines, indent, literal_head, literal_lines, literal_text, may_be_in_line, may_be_literal};

use crate::chars::byte;
use crate::write_fault::WriteFault;
use std::alloc::{AllocError, Global};

// Whether a text is printed in lines: it has some, none begins it with a blank or is empty at its
// front, none ends in a blank, and no byte needs an escape.
pub(crate) fn is_literal(text: &str) -> bool
    ensures { result ≡ may_be_literal text.now }
{
    let bytes = text.as_bytes();
    let first = byte(bytes, 0);
    first != b' ' && first != b'\n' && are_shown_lines(bytes)
}

// Whether a byte may stand behind another one of such a text: it is printed as it is, or is a line
// break with no space before it.
fn may_be_in_line(before: u8, b: u8) -> bool
    ensures { result ≡ may_be_in_line before b }
{
    if b == b'\n' {
        before != b' '
    } else {
        32 <= b && b <= 126
    }
}

// Whether bytes have a line break, none behind a space, no space at their end, and none that needs
// an escape.
#[tactic(auto, using(crate::proofs::PlainTexts::lines_stop, crate::proofs::PlainTexts::lines_go_on, crate::proofs::PlainTexts::lines_end))]
fn are_shown_lines(bytes: &[u8]) -> bool
    ensures { result ≡ are_shown_lines 10 false bytes.now }
{
    let mut before = b'\n';
    let mut lines = false;
    for b in bytes {
        if !may_be_in_line(before, *b) {
            return false;
        }
        lines = lines || *b == b'\n';
        before = *b;
    }
    lines && before != b' '
}

// Appends a text in lines at this column, behind its head.
pub(crate) fn push_literal(
    alloc: Global,
    out: &mut String,
    text: &str,
    column: usize,
) -> Result<(), WriteFault>
    ensures { OnOk result (string_bytes out.new ≡ string_bytes out.old
        ++ literal_text column text.now) }
{
    let bytes = lines_at(alloc, text.as_bytes(), column)?;
    let Ok(lines) = String::from_utf8(bytes) else {
        return Err(WriteFault::NotReadBack);
    };
    out.push_str(head(text.as_bytes()))?;
    out.push_str(lines.as_str())?;
    Ok(())
}

// How a text begins, by the line breaks at its end.
fn head(bytes: &[u8]) -> &'static str
    ensures { result.now ≡ literal_head bytes.now }
{
    let last = byte(bytes, bytes.len().saturating_sub(1));
    let before = byte(bytes, bytes.len().saturating_sub(2));
    if last != b'\n' {
        "|-\n"
    } else if before == b'\n' {
        "|+\n"
    } else {
        "|\n"
    }
}

// The lines of a text at a column.
#[tactic(auto, using(crate::proofs::Lines::line_goes_on, crate::proofs::Lines::line_ends))]
fn lines_at(alloc: Global, bytes: &[u8], column: usize) -> Result<Vec<u8>, AllocError>
    ensures { IfOk result (λ lines. lines.items ≡ literal_lines column true bytes.now) }
{
    let spaces = " ".repeat(alloc, column)?;
    let mut out = Vec::new(alloc);
    let mut fresh = true;
    for b in bytes {
        push_in_line(&mut out, spaces.as_bytes(), fresh, *b)?;
        fresh = *b == b'\n';
    }
    end_line(&mut out, fresh)?;
    Ok(out)
}

// Appends a byte of a line, behind the spaces if it begins one that isn't empty.
fn push_in_line(out: &mut Vec<u8>, spaces: &[u8], fresh: bool, b: u8) -> Result<(), AllocError>
    ensures { OnOk result (out.new.items ≡ out.old.items
        ++ (cond (fresh && not (b == 10)) spaces.now [] ++ b ∷ [])) }
{
    if fresh && b != b'\n' {
        out.extend_from_slice(spaces)?;
    }
    Ok(out.push(b)?)
}

// Ends the last line, unless the next one begins already.
fn end_line(out: &mut Vec<u8>, fresh: bool) -> Result<(), AllocError>
    ensures { OnOk result (out.new.items ≡ out.old.items ++ cond fresh [] (10 ∷ [])) }
{
    if !fresh {
        out.push(b'\n')?;
    }
    Ok(())
}

// Appends so many spaces.
pub(crate) fn push_indent(alloc: Global, out: &mut String, column: usize) -> Result<(), AllocError>
    ensures { OnOk result (string_bytes out.new ≡ string_bytes out.old ++ indent column) }
{
    let spaces = " ".repeat(alloc, column)?;
    out.push_str(spaces.as_str())
}
