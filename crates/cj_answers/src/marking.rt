// Lines with a mark before each, as grep has it of several files.
ghost use Rattle.std.specs.Prelude.{◌≡◌, ◌++◌, IfOk, OnOk, codes, string_bytes};
ghost use Rattle.cj_answers.specs.Marks.{marked, marked_without};

use std::alloc::{AllocError, Global};

// A line with the mark before it, at the end of the text.
fn push_line(text: &mut String, mark: &str, line: &str) -> Result<(), AllocError>
    ensures { OnOk result (string_bytes text.new
        ≡ string_bytes text.old ++ (mark.now ++ (line.now ++ codes "\n"))) }
{
    text.push_str(mark)?;
    text.push_str(line)?;
    text.push_str("\n")
}

// What follows the last end of a line, at the end of the text.
fn push_rest(text: &mut String, mark: &str, rest: &str) -> Result<(), AllocError>
    ensures { OnOk result (string_bytes text.new
        ≡ string_bytes text.old ++ marked_without mark.now rest.now) }
{
    if !rest.is_empty() {
        text.push_str(mark)?;
        text.push_str(rest)?;
    }
    Ok(())
}

/// The text with the mark before each of its lines.
pub fn marked(alloc: Global, mark: &str, text: &str) -> Result<String, AllocError>
    ensures { IfOk result (λ s. string_bytes s ≡ marked mark.now text.now) }
{
    let mut marked = String::new(alloc);
    let mut rest = text;
    while let Some((line, more)) = rest.split_once('\n') {
        push_line(&mut marked, mark, line)?;
        rest = more;
    }
    push_rest(&mut marked, mark, rest)?;
    Ok(marked)
}
