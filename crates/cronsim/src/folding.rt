// Help at a terminal: long lines are folded there, so that what an option does stands in a column.
use cj_program::{ExitStatus, Failure, WordFault, tell_fault};
use std::alloc::{AllocError, Global};
use std::env;
use std::io::Write;

// The columns of a terminal where nobody says how many it has.
const USUAL_WIDTH: usize = 80;

// The fewest columns that lines are folded to.
const LEAST_WIDTH: usize = 40;

// How wide the terminal is, by the variable COLUMNS.
fn width(rt: &HostRuntime) -> usize {
    match env::var(rt, "COLUMNS") {
        Ok(text) => match text.as_str().parse::<usize>() {
            Ok(width) => width.max(LEAST_WIDTH),
            Err(_) => USUAL_WIDTH,
        },
        Err(_) => USUAL_WIDTH,
    }
}

// The words of a line that can be folded: those on an option or an argument, behind its name, or
// all of them. Commands to be copied stay in one line.
fn words_of(line: &str) -> &str {
    let text = line.trim_start();
    if text.starts_with("cronsim ") || text.starts_with("kubectl ") || text.starts_with("helm ") {
        return "";
    }
    match text.split_once("  ") {
        Some((_, words)) => words.trim_start(),
        None => text,
    }
}

fn push_spaces(text: &mut String, count: usize) -> Result<(), AllocError> {
    for _ in 0..count {
        text.push_str(" ")?;
    }
    Ok(())
}

// Adds words, each behind a space or, where it would pass the width, on a line of its own below the
// first one.
fn push_words(
    text: &mut String,
    words: &str,
    indent: usize,
    width: usize,
) -> Result<(), AllocError> {
    let mut column = indent;
    for word in words.split(' ') {
        let is_first = column == indent;
        if !is_first && column.saturating_add(word.len()) >= width {
            text.push_str("\n")?;
            push_spaces(text, indent)?;
            column = indent;
        } else if !is_first {
            text.push_str(" ")?;
            column = column.saturating_add(1);
        }
        text.push_str(word)?;
        column = column.saturating_add(word.len());
    }
    Ok(())
}

fn push_line(text: &mut String, line: &str, width: usize) -> Result<(), AllocError> {
    let words = words_of(line);
    match line.strip_suffix(words) {
        Some(head) if line.len() > width && head.len() < (width / 8).saturating_mul(5) => {
            text.push_str(head)?;
            push_words(text, words, head.len(), width)?;
        }
        _ => text.push_str(line)?,
    }
    text.push_str("\n")
}

// The text with its long lines folded.
fn folded(alloc: Global, text: &str, width: usize) -> Result<String, AllocError> {
    let mut made = String::new(alloc);
    for line in text.lines() {
        push_line(&mut made, line, width)?;
    }
    Ok(made)
}

/// Says why words are no request, as `tell_fault` does, with help folded at the terminal's width.
pub fn tell_folded(rt: &HostRuntime, fault: &WordFault) -> Result<ExitStatus, Failure> {
    let alloc = rt.alloc();
    let mut printed = Vec::new(alloc);
    let status = tell_fault(alloc, fault, &mut printed, &mut rt.stderr());
    let Ok(text) = str::from_utf8(printed.as_slice()) else {
        return Err(Failure::UnexpectedRefusal);
    };
    let text = folded(alloc, text, width(rt))?;
    match rt.stdout().write_all(text.as_bytes()) {
        Ok(()) => Ok(status),
        Err(_) => Ok(ExitStatus::Failed),
    }
}
