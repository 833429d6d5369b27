// How a CronJob's container starts a command of a crontab.
use crate::crontab::command::Command;
use crate::crontab::when::next_word;
use cj_json::push_value;
use cj_types::Refusal;
use serde_json::Value;
use std::alloc::{AllocError, Global};

/// A text in which Kubernetes expands no `$(NAME)`: of each `$` before a `$` or a `(` it makes one
/// of two.
pub(crate) fn unexpanded(alloc: Global, text: &str) -> Result<String, AllocError> {
    let mut kept = String::new(alloc);
    let mut is_dollar = false;
    for character in text.chars() {
        if is_dollar && (character == '$' || character == '(') {
            kept.push('$')?;
        }
        kept.push(character)?;
        is_dollar = character == '$';
    }
    Ok(kept)
}

// Whether a line of the text is this one.
fn has_line(text: &str, line: &str) -> bool {
    let mut rest = text;
    while let Some((first, more)) = rest.split_once('\n') {
        if first == line {
            return true;
        }
        rest = more;
    }
    rest == line
}

// A line that ends a here-document with this text: no line of the text is as long, where one is
// `INPUT`.
fn end_line(alloc: Global, input: &str) -> Result<String, AllocError> {
    let mut end = String::from_str(alloc, "INPUT")?;
    if has_line(input, "INPUT") {
        for _ in 0..input.len() {
            end.push('_')?;
        }
    }
    Ok(end)
}

// The command with these lines on its standard input.
fn with_input(alloc: Global, command: &str, input: &str) -> Result<String, AllocError> {
    let end = end_line(alloc, input)?;
    let end = end.as_str();
    let line_end = if input.is_empty() || input.ends_with('\n') {
        ""
    } else {
        "\n"
    };
    format!(in alloc; "{{\n{command}\n}} <<'{end}'\n{input}{line_end}{end}\n")
}

// The text that the shell is given.
fn script(alloc: Global, command: &Command) -> Result<String, AllocError> {
    let text = match &command.input {
        Some(input) => with_input(alloc, command.text.as_str(), input.as_str())?,
        None => String::from_str(alloc, command.text.as_str())?,
    };
    unexpanded(alloc, text.as_str())
}

// A word of the command, at the end of the others.
fn push_word(alloc: Global, words: &mut Vec<Value>, word: &str) -> Result<(), Refusal> {
    let value = Value::try_from_str(alloc, word)?;
    push_value(words, value)
}

/// The words that start a command: those of the shell, and the command.
pub(crate) fn command_words(
    alloc: Global,
    shell: &str,
    command: &Command,
) -> Result<Vec<Value>, Refusal> {
    let mut words = Vec::new(alloc);
    let mut rest = shell.trim_ascii();
    // Each word takes a byte at least.
    for _ in 0..shell.len() {
        if rest.is_empty() {
            break;
        }
        let (word, more) = next_word(rest);
        push_word(alloc, &mut words, word)?;
        rest = more;
    }
    let script = script(alloc, command)?;
    push_word(alloc, &mut words, script.as_str())?;
    Ok(words)
}
