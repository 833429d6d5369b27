// What `check` says of several files.
ghost use Rattle.std.specs.Prelude.{◌≡◌, ◌++◌, IfOk, OnOk, string_bytes};
ghost use Rattle.std.specs.List.{count_by};
ghost use Rattle.cj_answers.specs.Marks.{marked};
ghost use Rattle.cj_answers.specs.Outcome.{outcome_of};
ghost use Rattle.cj_check.specs.Several.{all_lines, all_values, count_words, file_lines, has_state, last_words, mark_of, printed_of, several, several_ending, several_in, several_pod, state_of, text_of, value_of};
ghost use Rattle.cj_answers.specs.as_json.Forms.{is_json};

use crate::as_json::unread_line;
use cj_answers::{Answer, Ending, is_form, is_json, marked, refused_form};
use cj_args::CheckRequest;
use cj_io::Failure;
use std::alloc::{AllocError, Global};

/// What `check` answers of one of several files.
#[derive(Drop)]
pub struct FileAnswer<'a> {
    /// The file's name, as the words give it.
    pub name: &'a str,
    /// What is answered of it alone; none where it couldn't be read.
    pub answer: Option<Answer>,
}

/// How a file fared.
#[derive(Clone, Copy, PartialEq, Eq)]
pub enum FileState {
    Fine,
    Refused,
    Unread,
}

// Where a text goes.
#[derive(Clone, Copy)]
pub(crate) enum Stream {
    Output,
    Error,
}

fn state_of(answer: &Option<Answer>) -> FileState
    ensures { result ≡ state_of answer.now }
{
    match answer {
        None => FileState::Unread,
        Some(answer) => match answer.ending {
            Ending::Done => FileState::Fine,
            Ending::Refused => FileState::Refused,
        },
    }
}

fn has_state(state: FileState, file: &FileAnswer<'_>) -> bool
    ensures { result ≡ has_state state file.now }
{
    match (state, state_of(&file.answer)) {
        (FileState::Fine, FileState::Fine) => true,
        (FileState::Refused, FileState::Refused) => true,
        (FileState::Unread, FileState::Unread) => true,
        _ => false,
    }
}

/// How many of the files fared so.
pub fn count_of(state: FileState, files: &[FileAnswer<'_>]) -> usize
    ensures { result ≡ count_by (has_state state) files.now }
{
    let mut count = 0;
    for file in files {
        if has_state(state, file) {
            count += 1;
        }
    }
    count
}

fn text_of(stream: Stream, answer: &Option<Answer>) -> &str
    ensures { result.now ≡ text_of stream answer.now }
{
    match (stream, answer) {
        (Stream::Output, Some(answer)) => answer.printed.as_str(),
        (Stream::Output, None) => "",
        (Stream::Error, Some(answer)) => answer.said.as_str(),
        (Stream::Error, None) => "cronsim: input or output failed\n",
    }
}

fn mark_of(alloc: Global, name: &str) -> Result<String, AllocError>
    ensures { IfOk result (λ s. string_bytes s ≡ mark_of name.now) }
{
    format!(in alloc; "{name}: ")
}

// The lines of a file, each with the file's name before it.
fn file_lines(alloc: Global, stream: Stream, file: &FileAnswer<'_>) -> Result<String, AllocError>
    ensures { IfOk result (λ s. string_bytes s ≡ file_lines stream file.now) }
{
    let mark = mark_of(alloc, file.name)?;
    marked(alloc, mark.as_str(), text_of(stream, &file.answer))
}

fn all_lines(alloc: Global, stream: Stream, files: &[FileAnswer<'_>]) -> Result<String, AllocError>
    ensures { IfOk result (λ s. string_bytes s ≡ all_lines stream files.now) }
{
    let mut text = String::new(alloc);
    for file in files {
        let lines = file_lines(alloc, stream, file)?;
        text.push_str(lines.as_str())?;
    }
    Ok(text)
}

/// What isn't looked at, once for all files.
pub(crate) fn several_pod(explain: bool) -> &'static str
    ensures { result.now ≡ several_pod explain }
{
    if explain {
        "FILE: of each Pod only its restartPolicy was looked at; kubectl apply --dry-run=server -f FILE checks the rest\n"
    } else {
        ""
    }
}

fn count_words(alloc: Global, strict: bool, files: &[FileAnswer<'_>]) -> Result<String, AllocError>
    ensures { IfOk result (λ s. string_bytes s ≡ count_words strict files.now) }
{
    if !strict {
        return Ok(String::new(alloc));
    }
    let all = files.len();
    let fine = count_of(FileState::Fine, files);
    let refused = count_of(FileState::Refused, files);
    let unread = count_of(FileState::Unread, files);
    format!(in alloc; "{all} files: {fine} fine, {refused} refused, {unread} not read\n")
}

// What is said after the lines of the files.
fn last_words(
    alloc: Global,
    check: &CheckRequest<'_>,
    files: &[FileAnswer<'_>],
) -> Result<String, AllocError>
    ensures { IfOk result (λ s. string_bytes s ≡ last_words check.now files.now) }
{
    let mut words = String::from_str(alloc, several_pod(check.explain))?;
    let counts = count_words(alloc, check.strict, files)?;
    words.push_str(counts.as_str())?;
    Ok(words)
}

fn several_ending(files: &[FileAnswer<'_>]) -> Ending
    ensures { result ≡ several_ending files.now }
{
    if count_of(FileState::Fine, files) == files.len() {
        Ending::Done
    } else {
        Ending::Refused
    }
}

fn push_value(alloc: Global, text: &mut String, file: &FileAnswer<'_>) -> Result<(), AllocError>
    ensures { OnOk result (string_bytes text.new
        ≡ string_bytes text.old ++ value_of file.now.name.now file.now.answer) }
{
    match &file.answer {
        Some(answer) => text.push_str(answer.printed.as_str()),
        None => {
            let line = unread_line(alloc, file.name)?;
            text.push_str(line.as_str())
        }
    }
}

// The value of each file, on a line.
fn all_values(alloc: Global, files: &[FileAnswer<'_>]) -> Result<String, AllocError>
    ensures { IfOk result (λ s. string_bytes s ≡ all_values files.now) }
{
    let mut text = String::new(alloc);
    for file in files {
        push_value(alloc, &mut text, file)?;
    }
    Ok(text)
}

fn printed_of(alloc: Global, output: &str, files: &[FileAnswer<'_>]) -> Result<String, AllocError>
    ensures { IfOk result (λ s. string_bytes s ≡ printed_of (is_json output.now) files.now) }
{
    if is_json(output) {
        all_values(alloc, files)
    } else {
        all_lines(alloc, Stream::Output, files)
    }
}

// What is answered in a form that there is.
fn form_answer(
    alloc: Global,
    check: &CheckRequest<'_>,
    files: &[FileAnswer<'_>],
) -> Result<Answer, AllocError>
    ensures { IfOk result (λ a. outcome_of a ≡ several_in check.now files.now) }
{
    let printed = printed_of(alloc, check.output, files)?;
    let mut said = all_lines(alloc, Stream::Error, files)?;
    let last = last_words(alloc, check, files)?;
    said.push_str(last.as_str())?;
    Ok(Answer {
        ending: several_ending(files),
        printed,
        said,
    })
}

/// What the command `check` answers of several files: what it answers of each alone, one after
/// another, with the file's name before each line, or as JSON a line for each.
pub fn several_answer(
    alloc: Global,
    check: &CheckRequest<'_>,
    files: &[FileAnswer<'_>],
) -> Result<Answer, Failure>
    ensures { IfOk result (λ a. outcome_of a ≡ several check.now files.now) }
{
    if is_form(check.output) {
        Ok(form_answer(alloc, check, files)?)
    } else {
        refused_form(alloc, check.explain)
    }
}
