// A line for each entry of a history.
ghost use Rattle.std.specs.Prelude.{◌≡◌, IfOk, IfErr, string_bytes};
ghost use Rattle.cj_base.specs.declared.refusal.Refusal.TheVariants.{OutOfMemory};
ghost use Rattle.cj_report.specs.history.Entries as said;

use crate::answers::answer_text;
use crate::called::{about, call_word, role_word};
use crate::columns::key_word;
use crate::history::asked::asked;
use crate::history::listed::listed;
use crate::objects::moment_text;
use crate::timeline::told_moment;
use cj_calls::{Answer, Call, Caller, Entry};
use cj_script::{Plain, Verb};
use cj_types::Refusal;
use std::alloc::Global;

// Only the answer to a MakeNext has the Job's name.
fn answers_as(call: &Call) -> Verb
    ensures { result ≡ said.answers_as call.now }
{
    match call {
        Call::MakeNext => Verb::Does(Plain::Make),
        _ => Verb::Does(Plain::Take),
    }
}

fn answer_fields(alloc: Global, answer: &Answer) -> Result<String, Refusal>
    ensures ok { IfOk result (λ s. string_bytes s ≡ said.answer_fields answer.now) }
    ensures err { IfErr result (λ e. e ≡ OutOfMemory) }
{
    match answer {
        Ok(reply) => listed(alloc, reply),
        Err(_) => Ok(String::new(alloc)),
    }
}

// The columns for who called, the moment in the call, and the object that it is about.
#[tactic(auto, unfolding(crate::specs::history::Entries::asked_words))]
fn asked_words(
    alloc: Global,
    caller: Caller,
    call: &Call,
    answer: &Answer,
) -> Result<String, Refusal>
    ensures ok { IfOk result (λ s. string_bytes s ≡ said.asked_words caller call.now answer.now) }
    ensures err { IfErr result (λ e. e ≡ OutOfMemory) }
{
    let number = caller.number;
    let role = role_word(caller.role);
    let time = moment_text(alloc, told_moment(call))?;
    let time = time.as_str();
    let key = key_word(alloc, about(call, answer))?;
    let key = key.as_str();
    Ok(format!(in alloc; "{number} {role} {time} {key}")?)
}

// The columns for what was called and answered, and what else both say.
#[tactic(auto, unfolding(crate::specs::history::Entries::answered_words))]
fn answered_words(alloc: Global, call: &Call, answer: &Answer) -> Result<String, Refusal>
    ensures ok { IfOk result (λ s. string_bytes s ≡ said.answered_words call.now answer.now) }
    ensures err { IfErr result (λ e. e ≡ OutOfMemory) }
{
    let word = call_word(call);
    let said = answer_text(alloc, answers_as(call), answer)?;
    let said = said.as_str();
    let asked = asked(alloc, call)?;
    let asked = asked.as_str();
    let fields = answer_fields(alloc, answer)?;
    let fields = fields.as_str();
    Ok(format!(in alloc; "{word} {said}{asked}{fields}")?)
}

fn entry_line(alloc: Global, place: usize, entry: &Entry) -> Result<String, Refusal>
    ensures ok { IfOk result (λ s. string_bytes s ≡ said.entry_line place entry.now) }
    ensures err { IfErr result (λ e. e ≡ OutOfMemory) }
{
    let asked = asked_words(alloc, entry.caller(), entry.call(), entry.answer())?;
    let asked = asked.as_str();
    let answered = answered_words(alloc, entry.call(), entry.answer())?;
    let answered = answered.as_str();
    Ok(format!(in alloc; "{place} {asked} {answered}\n")?)
}

/// A line for each entry of a history, the oldest first: `PLACE NUMBER ROLE TIME NAMESPACE/NAME DO
/// ANSWER`, that is its place, counted from 1; who called; the moment that the call tells and the
/// object that it is about, or `-`; what was called and what that was answered, as the line of a
/// step has it. Behind that stand, as words `NAME=VALUE`, what else the call says, and the objects
/// of the answer.
///
/// # Errors
///
/// `OutOfMemory`.
pub fn history_text(alloc: Global, entries: &[Entry]) -> Result<String, Refusal>
    ensures ok { IfOk result (λ s. string_bytes s ≡ said.history_lines entries.now) }
    ensures err { IfErr result (λ e. e ≡ OutOfMemory) }
{
    let mut text = String::new(alloc);
    for (i, entry) in entries.iter().enumerate() {
        let line = entry_line(alloc, i + 1, entry)?;
        text.push_str(line.as_str())?;
    }
    Ok(text)
}
