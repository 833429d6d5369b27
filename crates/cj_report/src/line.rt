// The line that a replay prints of a step.
ghost use Rattle.std.specs.Prelude.{◌≡◌, IfOk, IfErr, string_bytes};
ghost use Rattle.cj_base.specs.declared.refusal.Refusal.TheVariants.{OutOfMemory};
ghost use Rattle.cj_report.specs.Lines as said;

use crate::answers::answer_text;
use crate::words::verb_word;
use cj_calls::Answer;
use cj_script::Verb;
use cj_types::Refusal;
use std::alloc::Global;

fn place_text(alloc: Global, place: Option<usize>) -> Result<String, Refusal>
    ensures ok { IfOk result (λ s. string_bytes s ≡ said.place_text place) }
    ensures err { IfErr result (λ e. e ≡ OutOfMemory) }
{
    match place {
        Some(number) => Ok(format!(in alloc; "{number}")?),
        None => Ok(String::from_str(alloc, "-")?),
    }
}

/// `PLACE WHO DO ANSWER`: the place of the step's entry in the history, or `-` where it wasn't
/// entered; who did what; and what that was answered.
pub fn step_line(
    alloc: Global,
    place: Option<usize>,
    who: &str,
    verb: Verb,
    answer: &Answer,
) -> Result<String, Refusal>
    ensures ok { IfOk result (λ s. string_bytes s ≡ said.step_line place who.now verb answer.now) }
    ensures err { IfErr result (λ e. e ≡ OutOfMemory) }
{
    let place = place_text(alloc, place)?;
    let place = place.as_str();
    let word = verb_word(verb);
    let answer = answer_text(alloc, verb, answer)?;
    let answer = answer.as_str();
    Ok(format!(in alloc; "{place} {who} {word} {answer}\n")?)
}
