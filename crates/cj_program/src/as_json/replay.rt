// What a replay prints, as one value: its lines, taken apart.
ghost use Rattle.std.specs.Prelude.{◌≡◌, ◌++◌, ◌∷◌, [], IfOk, IfSome, OnOk, codes, false, map, string_bytes};
ghost use Rattle.serde_json.specs.Data.{array, string};
ghost use Rattle.serde_json.specs.View.{items_of, view};
ghost use Rattle.cj_replay.specs.Replays.{IsReplayed};
ghost use Rattle.cj_program.specs.as_json.Replay as json;

use crate::lines::{after, cut_blank, cut_line};
use cj_answers::value_line;
use cj_io::Failure;
use cj_json::push_value;
use cj_replay::replay;
use cj_script::{Script, Step};
use cj_world::Secret;
use serde_json::{Value, json};
use std::alloc::{AllocError, Global};

// What follows the name of a step's caller in its line.
fn after_who<'a>(text: &'a str, who: &str) -> Option<&'a str>
    ensures { IfSome result (λ rest. text.now ≡ who.now ++ (codes " " ++ rest.now)) }
{
    after(after(text, who)?, " ")
}

// ---- steps

// The place of an entry in the history; null where the call wasn't entered.
fn place_value(alloc: Global, place: &str) -> Result<Value, Failure>
    ensures { IfOk result (λ v. view v ≡ json.place_data place.now) }
{
    match Value::from_str(alloc, place) {
        Ok(value) => Ok(value),
        Err(error) if error.is_memory() => Err(Failure::Memory),
        Err(_) => Ok(Value::Null),
    }
}

fn step_object(
    alloc: Global,
    answer: &str,
    verb: &str,
    place: Value,
    who: &str,
) -> Result<Value, AllocError>
    ensures { IfOk result (λ v. view v
        ≡ json.step_object answer.now verb.now (view place) who.now) }
{
    json!(in alloc; {
        "answer": answer,
        "do": verb,
        "place": place,
        "who": who
    })
}

// The texts of a step's line but for its caller's name, and what follows the line.
#[derive(Clone, Copy)]
struct StepLine<'a> {
    place: &'a str,
    verb: &'a str,
    answer: &'a str,
    rest: &'a str,
}

// The line of a step of that caller, whose name may have blanks, if the text begins with one.
fn cut_step<'a>(text: &'a str, who: &str) -> Option<StepLine<'a>>
    ensures { IfSome result (λ l. text.now
        ≡ json.step_text (json.texts_of l who.now) l.rest.now) }
{
    let (place, called) = cut_blank(text)?;
    let done = after_who(called, who)?;
    let (verb, answered) = cut_blank(done)?;
    let (answer, rest) = cut_line(answered)?;
    Some(StepLine {
        place,
        verb,
        answer,
        rest,
    })
}

fn step_value(alloc: Global, line: &StepLine<'_>, who: &str) -> Result<Value, Failure>
    ensures { IfOk result (λ v. view v ≡ json.step_data (json.texts_of line.now who.now)) }
{
    let place = place_value(alloc, line.place)?;
    Ok(step_object(alloc, line.answer, line.verb, place, who)?)
}

// Adds the value of the step of that caller with whose line the text begins, and answers what
// follows that line.
fn push_step<'a>(
    alloc: Global,
    values: &mut Vec<Value>,
    who: &str,
    text: &'a str,
) -> Result<&'a str, Failure>
    ensures { IfOk result (λ rest. json.AddsStep who.now text.now rest.now
        (map view values.old.items) (map view values.new.items)) }
{
    let Some(line) = cut_step(text, who) else {
        return Err(Failure::UnexpectedRefusal);
    };
    let value = step_value(alloc, &line, who)?;
    push_value(values, value)?;
    Ok(line.rest)
}

// The values of the steps, and what follows their lines.
#[derive(Drop)]
struct Taken<'a> {
    values: Vec<Value>,
    rest: &'a str,
}

fn step_values<'a>(alloc: Global, steps: &[Step], text: &'a str) -> Result<Taken<'a>, Failure>
    ensures { IfOk result (λ t. json.AreSteps steps.now text.now t.rest.now
        (map view t.values.items)) }
{
    let mut values = Vec::new(alloc);
    let mut rest = text;
    for step in steps {
        rest = push_step(alloc, &mut values, step.who.get().as_str(), rest)?;
    }
    Ok(Taken { values, rest })
}

// ---- the report

fn push_line(alloc: Global, values: &mut Vec<Value>, line: &str) -> Result<(), Failure>
    ensures { OnOk result (map view values.new.items
        ≡ map view values.old.items ++ string line.now ∷ []) }
{
    let value = Value::try_from_str(alloc, line)?;
    push_value(values, value)?;
    Ok(())
}

// The lines of a text, each of which ends.
fn line_values(alloc: Global, text: &str) -> Result<Vec<Value>, Failure>
    ensures { IfOk result (λ v. json.AreLines text.now (map view v.items)) }
{
    let mut values = Vec::new(alloc);
    let mut rest = text;
    while let Some((line, more)) = cut_line(rest) {
        push_line(alloc, &mut values, line)?;
        rest = more;
    }
    if rest.is_empty() {
        Ok(values)
    } else {
        Err(Failure::UnexpectedRefusal)
    }
}

// ---- the whole

fn replay_object(alloc: Global, report: Value, steps: Value) -> Result<Value, AllocError>
    ensures { IfOk result (λ v. view v ≡ json.replay_object (view report) (view steps)) }
{
    json!(in alloc; {
        "report": report,
        "steps": steps
    })
}

fn list(values: Vec<Value>) -> Value
    ensures { view result ≡ array (items_of (map view values.items)) }
{
    Value::Array(values)
}

// What the lines of the script's steps and of the report say, as a value.
fn replay_value(alloc: Global, script: &Script, text: &str) -> Result<Value, Failure>
    ensures { IfOk result (λ v. json.IsReplayData script.now text.now (view v)) }
{
    let taken = step_values(alloc, script.steps.as_slice(), text)?;
    let lines = line_values(alloc, taken.rest)?;
    Ok(replay_object(alloc, list(lines), list(taken.values))?)
}

// What a replay of the script prints. It is a failure where a step found the history full.
fn replayed_text(alloc: Global, script: &Script, secret: Secret) -> Result<String, Failure>
    ensures { IfOk result (λ s. IsReplayed script.now (string_bytes s) false) }
{
    let mut bytes = Vec::new(alloc);
    if replay(alloc, script, secret, &mut bytes)? {
        return Err(Failure::HistoryFull);
    }
    match String::from_utf8(bytes) {
        Ok(text) => Ok(text),
        Err(_) => Err(Failure::UnexpectedRefusal),
    }
}

/// A replay of the script as one JSON value on a line: its steps, with the texts of their lines,
/// and the lines of the report. It is a failure where a step found the history full.
pub(crate) fn replay_json(alloc: Global, script: &Script, secret: Secret) -> Result<String, Failure>
    ensures { IfOk result (λ s. json.IsReplayJson script.now (string_bytes s)) }
{
    let text = replayed_text(alloc, script, secret)?;
    let value = replay_value(alloc, script, text.as_str())?;
    Ok(value_line(alloc, &value)?)
}
