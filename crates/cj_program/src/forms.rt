// The form of what is printed: an answer that is one value, in YAML where the words ask for that,
// and a refusal as a value too; and in lines with the times of a zone's clock.
ghost use Rattle.std.specs.Prelude.{◌≡◌, IfOk, codes, string_bytes};
ghost use Rattle.serde_json.specs.View.{view};
ghost use Rattle.cj_answers.specs.Outcome.{explained, outcome_of, refusal};
ghost use Rattle.cj_answers.specs.as_json.Forms.{is_json, is_yaml};
ghost use Rattle.cj_program.specs.Forms.{IsFormed, IsFormedBy, IsInForm, IsInFormBy, IsInZone, IsPrintedAs, IsRefusalText, IsShownBy, IsTimed, IsValued, IsYaml, IsZoned, clock_words, refusal_data, tells_refusal};

use cj_answers::{
    Answer, Ending, is_json, is_yaml, text_by_clock, value_line, yaml_text, zones_for,
};
use cj_args::ClockWords;
use cj_io::{Failure, ZoneFile};
use cj_types::Refusal;
use cj_zone::Zone;
use serde_json::{Value, json};
use std::alloc::{AllocError, Global};

// Values that are printed each on a line, as documents of YAML; none where a line is none.
fn documents(alloc: Global, printed: &str) -> Result<Option<String>, Failure> {
    let mut text = String::new(alloc);
    for line in printed.lines() {
        match Value::from_str(alloc, line) {
            Ok(value) => {
                text.push_str("---\n")?;
                text.push_str(yaml_text(alloc, &value)?.as_str())?;
            }
            Err(error) if error.is_memory() => return Err(Failure::Memory),
            Err(_) => return Ok(None),
        }
    }
    Ok(Some(text))
}

// What is printed in YAML of a text that isn't one value: documents, or the text, as a picture.
fn other_text(alloc: Global, printed: String) -> Result<String, Failure> {
    match documents(alloc, printed.as_str())? {
        Some(text) => Ok(text),
        None => Ok(printed),
    }
}

// What is printed in YAML of a text: that of its value, if it is JSON.
fn yaml_of(alloc: Global, printed: String) -> Result<String, Failure>
    ensures { IfOk result (λ s. IsYaml (string_bytes printed) (string_bytes s)) }
{
    match Value::from_str(alloc, printed.as_str()) {
        Ok(value) => yaml_text(alloc, &value),
        Err(error) if error.is_memory() => Err(Failure::Memory),
        Err(_) => other_text(alloc, printed),
    }
}

fn refusal_value(alloc: Global, said: &str) -> Result<Value, AllocError>
    ensures { IfOk result (λ v. view v ≡ refusal_data said.now) }
{
    json!(in alloc; { "refused": said })
}

// What is said of a refusal, as a value on a line.
fn refusal_text(alloc: Global, said: &str) -> Result<String, AllocError>
    ensures { IfOk result (λ s. IsRefusalText said.now (string_bytes s)) }
{
    let line = said.strip_suffix("\n").unwrap_or(said);
    let value = refusal_value(alloc, line)?;
    value_line(alloc, &value)
}

// What is printed where one value may be wanted: where a refusal prints nothing, what is said of
// it.
fn valued(
    alloc: Global,
    output: &str,
    ending: Ending,
    printed: String,
    said: &str,
) -> Result<String, Failure>
    ensures { IfOk result (λ s. IsValued (tells_refusal output.now ending (string_bytes printed))
        (string_bytes printed) said.now (string_bytes s)) }
{
    match ending {
        Ending::Refused if is_json(output) && printed.is_empty() => Ok(refusal_text(alloc, said)?),
        _ => Ok(printed),
    }
}

// What is printed of a text in the form that the words ask for.
fn printed_as(alloc: Global, output: &str, printed: String) -> Result<String, Failure>
    ensures { IfOk result (λ s. IsPrintedAs (is_yaml output.now) (string_bytes printed)
        (string_bytes s)) }
{
    if is_yaml(output) {
        yaml_of(alloc, printed)
    } else {
        Ok(printed)
    }
}

fn in_form(alloc: Global, output: &str, answer: Answer) -> Result<Answer, Failure>
    ensures { IfOk result (λ a. IsInForm output.now (outcome_of answer) (outcome_of a)) }
{
    let Answer {
        ending,
        printed,
        said,
    } = answer;
    let printed = valued(alloc, output, ending, printed, said.as_str())?;
    Ok(Answer {
        ending,
        printed: printed_as(alloc, output, printed)?,
        said,
    })
}

/// An answer in the form that its words ask for: in YAML the value that it is in JSON. Where one
/// value is wanted, a refusal that prints nothing is told as a value too.
pub(crate) fn formed(
    alloc: Global,
    output: &str,
    answer: Result<Answer, Failure>,
) -> Result<Answer, Failure>
    ensures { IfOk result (λ a. IsFormed output.now answer (outcome_of a)) }
{
    in_form(alloc, output, answer?)
}

// ---- times by a zone's clock

fn refused_zone(alloc: Global, explain: bool) -> Result<Answer, AllocError>
    ensures { IfOk result (λ a. outcome_of a ≡ explained explain clock_words
        (refusal (codes "cronsim: zone\n"))) }
{
    Answer::refused(alloc, "cronsim: zone\n")?.explained(
        explain,
        "--time-zone: want UTC, the name of a zone, a POSIX rule like CET-1CEST,M3.5.0,M10.5.0/3, or NAME=RULE\n",
    )
}

// Both texts with the times of the zone's clock.
fn timed(alloc: Global, zone: &Zone, answer: Answer) -> Result<Answer, Failure>
    ensures { IfOk result (λ a. IsTimed zone.now (outcome_of answer) (outcome_of a)) }
{
    let by_clock = text_by_clock(alloc, zone, answer.printed.as_str())?;
    let said_by_clock = text_by_clock(alloc, zone, answer.said.as_str())?;
    Ok(Answer {
        ending: answer.ending,
        printed: by_clock,
        said: said_by_clock,
    })
}

// The answer by the zone's clock, unless it is one value.
fn shown_by(alloc: Global, output: &str, zone: &Zone, answer: Answer) -> Result<Answer, Failure>
    ensures { IfOk result (λ a. IsShownBy (is_json output.now) zone.now (outcome_of answer)
        (outcome_of a)) }
{
    if is_json(output) {
        Ok(answer)
    } else {
        timed(alloc, zone, answer)
    }
}

// The answer by the clock of the zone that is given, or the refusal of that.
fn in_zone(
    alloc: Global,
    output: &str,
    explain: bool,
    zone: Option<&str>,
    files: &[ZoneFile],
    answer: Answer,
) -> Result<Answer, Failure>
    ensures { IfOk result (λ a. IsInZone output.now explain zone.entry files.now (outcome_of answer)
        (outcome_of a)) }
{
    match zones_for(alloc, None, zone, files) {
        Ok(table) => shown_by(alloc, output, table.default_zone(), answer),
        Err(Refusal::OutOfMemory) => Err(Failure::Memory),
        Err(_) => Ok(refused_zone(alloc, explain)?),
    }
}

// The same where a zone is given; else the answer as it is.
fn zoned(
    alloc: Global,
    output: &str,
    explain: bool,
    zone: Option<&str>,
    files: &[ZoneFile],
    answer: Answer,
) -> Result<Answer, Failure>
    ensures { IfOk result (λ a. IsZoned output.now explain zone.entry files.now (outcome_of answer)
        (outcome_of a)) }
{
    match zone {
        Some(_) => in_zone(alloc, output, explain, zone, files, answer),
        None => Ok(answer),
    }
}

// An answer by the clock and in the form that its words ask for.
fn in_form_by(
    alloc: Global,
    output: &str,
    explain: bool,
    zone: Option<&str>,
    files: &[ZoneFile],
    answer: Answer,
) -> Result<Answer, Failure>
    ensures { IfOk result (λ a. IsInFormBy output.now explain zone.entry files.now
        (outcome_of answer) (outcome_of a)) }
{
    let by_clock = zoned(alloc, output, explain, zone, files, answer)?;
    in_form(alloc, output, by_clock)
}

/// An answer in the form that its words ask for, as `formed` has it, and by the clock that they ask
/// for: in lines, in a table or in a picture its times are those of the zone's clock. One value
/// stays as it is. A zone that there is none of is refused, whatever else the answer was.
pub(crate) fn formed_by(
    alloc: Global,
    output: &str,
    explain: bool,
    clock: &ClockWords<'_>,
    files: &[ZoneFile],
    answer: Result<Answer, Failure>,
) -> Result<Answer, Failure>
    ensures { IfOk result (λ a. IsFormedBy output.now explain clock.now.zone files.now answer
        (outcome_of a)) }
{
    in_form_by(alloc, output, explain, clock.zone, files, answer?)
}
