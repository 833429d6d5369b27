// The form of what is printed.
ghost use Rattle.std.specs.Prelude.{◌≡◌, ◌∷◌, [], IfOk, codes, string_bytes};
ghost use Rattle.serde_json.specs.View.{view};
ghost use Rattle.cj_yaml.specs.BlockStyle.{IsBlock};
ghost use Rattle.cj_yaml.specs.ReadOf.{IsReadOf};
ghost use Rattle.cj_answers.specs.Outcome.{explained, outcome_of, refusal};
ghost use Rattle.cj_answers.specs.as_json.Forms.{IsJsonLine, form_words, is_form, is_json, is_yaml};

use crate::answer::Answer;
use cj_io::Failure;
use cj_yaml::{WriteFault, write};
use serde_json::Value;
use std::alloc::{AllocError, Global};

/// Whether the one value of an answer is wanted in YAML.
pub fn is_yaml(text: &str) -> bool
    ensures { result ≡ is_yaml text.now }
{
    text == "yaml"
}

/// Whether one value is wanted: in JSON, or in YAML, which the program makes of that.
pub fn is_json(text: &str) -> bool
    ensures { result ≡ is_json text.now }
{
    let is_itself = text == "json";
    let is_yaml = is_yaml(text);
    is_itself || is_yaml
}

/// Whether this is a form of an answer: lines, JSON or YAML.
pub fn is_form(text: &str) -> bool
    ensures { result ≡ is_form text.now }
{
    let is_lines = text == "lines";
    let is_json = is_json(text);
    is_lines || is_json
}

fn no_form(alloc: Global, explain: bool) -> Result<Answer, AllocError>
    ensures { IfOk result (λ a. outcome_of a ≡ explained explain form_words
        (refusal (codes "cronsim: output\n"))) }
{
    Answer::refused(alloc, "cronsim: output\n")?.explained(
        explain,
        "--output: want lines, json or yaml\n",
    )
}

/// What is answered where the form is none.
pub fn refused_form(alloc: Global, explain: bool) -> Result<Answer, Failure>
    ensures { IfOk result (λ a. outcome_of a ≡ explained explain form_words
        (refusal (codes "cronsim: output\n"))) }
{
    Ok(no_form(alloc, explain)?)
}

/// The text of a value in YAML: one document in block style, which is read as that value.
pub fn yaml_text(alloc: Global, value: &Value) -> Result<String, Failure>
    ensures reads_back { IfOk result (λ s. IsReadOf (string_bytes s) (view value.now ∷ [])) }
    ensures text { IfOk result (λ s. IsBlock (view value.now) (string_bytes s)) }
{
    match write(alloc, value) {
        Ok(text) => Ok(text),
        Err(WriteFault::Memory) => Err(Failure::Memory),
        Err(_) => Err(Failure::UnexpectedRefusal),
    }
}

/// A value on a line of its own.
pub fn value_line(alloc: Global, value: &Value) -> Result<String, AllocError>
    ensures { IfOk result (λ s. IsJsonLine (view value.now) (string_bytes s)) }
{
    let mut text = value.to_string(alloc)?;
    text.push_str("\n")?;
    Ok(text)
}
