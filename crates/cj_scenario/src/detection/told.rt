// What is said of a JSON text where a text of a certain form is wanted.
ghost use Rattle.std.specs.Prelude.{◌≡◌, IfOk, IfErr, string_bytes};
ghost use Rattle.cj_base.specs.declared.refusal.Refusal.TheVariants.{OutOfMemory};
ghost use Rattle.serde_json.specs.View.{view};
ghost use Rattle.cj_scenario.specs.detection.Detections.{IsDetection, form_line, detection_words, rest_words};

use crate::detection::form::Form;
use crate::detection::fraction::fraction_words;
use crate::detection::ignored::ignored_words;
use crate::fault::SceneFault;
use crate::read::value_of;
use cj_types::Refusal;
use serde_json::Value;
use std::alloc::Global;

// What the text is, where it isn't what is wanted.
fn form_line(wanted: Form, found: Form) -> &'static str
    ensures { result.now ≡ form_line wanted found }
{
    if found == wanted { "" } else { found.words() }
}

// Of a manifest, where its first number with a fraction is; of any other text, the members that no
// command reads.
fn rest_words(alloc: Global, wanted: Form, value: &Value) -> Result<String, Refusal>
    ensures ok { IfOk result (λ s. string_bytes s ≡ rest_words wanted (view value.now)) }
    ensures err { IfErr result (λ e. e ≡ OutOfMemory) }
{
    match wanted {
        Form::Manifest => fraction_words(alloc, value),
        _ => ignored_words(alloc, wanted, value),
    }
}

/// Lines on a value where one of a certain form is wanted. A value of another form: what it is. Of
/// a manifest: where its first number with a fraction is. Of any other value: the members that no
/// command reads.
pub fn detect_at(alloc: Global, wanted: Form, value: &Value) -> Result<String, Refusal>
    ensures ok { IfOk result (λ s. string_bytes s ≡ detection_words wanted (view value.now)) }
    ensures err { IfErr result (λ e. e ≡ OutOfMemory) }
{
    let line = form_line(wanted, Form::of(value));
    if line.is_empty() {
        rest_words(alloc, wanted, value)
    } else {
        Ok(String::from_str(alloc, line)?)
    }
}

/// Lines on the value that bytes are, where one of a certain form is wanted. Of bytes that are no
/// JSON nothing is said. The only error is want of memory.
pub fn detect(alloc: Global, wanted: Form, bytes: &[u8]) -> Result<String, Refusal>
    ensures ok { IfOk result (λ s. IsDetection wanted bytes.now (string_bytes s)) }
    ensures err { IfErr result (λ e. e ≡ OutOfMemory) }
{
    match value_of(alloc, bytes) {
        Ok(value) => detect_at(alloc, wanted, &value),
        Err(SceneFault::Memory) => Err(Refusal::OutOfMemory),
        Err(_) => Ok(String::new(alloc)),
    }
}
