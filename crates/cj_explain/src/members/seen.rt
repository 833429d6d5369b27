// What is said of a JSON text that hasn't the form that is wanted.
ghost use Rattle.std.specs.Prelude.{◌≡◌, IfOk, IfErr, string_bytes};
ghost use Rattle.cj_base.specs.declared.refusal.Refusal.TheVariants.{OutOfMemory};
ghost use Rattle.serde_json.specs.View.{view};
ghost use Rattle.cj_explain.specs.members.Looks.{IsLook, is_near, look_words, member_words, rest, wrong_words};
ghost use Rattle.cj_explain.specs.members.Wholes as said;

use crate::members::wholes::whole;
use crate::members::wrong::Wrong;
use cj_scenario::{Form, SceneFault, detect_at, value_of};
use cj_types::Refusal;
use serde_json::Value;
use std::alloc::Global;

fn rest(wanted: Form) -> &'static str
    ensures { result.now ≡ rest wanted }
{
    match wanted {
        Form::Scenario => "FILE: a zone's name or rule is refused, or two Jobs have one minute\n",
        Form::Script => "FILE: a zone's name or rule is refused\n",
        Form::Simulation => {
            "FILE: a zone's name or rule is refused, the end is before the start, or an edit is at no instant of the clock\n"
        }
        _ => "",
    }
}

fn wrong_words(alloc: Global, wanted: Form, value: &Value) -> Result<String, Refusal>
    ensures ok { IfOk result (λ s. string_bytes s
        ≡ wrong_words wanted (said.whole wanted (view value.now))) }
    ensures err { IfErr result (λ e. e ≡ OutOfMemory) }
{
    match whole(alloc, wanted, value) {
        Ok(()) => Ok(String::from_str(alloc, rest(wanted))?),
        Err(Wrong::Member(text)) => Ok(String::from_str(alloc, text.as_str())?),
        Err(Wrong::Memory) => Err(Refusal::OutOfMemory),
    }
}

fn is_near(wanted: Form, found: Form) -> bool
    ensures { result ≡ is_near wanted found }
{
    found == wanted || found == Form::Other
}

fn member_words(alloc: Global, wanted: Form, value: &Value) -> Result<String, Refusal>
    ensures ok { IfOk result (λ s. string_bytes s ≡ member_words wanted (view value.now)) }
    ensures err { IfErr result (λ e. e ≡ OutOfMemory) }
{
    if value.as_object().is_some() && is_near(wanted, Form::of(value)) {
        wrong_words(alloc, wanted, value)
    } else {
        Ok(String::new(alloc))
    }
}

fn look_words(alloc: Global, wanted: Form, value: &Value) -> Result<String, Refusal>
    ensures ok { IfOk result (λ s. string_bytes s ≡ look_words wanted (view value.now)) }
    ensures err { IfErr result (λ e. e ≡ OutOfMemory) }
{
    let mut text = member_words(alloc, wanted, value)?;
    let seen = detect_at(alloc, wanted, value)?;
    text.push_str(seen.as_str())?;
    Ok(text)
}

/// Lines on bytes that aren't of the form that is wanted: the first member that is missing or
/// wrong, by its path, and what it has to be, or where there is none what else may be wrong; and
/// then what else is seen of the text. Of bytes that are no JSON nothing is said. The only error is
/// want of memory.
pub fn look(alloc: Global, wanted: Form, bytes: &[u8]) -> Result<String, Refusal>
    ensures ok { IfOk result (λ s. IsLook wanted bytes.now (string_bytes s)) }
    ensures err { IfErr result (λ e. e ≡ OutOfMemory) }
{
    match value_of(alloc, bytes) {
        Ok(value) => look_words(alloc, wanted, &value),
        Err(SceneFault::Memory) => Err(Refusal::OutOfMemory),
        Err(_) => Ok(String::new(alloc)),
    }
}
