// Members that no command reads.
ghost use Rattle.std.specs.Prelude.{◌≡◌, ◌++◌, OnOk, IfOk, IfErr, string_bytes};
ghost use Rattle.cj_base.specs.declared.refusal.Refusal.TheVariants.{OutOfMemory};
ghost use Rattle.serde_json.specs.Find.{as_object};
ghost use Rattle.serde_json.specs.View.{view, members_view};
ghost use Rattle.cj_scenario.specs.detection.Detections.{ignored_in, ignored_line, ignored_of};

use crate::detection::form::Form;
use cj_types::Refusal;
use serde_json::{Map, Value};
use std::alloc::{AllocError, Global};

fn push_line(text: &mut String, key: &str) -> Result<(), AllocError>
    ensures { OnOk result (string_bytes text.new ≡ string_bytes text.old ++ ignored_line key.now) }
{
    text.push_str(key)?;
    text.push_str(": no member that is known here, so it is ignored\n")
}

fn push_ignored(
    text: &mut String,
    form: Form,
    members: &Map<String, Value>,
) -> Result<(), AllocError>
    ensures { OnOk result (string_bytes text.new
        ≡ string_bytes text.old ++ ignored_in form (members_view members.now.entries)) }
{
    for (key, _) in members.iter() {
        if !form.knows(key.as_str()) {
            push_line(text, key.as_str())?;
        }
    }
    Ok(())
}

/// A line for each member of an object that no text of that form has.
pub(crate) fn ignored_words(alloc: Global, form: Form, value: &Value) -> Result<String, Refusal>
    ensures ok { IfOk result (λ s. string_bytes s ≡ ignored_of form (as_object (view value.now))) }
    ensures err { IfErr result (λ e. e ≡ OutOfMemory) }
{
    let mut text = String::new(alloc);
    if let Some(members) = value.as_object() {
        push_ignored(&mut text, form, members)?;
    }
    Ok(text)
}
