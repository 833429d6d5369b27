// What is wrong with a field of a manifest.
ghost use Rattle.std.specs.Prelude.{◌≡◌, IfOk, option_map, string_bytes};
ghost use Rattle.cj_explain.specs.Faults.{AreFaultLines, IsFaultLine, IsScheduleLine, cause_of, fault_words, missing, schedule_words, wanted};

use crate::field::{choices, form, most, need, numbers, text_form};
use crate::schedule::{cause_words, title, words};
use cj_base::{Cause, Field, FieldFault, ScheduleFault};
use std::alloc::{AllocError, Global};

// What is wrong with a schedule whose text isn't at hand.
fn schedule_words(alloc: Global, fault: ScheduleFault) -> Result<String, AllocError>
    ensures { IfOk result (λ s. string_bytes s ≡ schedule_words fault) }
{
    let ScheduleFault { field, byte, cause } = fault;
    let words = cause_words(field, cause);
    if field == 0 {
        return String::from_str(alloc, words);
    }
    let title = title(field);
    format!(in alloc; "field {field} ({title}), byte {byte}: {words}")
}

fn wanted(alloc: Global, what: &str) -> Result<String, AllocError>
    ensures { IfOk result (λ s. string_bytes s ≡ wanted what.now) }
{
    format!(in alloc; "want {what}")
}

fn missing(alloc: Global, what: &str) -> Result<String, AllocError>
    ensures { IfOk result (λ s. string_bytes s ≡ missing what.now) }
{
    format!(in alloc; "missing, want {what}")
}

/// What is wrong with a field, and what it wants, without its path.
pub(crate) fn cause_of(alloc: Global, field: Field, cause: Cause) -> Result<String, AllocError>
    ensures { IfOk result (λ s. string_bytes s ≡ cause_of field cause) }
{
    match cause {
        Cause::Required => missing(alloc, need(field)),
        Cause::WrongType => wanted(alloc, form(field)),
        Cause::NotSupported => wanted(alloc, choices(field)),
        Cause::Fraction => wanted(
            alloc,
            "numbers without a fraction, of 64 bits; any other as a text, like \"0.5\"",
        ),
        Cause::TooLong => wanted(alloc, most(field)),
        Cause::Format => wanted(alloc, text_form(field)),
        Cause::Range => wanted(alloc, numbers(field)),
        Cause::Zone => wanted(
            alloc,
            "a zone that is known: UTC, one of --zone NAME=RULE, or one with a file in the folder of --zoneinfo, as /usr/share/zoneinfo",
        ),
        Cause::NotAllowed => String::from_str(alloc, "may not stand here"),
        Cause::Schedule(fault) => schedule_words(alloc, fault),
    }
}

/// A line that says what is wrong with a field.
pub fn explain_fault(alloc: Global, fault: FieldFault) -> Result<String, AllocError>
    ensures { IfOk result (λ s. string_bytes s ≡ fault_words fault) }
{
    let FieldFault { field, cause } = fault;
    let path = field.path();
    let words = cause_of(alloc, field, cause)?;
    let words = words.as_str();
    format!(in alloc; "{path}: {words}\n")
}

// The line of a schedule whose text is at hand.
fn schedule_line(
    alloc: Global,
    text: &str,
    field: Field,
    fault: ScheduleFault,
) -> Result<String, AllocError>
    ensures { IfOk result (λ s. IsScheduleLine text.now field fault (string_bytes s)) }
{
    let path = field.path();
    let words = words(alloc, text, fault)?;
    let words = words.as_str();
    format!(in alloc; "{path}: {words}\n")
}

fn fault_line(alloc: Global, text: Option<&str>, fault: &FieldFault) -> Result<String, AllocError>
    ensures { IfOk result (λ s. IsFaultLine (option_map (λ s. s.now) text.entry) fault.now
        (string_bytes s)) }
{
    match (text, fault.cause) {
        (Some(text), Cause::Schedule(found)) => schedule_line(alloc, text, fault.field, found),
        _ => explain_fault(alloc, *fault),
    }
}

/// A line for each fault of a manifest, by the text of its schedule where that is at hand.
pub fn explain_faults(
    alloc: Global,
    text: Option<&str>,
    faults: &[FieldFault],
) -> Result<String, AllocError>
    ensures { IfOk result (λ s. AreFaultLines (option_map (λ s. s.now) text.entry) faults.now
        (string_bytes s)) }
{
    let mut lines = String::new(alloc);
    for fault in faults {
        let line = fault_line(alloc, text, fault)?;
        lines.push_str(line.as_str())?;
    }
    Ok(lines)
}
