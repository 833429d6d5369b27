// What `--explain` says of bytes that may be YAML, and that no command takes.
ghost use Rattle.std.specs.Prelude.{◌≡◌, IfOk, string_bytes};
ghost use Rattle.cj_yaml.specs.Places.{IsPlaceIn};
ghost use Rattle.cj_answers.specs.Json.{IsYamlWords, yaml_line};

use cj_io::Failure;
use cj_yaml::{Fault, FaultKind, Place, read};
use std::alloc::{AllocError, Global};

// The line with the place at which a text is no YAML, and why.
fn yaml_line(alloc: Global, place: Place, why: &str) -> Result<String, AllocError>
    ensures { IfOk result (λ s. string_bytes s ≡ yaml_line place why.now) }
{
    let Place { line, column } = place;
    format!(in alloc; "FILE: no YAML at line {line}, column {column}: {why}\n")
}

// Whether there is a no-break space, which editors and web pages put in the place of a blank.
fn has_no_break_space(bytes: &[u8]) -> bool {
    let mut last = 0;
    for byte in bytes {
        if last == 0xc2 && *byte == 0xa0 {
            return true;
        }
        last = *byte;
    }
    false
}

// What people may do about such a fault.
fn hint_of(bytes: &[u8], kind: &FaultKind) -> &'static str {
    match kind {
        FaultKind::AnchorName | FaultKind::Indicator =>
            "; a schedule like * * * * * or @daily stands in quotes, and cronsim crontab reads a crontab",
        FaultKind::MergeKey => ", which only readers of YAML 1.1 know; write out what it merges",
        _ if has_no_break_space(bytes) =>
            "; the text has a no-break space (U+00A0) where a plain space is wanted",
        _ => "",
    }
}

fn fault_words(alloc: Global, bytes: &[u8], fault: Fault) -> Result<String, Failure>
    requires { IsPlaceIn bytes.now fault.place }
    ensures { IfOk result (λ s. IsYamlWords bytes.now (string_bytes s)) }
{
    let kind = fault.kind;
    let hint = hint_of(bytes, &kind);
    let why = format!(in alloc; "{kind}{hint}")?;
    Ok(yaml_line(alloc, fault.place, why.as_str())?)
}

/// Why the bytes are no YAML, with the place; or that they are neither a mapping nor a list.
pub(crate) fn yaml_words(alloc: Global, bytes: &[u8]) -> Result<String, Failure>
    ensures { IfOk result (λ s. IsYamlWords bytes.now (string_bytes s)) }
{
    match read(alloc, bytes) {
        Ok(_) => Ok(String::from_str(
            alloc,
            "FILE: neither a mapping nor a list of YAML; cronsim crontab reads a crontab\n",
        )?),
        Err(fault) => match fault.kind {
            FaultKind::OutOfMemory => Err(Failure::Memory),
            _ => fault_words(alloc, bytes, fault),
        },
    }
}
