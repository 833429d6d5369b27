// The items of a list of a cluster's objects that can't be used, in lines.
ghost use Rattle.std.specs.Prelude.{◌≡◌, ◌++◌, IfOk, OnOk, codes, string_bytes};
ghost use Rattle.cj_cluster.specs.kubectl.Reading.{IsRefusedList};
ghost use Rattle.cj_cluster.specs.declared.kubectl.fault.ListFault.TheVariants as Fault;
ghost use Rattle.cj_answers.specs.Clusters as told;
ghost use Rattle.cj_answers.specs.Outcome.{explained, outcome_of, refusal};

use crate::answer::{Answer, Ending};
use crate::json::json_words;
use crate::lines::print_fault;
use cj_base::FieldFault;
use cj_cluster::{ItemNote, ListFault, ListedKind, ObjectNamed, Said};
use cj_explain::{explain_fault, kind_name, taken_message};
use cj_io::Failure;
use std::alloc::{AllocError, Global};

/// The beginning of the lines of an item.
pub fn item_prefix(alloc: Global, place: u64) -> Result<String, AllocError>
    ensures { IfOk result (λ s. string_bytes s ≡ told.item_prefix place) }
{
    format!(in alloc; "item {place} ")
}

fn push_item(alloc: Global, text: &mut String, place: u64, line: &str) -> Result<(), AllocError>
    ensures { OnOk result (string_bytes text.new
        ≡ string_bytes text.old ++ (told.item_prefix place ++ line.now)) }
{
    let prefix = item_prefix(alloc, place)?;
    text.push_str(prefix.as_str())?;
    text.push_str(line)
}

fn push_faults(
    alloc: Global,
    text: &mut String,
    place: u64,
    faults: &[FieldFault],
) -> Result<(), AllocError>
    ensures { OnOk result (string_bytes text.new
        ≡ string_bytes text.old ++ told.item_fault_lines place faults.now) }
{
    for fault in faults {
        let line = print_fault(alloc, *fault)?;
        push_item(alloc, text, place, line.as_str())?;
    }
    Ok(())
}

fn kind_line(alloc: Global, kind: &str) -> Result<String, AllocError>
    ensures { IfOk result (λ s. string_bytes s ≡ codes "kind " ++ (kind.now ++ codes "\n")) }
{
    format!(in alloc; "kind {kind}\n")
}

fn taken_line(alloc: Global, kind: ListedKind, key: &str) -> Result<String, AllocError>
    ensures { IfOk result (λ s. string_bytes s ≡ told.taken_line kind key.now) }
{
    let kind = kind_name(kind);
    format!(in alloc; "duplicate {kind} {key}\n")
}

fn push_said(alloc: Global, text: &mut String, place: u64, said: &Said) -> Result<(), AllocError>
    ensures { OnOk result (string_bytes text.new
        ≡ string_bytes text.old ++ told.said_lines place said.now) }
{
    match said {
        Said::Kind(kind) => {
            let line = kind_line(alloc, kind.as_str())?;
            push_item(alloc, text, place, line.as_str())
        }
        Said::Refused(faults) => push_faults(alloc, text, place, faults.as_slice()),
        Said::Taken(kind, key) => {
            let line = taken_line(alloc, *kind, key.as_str())?;
            push_item(alloc, text, place, line.as_str())
        }
    }
}

/// The lines of the items that can't be used.
pub fn note_lines(alloc: Global, notes: &[ItemNote]) -> Result<String, AllocError>
    ensures { IfOk result (λ s. string_bytes s ≡ told.note_lines notes.now) }
{
    let mut text = String::new(alloc);
    for note in notes {
        push_said(alloc, &mut text, note.place, &note.said)?;
    }
    Ok(text)
}

// The beginning of the words on an item, with its name where it says one.
fn named_prefix(
    alloc: Global,
    place: u64,
    object: &Option<ObjectNamed>,
) -> Result<String, AllocError>
    ensures { IfOk result (λ s. string_bytes s ≡ told.named_prefix place object.now) }
{
    match object {
        None => item_prefix(alloc, place),
        Some(object) => {
            let (kind, name) = (object.kind.as_str(), object.name.as_str());
            let namespace = object.namespace.as_str();
            format!(in alloc; "item {place} ({kind} {namespace}/{name}) ")
        }
    }
}

fn push_prefixed(text: &mut String, prefix: &str, words: &str) -> Result<(), AllocError>
    ensures { OnOk result (string_bytes text.new
        ≡ string_bytes text.old ++ (prefix.now ++ words.now)) }
{
    text.push_str(prefix)?;
    text.push_str(words)
}

fn push_fault_words(
    alloc: Global,
    text: &mut String,
    prefix: &str,
    faults: &[FieldFault],
) -> Result<(), AllocError>
    ensures { OnOk result (string_bytes text.new
        ≡ string_bytes text.old ++ told.item_fault_words prefix.now faults.now) }
{
    for fault in faults {
        let words = explain_fault(alloc, *fault)?;
        push_prefixed(text, prefix, words.as_str())?;
    }
    Ok(())
}

fn taken_words(alloc: Global, kind: ListedKind, key: &str) -> Result<String, AllocError>
    ensures { IfOk result (λ s. string_bytes s ≡ told.taken_words kind key.now) }
{
    let message = taken_message(alloc, kind, key)?;
    let message = message.as_str();
    format!(in alloc; "duplicate: {message}\n")
}

fn push_said_words(
    alloc: Global,
    text: &mut String,
    prefix: &str,
    said: &Said,
) -> Result<(), AllocError>
    ensures { OnOk result (string_bytes text.new
        ≡ string_bytes text.old ++ told.said_words prefix.now said.now) }
{
    match said {
        Said::Kind(_) => Ok(()),
        Said::Refused(faults) => push_fault_words(alloc, text, prefix, faults.as_slice()),
        Said::Taken(kind, key) => {
            let words = taken_words(alloc, *kind, key.as_str())?;
            push_prefixed(text, prefix, words.as_str())
        }
    }
}

/// What is wrong with those that are refused, and what is wanted.
pub fn note_words(alloc: Global, notes: &[ItemNote]) -> Result<String, AllocError>
    ensures { IfOk result (λ s. string_bytes s ≡ told.note_words notes.now) }
{
    let mut text = String::new(alloc);
    for note in notes {
        let prefix = named_prefix(alloc, note.place, &note.object)?;
        push_said_words(alloc, &mut text, prefix.as_str(), &note.said)?;
    }
    Ok(text)
}

fn is_other(said: &Said) -> bool
    ensures { result ≡ told.is_other said.now }
{
    match said {
        Said::Kind(_) => true,
        Said::Refused(_) | Said::Taken(_, _) => false,
    }
}

/// Whether no item was refused.
pub fn is_read(notes: &[ItemNote]) -> bool
    ensures { result ≡ told.is_read notes.now }
{
    notes.iter().all(|note| is_other(&note.said))
}

/// Done where all is well.
pub fn ending_by(is_well: bool) -> Ending
    ensures { result ≡ told.ending_by is_well }
{
    if is_well {
        Ending::Done
    } else {
        Ending::Refused
    }
}

// What a list has to be.
const WANTED_LIST: &str =
    "FILE: want what kubectl get cronjobs,jobs -o json prints, without -w: a List, or one CronJob or Job\n";

// Where bytes are no JSON, and what is wanted.
fn syntax_words(alloc: Global, bytes: &[u8]) -> Result<String, Failure>
    ensures { IfOk result (λ s. told.IsSyntaxWords bytes.now (string_bytes s)) }
{
    let mut words = json_words(alloc, bytes)?;
    words.push_str(WANTED_LIST)?;
    Ok(words)
}

fn no_json(alloc: Global, explain: bool, words: &str) -> Result<Answer, AllocError>
    ensures { IfOk result (λ a. outcome_of a ≡ explained explain words.now
        (refusal (told.list_line Fault.Syntax))) }
{
    Answer::refused(alloc, "cronsim: refused 1 Syntax\n")?.explained(explain, words)
}

fn no_list(alloc: Global, explain: bool) -> Result<Answer, AllocError>
    ensures { IfOk result (λ a. outcome_of a ≡ explained explain told.wanted_list
        (refusal (told.list_line Fault.Form))) }
{
    Answer::refused(alloc, "cronsim: list\n")?.explained(explain, WANTED_LIST)
}

/// What bytes are answered that are no list.
pub fn refused_list(
    alloc: Global,
    explain: bool,
    bytes: &[u8],
    fault: ListFault,
) -> Result<Answer, Failure>
    requires { IsRefusedList bytes.now fault }
    ensures { IfOk result (λ a. told.RefusesList explain bytes.now (outcome_of a)) }
{
    match fault {
        ListFault::Syntax => {
            let words = syntax_words(alloc, bytes)?;
            Ok(no_json(alloc, explain, words.as_str())?)
        }
        ListFault::Form => Ok(no_list(alloc, explain)?),
        ListFault::Memory => Err(Failure::Memory),
    }
}
