// What `check` finds in a list of manifests.
ghost use Rattle.std.specs.Prelude.{◌≡◌, ◌++◌, ◌∷◌, [], ℕ, List, IfOk, OnOk, map, string_bytes};
ghost use Rattle.std.specs.List.{count_by, list_all};
ghost use Rattle.cj_zone.specs.Table.{zones_of};
ghost use Rattle.cj_manifest.specs.Either.{manifest_draft, manifest_faults, manifest_warnings};
ghost use Rattle.cj_manifest.specs.Reading.{IsReading, IsRefused};
ghost use Rattle.cj_manifest.specs.declared.manifest.Manifest.{Manifest as Said};
ghost use Rattle.serde_json.specs.View.{view};
ghost use Rattle.cj_answers.specs.Clusters.{item_prefix};
ghost use Rattle.cj_answers.specs.Marks.{marked};
ghost use Rattle.cj_answers.specs.Outcome.{outcome_of};
ghost use Rattle.cj_check.specs.AsJson.{taken_item};
ghost use Rattle.cj_check.specs.CheckList.{duplicate, duplicate_line, duplicate_words, is_fine, item_counts, item_lines, list_words, listed, text_in};
ghost use Rattle.cj_check.specs.Reports.{AreAnswers, AreValues, IsItemReport};
ghost use Rattle.cj_check.specs.declared.seen.SeenKeys.{SeenKeys};

use crate::as_json::{place_value, taken_item};
use crate::manifest::{faulty, is_alone};
use crate::report::{Report, fine_report, refused_report};
use crate::seen::SeenKeys;
use crate::several::{Stream, several_pod};
use cj_answers::{Answer, Ending, ending_by, item_prefix, marked};
use cj_args::CheckRequest;
use cj_base::Refusal;
use cj_io::Failure;
use cj_json::push_value;
use cj_manifest::{Manifest, Warning, read_manifest};
use cj_types::Text;
use cj_zone::ZoneTable;
use serde_json::Value;
use std::alloc::{AllocError, Global};

fn push_answer(answers: &mut Vec<Answer>, answer: Answer) -> Result<(), AllocError>
    ensures { OnOk result (answers.new.items ≡ answers.old.items ++ answer ∷ []) }
{
    answers.push(answer).map_err(AllocError::from)
}

fn duplicate_line(alloc: Global, manifest: &Manifest) -> Result<String, AllocError>
    ensures { IfOk result (λ s. string_bytes s ≡ duplicate_line manifest.now) }
{
    let kind = manifest.kind();
    let key = manifest.key();
    let namespace = key.namespace();
    let name = key.name();
    format!(in alloc; "duplicate {kind} {namespace}/{name}\n")
}

fn duplicate_words(alloc: Global, manifest: &Manifest) -> Result<String, AllocError>
    ensures { IfOk result (λ s. string_bytes s ≡ duplicate_words manifest.now) }
{
    let kind = manifest.kind();
    format!(in alloc;
        "duplicate: an item before is the {kind} of this name too; of the two one is kept\n"
    )
}

// The answer for an item whose key an earlier item of its kind has.
fn duplicate(
    alloc: Global,
    check: &CheckRequest<'_>,
    manifest: &Manifest,
) -> Result<Answer, AllocError>
    ensures { IfOk result (λ a. outcome_of a ≡ duplicate check.now manifest.now) }
{
    let line = duplicate_line(alloc, manifest)?;
    let words = duplicate_words(alloc, manifest)?;
    faulty(alloc, line).explained(check.explain, words.as_str())
}

// The report of an item whose key an earlier item of its kind has.
fn duplicate_report(
    alloc: Global,
    check: &CheckRequest<'_>,
    place: Value,
    manifest: &Manifest,
) -> Result<Report, AllocError>
    ensures { IfOk result (λ t. (outcome_of t.answer ≡ duplicate check.now manifest.now)
        × (view t.value ≡ taken_item (view place))) }
{
    let answer = duplicate(alloc, check, manifest)?;
    let value = taken_item(alloc, place)?;
    Ok(Report { answer, value })
}

// The report of an item without a fault, behind the items before it.
fn manifest_report(
    alloc: Global,
    check: &CheckRequest<'_>,
    place: u64,
    zones: &ZoneTable,
    seen: &mut SeenKeys,
    manifest: &Manifest,
    warnings: &[Warning],
) -> Result<Report, Failure>
    ensures { (text : List ℕ) → IsReading Said (manifest_faults (zones_of zones.now)) manifest_draft
        manifest_warnings text manifest.now warnings.now → IfOk result
        (IsItemReport check.now (zones_of zones.now) place seen.old seen.new text) }
{
    let is_free = seen.add(alloc, manifest)?;
    let place = place_value(place);
    if is_free {
        fine_report(alloc, check, false, zones, place, manifest, warnings)
    } else {
        Ok(duplicate_report(alloc, check, place, manifest)?)
    }
}

// The report of an item that is refused.
fn refused_item(
    alloc: Global,
    check: &CheckRequest<'_>,
    place: u64,
    zones: &ZoneTable,
    bytes: &[u8],
    refusal: &Refusal,
) -> Result<Report, Failure>
    requires { IsRefused (manifest_faults (zones_of zones.now)) bytes.now refusal.now }
    ensures { (seen : SeenKeys) → IfOk result
        (IsItemReport check.now (zones_of zones.now) place seen seen bytes.now) }
{
    refused_report(
        alloc,
        check,
        false,
        zones,
        place_value(place),
        bytes,
        refusal,
    )
}

fn bytes_report(
    alloc: Global,
    check: &CheckRequest<'_>,
    place: u64,
    zones: &ZoneTable,
    seen: &mut SeenKeys,
    bytes: &[u8],
) -> Result<Report, Failure>
    ensures { IfOk result
        (IsItemReport check.now (zones_of zones.now) place seen.old seen.new bytes.now) }
{
    match read_manifest(alloc, bytes, zones) {
        Ok((manifest, warnings)) => {
            manifest_report(
                alloc,
                check,
                place,
                zones,
                seen,
                &manifest,
                warnings.as_slice(),
            )
        }
        Err(refusal) => refused_item(alloc, check, place, zones, bytes, &refusal),
    }
}

// The report of the item at a place, behind the items before it.
fn item_report(
    alloc: Global,
    check: &CheckRequest<'_>,
    place: u64,
    zones: &ZoneTable,
    seen: &mut SeenKeys,
    text: &Text,
) -> Result<Report, Failure>
    ensures { IfOk result
        (IsItemReport check.now (zones_of zones.now) place seen.old seen.new text.now) }
{
    bytes_report(alloc, check, place, zones, seen, text.as_str().as_bytes())
}

// The answers and the values with those of one more item.
fn push_report(
    answers: &mut Vec<Answer>,
    values: &mut Vec<Value>,
    report: Report,
) -> Result<(), Refusal>
    ensures answers { OnOk result (answers.new.items
        ≡ answers.old.items ++ (report.answer ∷ [])) }
    ensures values { OnOk result (map view values.new.items
        ≡ map view values.old.items ++ (view report.value ∷ [])) }
{
    let Report { answer, value } = report;
    push_answer(answers, answer)?;
    push_value(values, value)
}

/// What is found in the items of a list: the answer and the value of each.
#[derive(Drop)]
pub(crate) struct ItemReports {
    pub answers: Vec<Answer>,
    pub values: Vec<Value>,
}

/// The answer of each item of a list, and its value.
pub(crate) fn list_reports(
    alloc: Global,
    check: &CheckRequest<'_>,
    zones: &ZoneTable,
    texts: &[Text],
) -> Result<ItemReports, Failure>
    ensures answers { IfOk result (λ t. AreAnswers check.now (zones_of zones.now) texts.now
        t.answers.items) }
    ensures values { IfOk result (λ t. AreValues (zones_of zones.now) texts.now
        (map view t.values.items)) }
{
    let mut answers = Vec::new(alloc);
    let mut values = Vec::new(alloc);
    let mut seen = SeenKeys::new(alloc);
    let mut place = 0;
    for text in texts {
        place += 1;
        let report = item_report(alloc, check, place, zones, &mut seen, text)?;
        push_report(&mut answers, &mut values, report)?;
    }
    Ok(ItemReports { answers, values })
}

fn text_in(stream: Stream, answer: &Answer) -> &str
    ensures { result.now ≡ text_in stream answer.now }
{
    match stream {
        Stream::Output => answer.printed.as_str(),
        Stream::Error => answer.said.as_str(),
    }
}

// The lines of an item, each with its place before it.
fn lines_of(
    alloc: Global,
    stream: Stream,
    place: u64,
    answer: &Answer,
) -> Result<String, AllocError>
    ensures { IfOk result (λ s. string_bytes s
        ≡ marked (item_prefix place) (text_in stream answer.now)) }
{
    let prefix = item_prefix(alloc, place)?;
    marked(alloc, prefix.as_str(), text_in(stream, answer))
}

fn item_lines(alloc: Global, stream: Stream, answers: &[Answer]) -> Result<String, AllocError>
    ensures { IfOk result (λ s. string_bytes s ≡ item_lines stream 1 answers.now) }
{
    let mut text = String::new(alloc);
    let mut place = 0;
    for answer in answers {
        place += 1;
        let lines = lines_of(alloc, stream, place, answer)?;
        text.push_str(lines.as_str())?;
    }
    Ok(text)
}

fn is_fine(answer: &Answer) -> bool
    ensures { result ≡ is_fine answer.now }
{
    match answer.ending {
        Ending::Done => true,
        Ending::Refused => false,
    }
}

fn all_fine(answers: &[Answer]) -> bool
    ensures { result ≡ list_all is_fine answers.now }
{
    answers.iter().all(|answer| is_fine(answer))
}

fn fine_count(answers: &[Answer]) -> usize
    ensures { result ≡ count_by is_fine answers.now }
{
    let mut count = 0;
    for answer in answers {
        if is_fine(answer) {
            count += 1;
        }
    }
    count
}

fn item_counts(alloc: Global, strict: bool, answers: &[Answer]) -> Result<String, AllocError>
    ensures { IfOk result (λ s. string_bytes s ≡ item_counts strict answers.now) }
{
    if !strict {
        return Ok(String::new(alloc));
    }
    let all = answers.len();
    let fine = fine_count(answers);
    let refused = all.saturating_sub(fine);
    format!(in alloc; "{all} items: {fine} fine, {refused} refused\n")
}

// What is said after the lines of the items.
fn list_words(
    alloc: Global,
    check: &CheckRequest<'_>,
    answers: &[Answer],
) -> Result<String, AllocError>
    ensures { IfOk result (λ s. string_bytes s ≡ list_words check.now answers.now) }
{
    let is_alone = is_alone(check);
    let mut words = String::from_str(alloc, several_pod(check.explain && is_alone))?;
    let counts = item_counts(alloc, check.strict, answers)?;
    words.push_str(counts.as_str())?;
    Ok(words)
}

/// The answer of a list, by those of its items: one after another, with the place of each before
/// its lines.
pub(crate) fn listed(
    alloc: Global,
    check: &CheckRequest<'_>,
    answers: &[Answer],
) -> Result<Answer, AllocError>
    ensures { IfOk result (λ a. outcome_of a ≡ listed check.now answers.now) }
{
    let printed = item_lines(alloc, Stream::Output, answers)?;
    let mut said = item_lines(alloc, Stream::Error, answers)?;
    let words = list_words(alloc, check, answers)?;
    said.push_str(words.as_str())?;
    Ok(Answer {
        ending: ending_by(all_fine(answers)),
        printed,
        said,
    })
}
