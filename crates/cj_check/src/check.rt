// What `check` answers of one file.
ghost use Rattle.std.specs.Prelude.{◌≡◌, [], ◌∷◌, IfOk, map};
ghost use Rattle.cj_zone.specs.Table.{zones_of};
ghost use Rattle.cj_cluster.specs.kubectl.Texts.{IsNoList, IsSplit};
ghost use Rattle.serde_json.specs.Data.{null};
ghost use Rattle.serde_json.specs.View.{view};
ghost use Rattle.cj_answers.specs.Outcome.{outcome_of};
ghost use Rattle.cj_answers.specs.as_json.Forms.{is_json};
ghost use Rattle.cj_check.specs.AsJson.{AreItems};
ghost use Rattle.cj_check.specs.CheckList.{IsTextChecked};
ghost use Rattle.cj_check.specs.CheckOutcome.{IsCheckAnswer, IsCheckOutcome, IsCheckPrinted, IsFileOutcome, IsInputAnswer, first_name};

use crate::as_json::check_line;
use crate::check_list::{list_reports, listed};
use crate::manifest::is_alone;
use crate::report::manifest_report;
use cj_answers::{
    Answer, given_zones, is_form, is_json, is_moment, refused_form, refused_now, refused_pair,
};
use cj_args::CheckRequest;
use cj_cluster::item_texts;
use cj_io::{Failure, MOST_BYTES, MOST_READS, ZoneFile, read_input};
use cj_json::push_value;
use cj_types::{Refusal, Text};
use cj_zone::ZoneTable;
use serde_json::Value;
use std::alloc::Global;
use std::io::Read;

// What is found in a file: the answer in lines, and the values of its items.
#[derive(Drop)]
struct FileReport {
    answer: Answer,
    items: Vec<Value>,
}

// The report of a list, whose items have these texts.
fn split_report(
    alloc: Global,
    check: &CheckRequest<'_>,
    bytes: &[u8],
    texts: &[Text],
    zones: &ZoneTable,
) -> Result<FileReport, Failure>
    requires { IsSplit bytes.now texts.now }
    ensures answer { IfOk result (λ f. IsTextChecked check.now (zones_of zones.now) bytes.now
        (outcome_of f.answer)) }
    ensures items { IfOk result (λ f. AreItems (zones_of zones.now) bytes.now
        (map view f.items.items)) }
{
    let reports = list_reports(alloc, check, zones, texts)?;
    let answer = listed(alloc, check, reports.answers.as_slice())?;
    Ok(FileReport {
        answer,
        items: reports.values,
    })
}

// The place of what is no item of a list.
fn no_place() -> Value
    ensures { view result ≡ null }
{
    Value::Null
}

// The value of a manifest, as the one item of what is no list.
fn one_item(alloc: Global, value: Value) -> Result<Vec<Value>, Refusal>
    ensures { IfOk result (λ v. map view v.items ≡ view value ∷ []) }
{
    let mut items = Vec::new(alloc);
    push_value(&mut items, value)?;
    Ok(items)
}

// The report of bytes that are no list.
fn one_report(
    alloc: Global,
    check: &CheckRequest<'_>,
    bytes: &[u8],
    zones: &ZoneTable,
) -> Result<FileReport, Failure>
    requires { IsNoList bytes.now }
    ensures answer { IfOk result (λ f. IsTextChecked check.now (zones_of zones.now) bytes.now
        (outcome_of f.answer)) }
    ensures items { IfOk result (λ f. AreItems (zones_of zones.now) bytes.now
        (map view f.items.items)) }
{
    let alone = is_alone(check);
    let place = no_place();
    let report = manifest_report(alloc, check, alone, zones, place, bytes)?;
    let items = one_item(alloc, report.value)?;
    Ok(FileReport {
        answer: report.answer,
        items,
    })
}

// The report of the bytes of a file: the items of a list one after another, anything else as one
// manifest.
fn file_report(
    alloc: Global,
    check: &CheckRequest<'_>,
    bytes: &[u8],
    zones: &ZoneTable,
) -> Result<FileReport, Failure>
    ensures answer { IfOk result (λ f. IsTextChecked check.now (zones_of zones.now) bytes.now
        (outcome_of f.answer)) }
    ensures items { IfOk result (λ f. AreItems (zones_of zones.now) bytes.now
        (map view f.items.items)) }
{
    match item_texts(alloc, bytes)? {
        Some(texts) => split_report(alloc, check, bytes, texts.as_slice(), zones),
        None => one_report(alloc, check, bytes, zones),
    }
}

// The answer to the bytes of a file, as JSON or in lines.
fn printed_answer(
    alloc: Global,
    check: &CheckRequest<'_>,
    file: &str,
    bytes: &[u8],
    zones: &ZoneTable,
) -> Result<Answer, Failure>
    ensures { IfOk result (λ a. IsCheckPrinted (is_json check.now.output.now) check.now
        (zones_of zones.now) file.now bytes.now (outcome_of a)) }
{
    let FileReport { answer, items } = file_report(alloc, check, bytes, zones)?;
    if is_json(check.output) {
        let printed = check_line(alloc, file, items)?;
        Ok(Answer { printed, ..answer })
    } else {
        Ok(answer)
    }
}

// The answer at a moment, or at none: the zones are looked at first, then all of the input is read.
fn input_answer<R: Read>(
    alloc: Global,
    check: &CheckRequest<'_>,
    file: &str,
    files: &[ZoneFile],
    input: &mut R,
) -> Result<Answer, Failure>
    ensures { IfOk result (λ a. IsInputAnswer check.now file.now files.now (R.remaining input.old)
        (outcome_of a)) }
{
    let Some(zones) = given_zones(alloc, &check.zones, files)? else {
        return refused_pair(alloc, check.explain);
    };
    let bytes = read_input(alloc, input, MOST_BYTES, MOST_READS)?;
    printed_answer(alloc, check, file, bytes.as_slice(), &zones)
}

// The answer in a form that exists.
fn form_answer<R: Read>(
    alloc: Global,
    check: &CheckRequest<'_>,
    file: &str,
    files: &[ZoneFile],
    input: &mut R,
) -> Result<Answer, Failure>
    ensures { IfOk result (λ a. IsCheckAnswer check.now file.now files.now (R.remaining input.old)
        (outcome_of a)) }
{
    if is_moment(alloc, check.moment)? {
        input_answer(alloc, check, file, files, input)
    } else {
        Ok(refused_now(alloc, check.explain)?)
    }
}

/// The answer of `check` to the file of that name. It looks at the form of the output first, then
/// at the moment, then at the zones, and then reads all of the input.
pub fn check_file_answer<R: Read>(
    alloc: Global,
    check: &CheckRequest<'_>,
    file: &str,
    files: &[ZoneFile],
    input: &mut R,
) -> Result<Answer, Failure>
    ensures { IfOk result (λ a. IsFileOutcome check.now file.now files.now
        (R.remaining input.old) (outcome_of a)) }
{
    if is_form(check.output) {
        form_answer(alloc, check, file, files, input)
    } else {
        refused_form(alloc, check.explain)
    }
}

// The name of the first file.
fn first_name<'a>(check: &CheckRequest<'a>) -> &'a str
    ensures { result.now ≡ first_name check.now }
{
    match check.files.as_slice().first() {
        Some(name) => name,
        None => "",
    }
}

/// The answer of `check` to its one file.
pub fn check_answer<R: Read>(
    alloc: Global,
    check: &CheckRequest<'_>,
    files: &[ZoneFile],
    input: &mut R,
) -> Result<Answer, Failure>
    ensures { IfOk result (λ a. IsCheckOutcome check.now files.now (R.remaining input.old)
        (outcome_of a)) }
{
    check_file_answer(alloc, check, first_name(check), files, input)
}
