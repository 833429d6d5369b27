// What `describe` answers of a file's CronJobs.
ghost use Rattle.std.specs.Prelude.{◌≡◌, IfOk};
ghost use Rattle.cj_answers.specs.Outcome.{outcome_of};
ghost use Rattle.cj_inspect.specs.Describing.{IsDescribed, IsFileDescribed};

use crate::columns::{columns_text, row_of};
use crate::cron_files::{CronFile, FileCrons, read_file};
use crate::schedules::{schedule_of, schedule_words, spec_of, zone_name};
use crate::why::{MOST_LIST_BYTES, MOST_LIST_READS};
use cj_answers::{
    Answer, describe_answer, ending_by, given_zones, is_form, is_json, is_read, note_lines,
    note_words, refused_form, refused_list, refused_pair, value_line,
};
use cj_args::{DescribeRequest, ZoneWords};
use cj_audit::others_value;
use cj_base::both;
use cj_cluster::ClusterCron;
use cj_explain::refused_value;
use cj_io::{Failure, ZoneFile, read_input};
use cj_json::{object_of, push_value, text_or_null};
use cj_types::{Refusal, Shared};
use cj_zone::ZoneTable;
use serde_json::{Value, json};
use std::alloc::{AllocError, Global};
use std::io::Read;

// What keeps a CronJob from starting anything, whatever its schedule says.
fn halt_words(cron: &ClusterCron) -> &'static str {
    if cron.marks.is_deleting {
        ", being deleted"
    } else if cron.marks.is_stuck {
        ", stuck"
    } else if spec_of(cron).suspend {
        ", suspended"
    } else {
        ""
    }
}

// The schedule of a CronJob in words; nothing where it can't be read.
fn words_of(alloc: Global, zones: &ZoneTable, cron: &ClusterCron) -> Result<String, Refusal> {
    let spec = spec_of(cron);
    match schedule_of(zones, spec) {
        Some((schedule, zone)) => schedule_words(alloc, &schedule, zone.name()),
        None => Ok(String::new(alloc)),
    }
}

// ---- lines

fn row(alloc: Global, zones: &ZoneTable, cron: &ClusterCron) -> Result<Vec<String>, Refusal> {
    let key = cron.cron.get().key.key();
    let (namespace, name) = (key.namespace(), key.name());
    let key = format!(in alloc; "{namespace}/{name}")?;
    let mut words = words_of(alloc, zones, cron)?;
    words.push_str(halt_words(cron))?;
    let schedule = spec_of(cron).schedule.as_str();
    Ok(row_of(alloc, &[key.as_str(), schedule, words.as_str()])?)
}

// A line for each CronJob.
fn lines_of(
    alloc: Global,
    zones: &ZoneTable,
    crons: &[Shared<ClusterCron>],
) -> Result<String, Refusal> {
    let mut rows = Vec::new(alloc);
    for cron in crons {
        let row = row(alloc, zones, cron.get())?;
        rows.push(row).map_err(|_| Refusal::OutOfMemory)?;
    }
    Ok(columns_text(alloc, rows.as_slice())?)
}

// The items that can't be used, then the CronJobs.
fn file_lines(alloc: Global, zones: &ZoneTable, file: &FileCrons) -> Result<String, Refusal> {
    let mut text = note_lines(alloc, file.notes())?;
    let lines = lines_of(alloc, zones, file.crons.as_slice())?;
    text.push_str(lines.as_str())?;
    Ok(text)
}

// ---- JSON

// The names of a CronJob's members.
const CRON_NAMES: &[&str] = &[
    "name",
    "namespace",
    "schedule",
    "sentence",
    "suspended",
    "timeZone",
];

fn cron_object(alloc: Global, cron: &ClusterCron, words: String) -> Result<Value, Refusal> {
    let key = cron.cron.get().key.key();
    let spec = spec_of(cron);
    let sentence = Value::String(words);
    let suspended = Value::from(spec.suspend);
    let ((name, namespace), (schedule, zone)) = both(
        both(
            text_or_null(alloc, Some(key.name())),
            text_or_null(alloc, Some(key.namespace())),
        ),
        both(
            text_or_null(alloc, Some(spec.schedule.as_str())),
            text_or_null(alloc, Some(zone_name(spec))),
        ),
    )?;
    let values = [name, namespace, schedule, sentence, suspended, zone];
    Ok(object_of(alloc, CRON_NAMES, values)?)
}

fn cron_values(
    alloc: Global,
    zones: &ZoneTable,
    crons: &[Shared<ClusterCron>],
) -> Result<Vec<Value>, Refusal> {
    let mut values = Vec::new(alloc);
    for cron in crons {
        let words = words_of(alloc, zones, cron.get())?;
        let value = cron_object(alloc, cron.get(), words)?;
        push_value(&mut values, value)?;
    }
    Ok(values)
}

fn file_object(
    alloc: Global,
    crons: Value,
    others: Value,
    refused: Value,
) -> Result<Value, AllocError> {
    json!(in alloc; {"cronJobs": crons, "others": others, "refused": refused})
}

fn file_json(alloc: Global, zones: &ZoneTable, file: &FileCrons) -> Result<String, Refusal> {
    let crons = Value::Array(cron_values(alloc, zones, file.crons.as_slice())?);
    let others = others_value(alloc, file.notes())?;
    let refused = refused_value(alloc, file.notes())?;
    let value = file_object(alloc, crons, others, refused)?;
    Ok(value_line(alloc, &value)?)
}

// ---- the answer

// What is said where a file has no CronJob.
fn none_words(file: &FileCrons) -> &'static str {
    if file.crons.as_slice().is_empty() && file.notes().is_empty() {
        "FILE: it has no CronJob\n"
    } else {
        ""
    }
}

fn told(
    alloc: Global,
    describe: &DescribeRequest<'_>,
    zones: &ZoneTable,
    file: &FileCrons,
) -> Result<Answer, Refusal> {
    let printed = if is_json(describe.output) {
        file_json(alloc, zones, file)?
    } else {
        file_lines(alloc, zones, file)?
    };
    let answer = Answer {
        ending: ending_by(is_read(file.notes())),
        printed,
        said: String::from_str(alloc, none_words(file))?,
    };
    let words = note_words(alloc, file.notes())?;
    Ok(answer.explained(describe.explain, words.as_str())?)
}

// The zones that the words give.
fn zone_words<'a>(
    alloc: Global,
    describe: &DescribeRequest<'a>,
) -> Result<ZoneWords<'a>, AllocError> {
    let mut rules = Vec::new(alloc);
    if let Some(zone) = describe.zone {
        rules.push(zone).map_err(AllocError::from)?;
    }
    Ok(ZoneWords {
        rules,
        folder: describe.folder,
    })
}

// What is answered of a file in a form that there is: the zones are looked at first, then all of
// the input is read.
fn file_answer<R: Read>(
    alloc: Global,
    describe: &DescribeRequest<'_>,
    files: &[ZoneFile],
    input: &mut R,
) -> Result<Answer, Failure> {
    let words = zone_words(alloc, describe)?;
    let Some(zones) = given_zones(alloc, &words, files)? else {
        return refused_pair(alloc, describe.explain);
    };
    let bytes = read_input(alloc, input, MOST_LIST_BYTES, MOST_LIST_READS)?;
    let source = CronFile {
        name: "",
        bytes: bytes.as_slice(),
    };
    match read_file(alloc, &source, &zones) {
        Ok(file) => Ok(told(alloc, describe, &zones, &file)?),
        Err(fault) => refused_list(alloc, describe.explain, source.bytes, fault),
    }
}

// What is answered of a file.
fn form_answer<R: Read>(
    alloc: Global,
    describe: &DescribeRequest<'_>,
    files: &[ZoneFile],
    input: &mut R,
) -> Result<Answer, Failure>
    ensures { IfOk result (λ a. IsFileDescribed describe.now (outcome_of a)) }
{
    if is_form(describe.output) {
        file_answer(alloc, describe, files, input)
    } else {
        refused_form(alloc, describe.explain)
    }
}

/// What the command `describe` answers: of a schedule, or of the CronJobs of a file, which is the
/// input.
pub fn describing_answer<R: Read>(
    alloc: Global,
    describe: &DescribeRequest<'_>,
    files: &[ZoneFile],
    input: &mut R,
) -> Result<Answer, Failure>
    ensures { IfOk result (λ a. IsDescribed describe.now files.now (outcome_of a)) }
{
    if describe.is_in_file() {
        form_answer(alloc, describe, files, input)
    } else {
        describe_answer(alloc, describe, files)
    }
}
