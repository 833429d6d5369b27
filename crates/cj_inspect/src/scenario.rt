// What `scenario` answers: a scenario of a cluster or of manifests, which `run` takes.
ghost use Rattle.std.specs.Prelude.{◌≡◌, IfOk};
ghost use Rattle.cj_answers.specs.Outcome.{outcome_of};
ghost use Rattle.cj_inspect.specs.Scenario.{IsScenarioAnswer};

mod crons;
mod lengths;

use crate::cron_files::{CronFile, FileCrons, read_file};
use crate::scenario::crons::{manifest, was_there};
use crate::scenario::lengths::{lengths_of, runs_value};
use crate::upcoming::{refused_length, refused_start, unknown_lines, window_from};
use crate::why::naming::chosen;
use crate::why::{MOST_LIST_BYTES, MOST_LIST_READS, is_nothing, refused_unknown};
use cj_answers::{
    Answer, asked_moment, ending_by, given_zones, is_read, note_lines, note_words, refused_list,
    refused_pair,
};
use cj_args::ScenarioRequest;
use cj_cluster::{ClusterCron, CronMarks};
use cj_io::{Failure, ZoneFile, read_input};
use cj_json::{object_of, push_value, time_value};
use cj_types::{Key, Refusal, Shared};
use cj_upcoming::Window;
use cj_zone::ZoneTable;
use serde_json::{Map, Value, put};
use std::alloc::{AllocError, Global};
use std::io::Read;
use std::slice;

// ---- the scenario

// The CronJobs of a scenario, how their Jobs run, and what there is to say of them.
#[derive(Drop)]
struct Parts {
    crons: Vec<Value>,
    runs: Map<String, Value>,
    said: String,
}

fn key_text(alloc: Global, key: &Key) -> Result<String, AllocError> {
    let (namespace, name) = (key.namespace(), key.name());
    format!(in alloc; "{namespace}/{name}")
}

fn say(alloc: Global, parts: &mut Parts, name: &str, words: &str) -> Result<(), AllocError> {
    let line = format!(in alloc; "{name}: {words}\n")?;
    parts.said.push_str(line.as_str())
}

// Takes a CronJob over, with how long its Jobs took.
fn take(
    alloc: Global,
    parts: &mut Parts,
    file: &FileCrons,
    cron: &Shared<ClusterCron>,
    name: &str,
) -> Result<(), Refusal> {
    let lengths = lengths_of(alloc, &file.list.cluster, cron.get())?;
    if lengths.as_slice().is_empty() {
        say(
            alloc,
            parts,
            name,
            "no Job of it has ended, so its Jobs take 60 seconds",
        )?;
    }
    let runs = runs_value(alloc, lengths.as_slice())?;
    put(&mut parts.runs, alloc, name, runs)?;
    let manifest = manifest(alloc, cron)?;
    push_value(&mut parts.crons, manifest)
}

// Why a CronJob starts nothing, as a server says it.
fn halt_words(marks: CronMarks) -> &'static str {
    if marks.is_deleting {
        "is being deleted"
    } else {
        "is stuck (an entry of status.active has no name)"
    }
}

fn say_halted(
    alloc: Global,
    parts: &mut Parts,
    name: &str,
    marks: CronMarks,
) -> Result<(), AllocError> {
    let words = halt_words(marks);
    let line = format!(in alloc; "scenario: {name} {words}, so it is left out\n")?;
    parts.said.push_str(line.as_str())
}

// Takes a CronJob over that starts Jobs and was there at the start.
fn push_cron(
    alloc: Global,
    parts: &mut Parts,
    window: &Window,
    file: &FileCrons,
    cron: &Shared<ClusterCron>,
) -> Result<(), Refusal> {
    let name = key_text(alloc, cron.get().cron.get().key.key())?;
    let marks = cron.get().marks;
    if marks.is_halted() {
        Ok(say_halted(alloc, parts, name.as_str(), marks)?)
    } else if was_there(cron.get(), window.from()) {
        take(alloc, parts, file, cron, name.as_str())
    } else {
        let words = "left out, since it was created after the start";
        Ok(say(alloc, parts, name.as_str(), words)?)
    }
}

fn parts_of(
    alloc: Global,
    window: &Window,
    file: &FileCrons,
    crons: &[Shared<ClusterCron>],
) -> Result<Parts, Refusal> {
    let mut parts = Parts {
        crons: Vec::new(alloc),
        runs: Map::new(alloc),
        said: String::new(alloc),
    };
    for cron in crons {
        push_cron(alloc, &mut parts, window, file, cron)?;
    }
    Ok(parts)
}

// The zones that the words give, by their names.
fn zones_value(alloc: Global, rules: &[&str]) -> Result<Value, Refusal> {
    let mut zones = Map::new(alloc);
    for word in rules {
        if let Some((name, rule)) = word.split_once('=') {
            let rule = Value::try_from_str(alloc, rule)?;
            put(&mut zones, alloc, name, rule)?;
        }
    }
    Ok(Value::Object(zones))
}

// The names of its members.
const NAMES: &[&str] = &["cronJobs", "end", "runs", "start", "stepSeconds", "zones"];

fn object(
    alloc: Global,
    ends: (Value, Value),
    crons: Value,
    runs: Value,
    zones: Value,
) -> Result<Value, AllocError> {
    let (start, end) = ends;
    let values = [crons, end, runs, start, Value::from(60u64), zones];
    object_of(alloc, NAMES, values)
}

// The text of a scenario, as people read it.
fn scenario_text(
    alloc: Global,
    window: &Window,
    rules: &[&str],
    crons: Vec<Value>,
    runs: Map<String, Value>,
) -> Result<String, Refusal> {
    let start = time_value(alloc, window.from())?;
    let end = time_value(alloc, window.end())?;
    let zones = zones_value(alloc, rules)?;
    let (crons, runs) = (Value::Array(crons), Value::Object(runs));
    let value = object(alloc, (start, end), crons, runs, zones)?;
    let mut text = value.to_string_pretty(alloc)?;
    text.push_str("\n")?;
    Ok(text)
}

// ---- the answer

// The answer for these CronJobs of the file.
fn told(
    alloc: Global,
    scenario: &ScenarioRequest<'_>,
    window: &Window,
    file: &FileCrons,
    crons: &[Shared<ClusterCron>],
) -> Result<Answer, Refusal> {
    let Parts { crons, runs, said } = parts_of(alloc, window, file, crons)?;
    let rules = scenario.zones.rules.as_slice();
    let printed = scenario_text(alloc, window, rules, crons, runs)?;
    let mut lines = note_lines(alloc, file.notes())?;
    lines.push_str(said.as_str())?;
    let answer = Answer {
        ending: ending_by(is_read(file.notes())),
        printed,
        said: lines,
    };
    let words = note_words(alloc, file.notes())?;
    Ok(answer.explained(scenario.explain, words.as_str())?)
}

// The answer for what the file has: the names that the words give are looked at first.
fn file_told(
    alloc: Global,
    scenario: &ScenarioRequest<'_>,
    window: &Window,
    file: &FileCrons,
) -> Result<Answer, Failure> {
    let (within, texts) = (scenario.namespace, scenario.crons.as_slice());
    let all = file.crons.as_slice();
    let unknown = unknown_lines(alloc, within, texts, slice::from_ref(file), all)?;
    if !is_nothing(unknown.as_str()) {
        return refused_unknown(alloc, scenario.explain, unknown.as_str());
    }
    let meant = chosen(alloc, within, texts, all)?;
    Ok(told(alloc, scenario, window, file, meant.as_slice())?)
}

// The answer for the input.
fn input_told<R: Read>(
    alloc: Global,
    scenario: &ScenarioRequest<'_>,
    zones: &ZoneTable,
    window: &Window,
    input: &mut R,
) -> Result<Answer, Failure> {
    let bytes = read_input(alloc, input, MOST_LIST_BYTES, MOST_LIST_READS)?;
    let source = CronFile {
        name: "",
        bytes: bytes.as_slice(),
    };
    match read_file(alloc, &source, zones) {
        Ok(file) => file_told(alloc, scenario, window, &file),
        Err(fault) => refused_list(alloc, scenario.explain, source.bytes, fault),
    }
}

/// What the command `scenario` answers: the start is looked at first, then the length, then the
/// zones, then all of the input is read.
pub fn scenario_answer<R: Read>(
    alloc: Global,
    scenario: &ScenarioRequest<'_>,
    files: &[ZoneFile],
    input: &mut R,
) -> Result<Answer, Failure>
    ensures { IfOk result (λ a. IsScenarioAnswer scenario.now files.now (outcome_of a)) }
{
    let Some(from) = asked_moment(alloc, scenario.from)? else {
        return Ok(refused_start(alloc, scenario.explain)?);
    };
    let Some(window) = window_from(alloc, from, scenario.length, scenario.until)? else {
        return Ok(refused_length(alloc, scenario.explain, scenario.until)?);
    };
    let Some(zones) = given_zones(alloc, &scenario.zones, files)? else {
        return refused_pair(alloc, scenario.explain);
    };
    input_told(alloc, scenario, &zones, &window, input)
}
