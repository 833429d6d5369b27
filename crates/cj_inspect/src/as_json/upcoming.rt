// What `upcoming` prints as JSON.
ghost use Rattle.std.specs.Prelude.{◌≡◌, IfErr, IfOk, map, string_bytes};
ghost use Rattle.cj_base.specs.declared.refusal.Refusal.TheVariants.{OutOfMemory};
ghost use Rattle.serde_json.specs.View.{view};
ghost use Rattle.cj_zone.specs.Table.{zones_of};
ghost use Rattle.cj_upcoming.specs.Upcoming.{HasMore};
ghost use Rattle.cj_upcoming.specs.declared.fault.StartsFault.TheVariants.{TooMany};
ghost use Rattle.cj_inspect.specs.as_json.Upcoming.{AreParts, IsIdleData, IsWindowJson, TellsStarts, file_data, file_object, files_data, name_data, told_in, upcoming_data, upcoming_object};

use crate::as_json::nights::nights_value;
use crate::as_json::summary::summary_value;
use crate::cron_files::FileCrons;
use crate::windows::window_look;
use cj_answers::value_line;
use cj_audit::others_value;
use cj_base::{all_four, both};
use cj_cluster::ClusterCron;
use cj_explain::refused_value;
use cj_json::{object_of, push_value, time_value};
use cj_types::{Refusal, Seconds, Shared};
use cj_upcoming::{
    Start, StartsFault, Window, peaks_value, standing_values, starts_value, upcoming,
    zone_changes_value,
};
use cj_zone::ZoneTable;
use serde_json::{Value, json};
use std::alloc::{AllocError, Global};

// ---- the files

fn name_value(alloc: Global, several: bool, name: &str) -> Result<Value, AllocError>
    ensures { IfOk result (λ v. view v ≡ name_data several name.now) }
{
    if several {
        Value::try_from_str(alloc, name)
    } else {
        Ok(Value::Null)
    }
}

fn file_object(
    alloc: Global,
    name: Value,
    others: Value,
    refused: Value,
) -> Result<Value, AllocError>
    ensures { IfOk result (λ v. view v ≡ file_object (view name) (view others) (view refused)) }
{
    json!(in alloc; {"file": name, "others": others, "refused": refused})
}

fn file_value(alloc: Global, several: bool, file: &FileCrons) -> Result<Value, Refusal>
    ensures ok { IfOk result (λ v. view v ≡ file_data several file.now) }
    ensures err { IfErr result (λ e. e ≡ OutOfMemory) }
{
    let notes = file.notes();
    let (others, refused) = both(others_value(alloc, notes), refused_value(alloc, notes))?;
    let name = name_value(alloc, several, file.name.as_str())?;
    Ok(file_object(alloc, name, others, refused)?)
}

fn file_values(alloc: Global, several: bool, files: &[FileCrons]) -> Result<Vec<Value>, Refusal>
    ensures ok { IfOk result (λ v. map view v.items ≡ map (file_data several) files.now) }
    ensures err { IfErr result (λ e. e ≡ OutOfMemory) }
{
    let mut values = Vec::new(alloc);
    for file in files {
        let value = file_value(alloc, several, file)?;
        push_value(&mut values, value)?;
    }
    Ok(values)
}

/// The items of the files that can't be used, file by file.
pub(crate) fn files_value(
    alloc: Global,
    several: bool,
    files: &[FileCrons],
) -> Result<Value, Refusal>
    ensures ok { IfOk result (λ v. view v ≡ files_data several files.now) }
    ensures err { IfErr result (λ e. e ≡ OutOfMemory) }
{
    Ok(Value::Array(file_values(alloc, several, files)?))
}

// ---- the window

// What a window's value is made of.
#[derive(Drop)]
pub(crate) struct Parts {
    changes: Value,
    clocks: Value,
    idle: Value,
    all_minutes: Value,
    peaks: Value,
    summary: Value,
}

fn idle_value(
    alloc: Global,
    zones: &ZoneTable,
    from: Seconds,
    crons: &[Shared<ClusterCron>],
) -> Result<Value, Refusal>
    ensures ok { IfOk result (λ v. IsIdleData (zones_of zones.now) from crons.now (view v)) }
    ensures err { IfErr result (λ e. e ≡ OutOfMemory) }
{
    Ok(Value::Array(standing_values(alloc, zones, from, crons)?))
}

// The members of the value for these starts.
fn parts_of(
    alloc: Global,
    zones: &ZoneTable,
    window: &Window,
    crons: &[Shared<ClusterCron>],
    starts: &[Start],
    most: usize,
) -> Result<Parts, Refusal>
    ensures ok { IfOk result (λ p. AreParts (zones_of zones.now) window.now crons.now most
        starts.now (told_in p)) }
    ensures err { IfErr result (λ e. e ≡ OutOfMemory) }
{
    let clocks = nights_value(alloc, zones, &window_look(window), crons)?;
    let summary = summary_value(alloc, zones, window, crons)?;
    let (changes, idle, all_minutes, peaks) = all_four(
        zone_changes_value(alloc, zones, window, crons),
        idle_value(alloc, zones, window.from(), crons),
        starts_value(alloc, crons, starts),
        peaks_value(alloc, crons, starts, most),
    )?;
    Ok(Parts {
        changes,
        clocks,
        idle,
        all_minutes,
        peaks,
        summary,
    })
}

// The names of its members.
const UPCOMING_NAMES: &[&str] = &[
    "changes",
    "clockChanges",
    "cronJobs",
    "files",
    "from",
    "idle",
    "minutes",
    "peaks",
    "starts",
    "summary",
    "to",
];

fn upcoming_object(
    alloc: Global,
    ends: (Value, Value),
    counts: (usize, usize),
    files: Value,
    parts: Parts,
) -> Result<Value, AllocError>
    ensures { IfOk result (λ v. view v ≡ upcoming_object (view ends.0) (view ends.1) counts.0
        counts.1 (view files) (told_in parts)) }
{
    let (from, to) = ends;
    let (crons, starts) = (Value::from(counts.0), Value::from(counts.1));
    let Parts {
        changes,
        clocks,
        idle,
        all_minutes,
        peaks,
        summary,
    } = parts;
    let values = [
        changes,
        clocks,
        crons,
        files,
        from,
        idle,
        all_minutes,
        peaks,
        starts,
        summary,
        to,
    ];
    object_of(alloc, UPCOMING_NAMES, values)
}

fn upcoming_value(
    alloc: Global,
    window: &Window,
    counts: (usize, usize),
    files: Value,
    parts: Parts,
) -> Result<Value, Refusal>
    ensures ok { IfOk result (λ v. view v
        ≡ upcoming_data window.now counts.0 counts.1 (view files) (told_in parts)) }
    ensures err { IfErr result (λ e. e ≡ OutOfMemory) }
{
    let ends = both(
        time_value(alloc, window.from()),
        time_value(alloc, window.end()),
    )?;
    Ok(upcoming_object(alloc, ends, counts, files, parts)?)
}

// The value of a window with these starts, on a line.
fn starts_line(
    alloc: Global,
    zones: &ZoneTable,
    window: &Window,
    crons: &[Shared<ClusterCron>],
    starts: &[Start],
    most: usize,
    files: Value,
) -> Result<String, Refusal>
    ensures ok { IfOk result (λ s. TellsStarts (zones_of zones.now) window.now crons.now most
        starts.now (view files) (string_bytes s)) }
    ensures err { IfErr result (λ e. e ≡ OutOfMemory) }
{
    let parts = parts_of(alloc, zones, window, crons, starts, most)?;
    let counts = (crons.len(), starts.len());
    let value = upcoming_value(alloc, window, counts, files, parts)?;
    Ok(value_line(alloc, &value)?)
}

/// The value of a window on a line: its starts, of CronJobs, and the items of files that can't be
/// used, `files`.
///
/// `TooMany` where there are more than `bound` starts, `Memory` where memory is wanting.
pub(crate) fn window_json(
    alloc: Global,
    zones: &ZoneTable,
    window: &Window,
    crons: &[Shared<ClusterCron>],
    bound: usize,
    most: usize,
    files: Value,
) -> Result<String, StartsFault>
    ensures ok { IfOk result (λ s. IsWindowJson (zones_of zones.now) window.now crons.now most
        (view files) (string_bytes s)) }
    ensures many { IfErr result (λ e. e ≡ TooMany →
        HasMore (zones_of zones.now) window.now crons.now bound) }
{
    let starts = upcoming(alloc, zones, window, crons, bound)?;
    let line = starts_line(alloc, zones, window, crons, starts.as_slice(), most, files)?;
    Ok(line)
}
