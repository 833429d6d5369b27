// What starts in a window, a line a CronJob.
use crate::columns::{columns_text, row_of};
use crate::spans::span_text;
use crate::upcoming::coming::{Coming, coming_of};
use cj_cluster::ClusterCron;
use cj_types::{Refusal, Seconds, Shared};
use cj_upcoming::Window;
use cj_zone::{ZoneTable, time_text};
use std::alloc::{AllocError, Global};

const HEAD: [&str; 8] = [
    "NAMESPACE",
    "NAME",
    "STARTS",
    "NEXT",
    "IN",
    "LAST",
    "EVERY",
    "SCHEDULE",
];

fn none(alloc: Global) -> Result<String, AllocError> {
    String::from_str(alloc, "-")
}

fn time_cell(alloc: Global, time: Option<Seconds>) -> Result<String, Refusal> {
    match time {
        Some(time) => time_text(alloc, time),
        None => Ok(none(alloc)?),
    }
}

// How long after an instant a time is.
fn away_cell(alloc: Global, from: Seconds, time: Option<Seconds>) -> Result<String, AllocError> {
    match time {
        Some(time) => span_text(alloc, time.get().saturating_sub(from.get()), 2),
        None => none(alloc),
    }
}

fn every_cell(alloc: Global, every: Option<u64>) -> Result<String, AllocError> {
    match every {
        Some(every) => span_text(alloc, every, 4),
        None => none(alloc),
    }
}

fn row(alloc: Global, from: Seconds, coming: &Coming) -> Result<Vec<String>, Refusal> {
    let key = coming.cron.get().cron.get().key.key();
    let count = coming.sum.count;
    let count = format!(in alloc; "{count}")?;
    let next = time_cell(alloc, coming.next)?;
    let away = away_cell(alloc, from, coming.next)?;
    let last = time_cell(alloc, coming.sum.last)?;
    let every = every_cell(alloc, coming.sum.every)?;
    let cells = [
        key.namespace(),
        key.name(),
        count.as_str(),
        next.as_str(),
        away.as_str(),
        last.as_str(),
        every.as_str(),
        coming.words.as_str(),
    ];
    Ok(row_of(alloc, &cells)?)
}

fn push_row(rows: &mut Vec<Vec<String>>, row: Vec<String>) -> Result<(), Refusal> {
    rows.push(row).map_err(|_| Refusal::OutOfMemory)
}

// The head, and a row for each of them.
fn rows_of(alloc: Global, from: Seconds, all: &[Coming]) -> Result<Vec<Vec<String>>, Refusal> {
    let mut rows = Vec::new(alloc);
    push_row(&mut rows, row_of(alloc, &HEAD)?)?;
    for coming in all {
        push_row(&mut rows, row(alloc, from, coming)?)?;
    }
    Ok(rows)
}

/// A table of the CronJobs that start something from the window's start on; nothing where there are
/// none.
pub(crate) fn table_text(
    alloc: Global,
    zones: &ZoneTable,
    window: &Window,
    crons: &[Shared<ClusterCron>],
) -> Result<String, Refusal> {
    let all = coming_of(alloc, zones, window, crons)?;
    if all.as_slice().is_empty() {
        return Ok(String::new(alloc));
    }
    let rows = rows_of(alloc, window.from(), all.as_slice())?;
    Ok(columns_text(alloc, rows.as_slice())?)
}
