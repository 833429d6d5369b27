// The lines and the picture of a window.
ghost use Rattle.std.specs.Prelude.{◌≡◌, ◌++◌, IfErr, IfOk, length, string_bytes};
ghost use Rattle.cj_base.specs.declared.refusal.Refusal.TheVariants.{OutOfMemory};
ghost use Rattle.cj_zone.specs.Table.{zones_of};
ghost use Rattle.cj_upcoming.specs.Report.{IsTextOf};
ghost use Rattle.cj_upcoming.specs.Upcoming.{HasMore};
ghost use Rattle.cj_upcoming.specs.declared.fault.StartsFault.TheVariants.{TooMany};
ghost use Rattle.cj_inspect.specs.Windows.{IsCounted, IsSummed, IsSummedOf, total_line, window_look};

use crate::nights::Look;
use crate::upcoming::peaks::peaks_text;
use crate::upcoming::table::table_text;
use cj_cluster::ClusterCron;
use cj_picture::heat_picture;
use cj_types::{Refusal, Seconds, Shared};
use cj_upcoming::{
    Start, StartsFault, Window, standings_text, upcoming, window_lines, zone_changes_text,
};
use cj_zone::{Zone, ZoneTable, time_text};
use std::alloc::{AllocError, Global};

/// The changes of clocks in a window, behind its first instant.
pub(crate) fn window_look(window: &Window) -> Look
    ensures { result ≡ window_look window.now }
{
    match Seconds::new(window.end().get().saturating_sub(1)) {
        Some(last) => Look::Ahead(window.from(), last),
        None => unreachable!(),
    }
}

// How many starts of how many CronJobs.
fn total_line(
    alloc: Global,
    window: &Window,
    crons: usize,
    starts: usize,
) -> Result<String, Refusal>
    ensures ok { IfOk result (λ s. string_bytes s ≡ total_line window.now crons starts) }
    ensures memory { IfErr result (λ e. e ≡ OutOfMemory) }
{
    let from = time_text(alloc, window.from())?;
    let end = time_text(alloc, window.end())?;
    let (from, end) = (from.as_str(), end.as_str());
    Ok(format!(in alloc; "from {from} to {end}: {crons} cron jobs, {starts} starts\n")?)
}

// The lines of these starts, and last how many they are.
fn counted(
    alloc: Global,
    zones: &ZoneTable,
    window: &Window,
    crons: &[Shared<ClusterCron>],
    starts: &[Start],
    peaks: usize,
) -> Result<(String, String), Refusal>
    ensures lines { IfOk result (λ s. IsTextOf (zones_of zones.now) window.now crons.now peaks
        starts.now (string_bytes s.0)) }
    ensures last { IfOk result (λ s. string_bytes s.1
        ≡ total_line window.now (length crons.now) (length starts.now)) }
    ensures memory { IfErr result (λ e. e ≡ OutOfMemory) }
{
    let lines = window_lines(alloc, zones, window, crons, starts, peaks)?;
    let last = total_line(alloc, window, crons.len(), starts.len())?;
    Ok((lines, last))
}

/// What is told of a window, of CronJobs: a line for each minute in which something starts, for
/// each CronJob that starts nothing, for each instant at which the clock of a zone that one of them
/// names is put, for each of the fullest minutes, at most `peaks`, and last how many starts there
/// are.
///
/// `TooMany` where there are more than `most` starts, `Memory` where memory is wanting.
pub(crate) fn counted_text(
    alloc: Global,
    zones: &ZoneTable,
    window: &Window,
    crons: &[Shared<ClusterCron>],
    most: usize,
    peaks: usize,
) -> Result<String, StartsFault>
    ensures ok { IfOk result (λ s. IsCounted (zones_of zones.now) window.now crons.now peaks
        (string_bytes s)) }
    ensures many { IfErr result (λ e. e ≡ TooMany →
        HasMore (zones_of zones.now) window.now crons.now most) }
{
    let starts = upcoming(alloc, zones, window, crons, most)?;
    let (mut text, last) = counted(alloc, zones, window, crons, starts.as_slice(), peaks)?;
    text.push_str(last.as_str())?;
    Ok(text)
}

fn joined(
    alloc: Global,
    table: &str,
    standings: &str,
    changes: &str,
    fullest: &str,
    last: &str,
) -> Result<String, AllocError>
    ensures { IfOk result (λ s. string_bytes s
        ≡ table.now ++ (standings.now ++ (changes.now ++ (fullest.now ++ last.now)))) }
{
    format!(in alloc; "{table}{standings}{changes}{fullest}{last}")
}

// How many these starts and these CronJobs are.
fn last_line(
    alloc: Global,
    window: &Window,
    crons: &[Shared<ClusterCron>],
    starts: &[Start],
) -> Result<String, Refusal>
    ensures ok { IfOk result (λ s. string_bytes s
        ≡ total_line window.now (length crons.now) (length starts.now)) }
    ensures memory { IfErr result (λ e. e ≡ OutOfMemory) }
{
    total_line(alloc, window, crons.len(), starts.len())
}

// What is told of these starts where each CronJob is summed up.
fn summed(
    alloc: Global,
    zones: &ZoneTable,
    window: &Window,
    crons: &[Shared<ClusterCron>],
    starts: &[Start],
    peaks: usize,
) -> Result<String, Refusal>
    ensures ok { IfOk result (λ s. IsSummedOf (zones_of zones.now) window.now crons.now starts.now
        (string_bytes s)) }
{
    let table = table_text(alloc, zones, window, crons)?;
    let standings = standings_text(alloc, zones, window.from(), crons)?;
    let changes = zone_changes_text(alloc, zones, window, crons)?;
    let fullest = peaks_text(alloc, crons, starts, peaks)?;
    let last = last_line(alloc, window, crons, starts)?;
    let text = joined(
        alloc,
        table.as_str(),
        standings.as_str(),
        changes.as_str(),
        fullest.as_str(),
        last.as_str(),
    )?;
    Ok(text)
}

/// What is told of a window, of CronJobs, where each is summed up: a table of those that start
/// something, then the lines that `counted_text` has, but for the minutes.
///
/// `TooMany` where there are more than `most` starts, `Memory` where memory is wanting.
pub(crate) fn summed_text(
    alloc: Global,
    zones: &ZoneTable,
    window: &Window,
    crons: &[Shared<ClusterCron>],
    most: usize,
    peaks: usize,
) -> Result<String, StartsFault>
    ensures ok { IfOk result (λ s. IsSummed (zones_of zones.now) window.now crons.now
        (string_bytes s)) }
    ensures many { IfErr result (λ e. e ≡ TooMany →
        HasMore (zones_of zones.now) window.now crons.now most) }
{
    let starts = upcoming(alloc, zones, window, crons, most)?;
    let text = summed(alloc, zones, window, crons, starts.as_slice(), peaks)?;
    Ok(text)
}

// The words below a picture: these lines, a line for each CronJob that starts nothing, and for each
// instant at which a clock is put.
fn below(
    alloc: Global,
    zones: &ZoneTable,
    window: &Window,
    crons: &[Shared<ClusterCron>],
    items: &str,
) -> Result<String, Refusal>
    ensures memory { IfErr result (λ e. e ≡ OutOfMemory) }
{
    let standings = standings_text(alloc, zones, window.from(), crons)?;
    let standings = standings.as_str();
    let changes = zone_changes_text(alloc, zones, window, crons)?;
    let changes = changes.as_str();
    Ok(format!(in alloc; "{items}{standings}{changes}")?)
}

/// A picture of what starts in a window, of CronJobs, with these lines below it, by the clock of a
/// zone or else by UTC.
///
/// `TooMany` where there are more than `most` starts, `Memory` where memory is wanting.
pub(crate) fn window_drawn(
    alloc: Global,
    zones: &ZoneTable,
    window: &Window,
    crons: &[Shared<ClusterCron>],
    most: usize,
    items: &str,
    clock: Option<&Zone>,
) -> Result<String, StartsFault>
    ensures many { IfErr result (λ e. e ≡ TooMany →
        HasMore (zones_of zones.now) window.now crons.now most) }
{
    let starts = upcoming(alloc, zones, window, crons, most)?;
    let words = below(alloc, zones, window, crons, items)?;
    let text = heat_picture(
        alloc,
        window,
        crons,
        starts.as_slice(),
        words.as_str(),
        clock,
    )?;
    Ok(text)
}
