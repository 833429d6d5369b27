// The heat map of a window.
ghost use Rattle.std.specs.Prelude.{◌≡◌, IfErr};
ghost use Rattle.cj_base.specs.declared.refusal.Refusal.TheVariants.{OutOfMemory};

use crate::axis::moment_text;
use crate::heat::cells::{fullest, push_cells};
use crate::heat::clocks::push_clocks;
use crate::heat::grid::Grid;
use crate::heat::rows::{push_minutes, push_rows};
use crate::page::{line_count, push_frame, push_notes};
use crate::svg::escaped;
use cj_cluster::ClusterCron;
use cj_types::{Refusal, Shared};
use cj_upcoming::{Minute, Start, Window, minutes_of};
use cj_zone::{Zone, time_text};
use std::alloc::Global;

// By which clock the hours are.
fn clock_words(alloc: Global, clock: Option<&Zone>) -> Result<String, Refusal>
    ensures err { IfErr result (λ e. e ≡ OutOfMemory) }
{
    match clock {
        Some(zone) => {
            let name = escaped(alloc, zone.name())?;
            let name = name.as_str();
            Ok(format!(in alloc; "the clock of {name}")?)
        }
        None => Ok(String::from_str(alloc, "UTC")?),
    }
}

// From when to when, by which clock, how much starts, and in how many minutes.
fn push_caption(
    alloc: Global,
    text: &mut String,
    window: &Window,
    clock: Option<&Zone>,
    crons: usize,
    starts: usize,
    most: usize,
) -> Result<(), Refusal>
    ensures err { IfErr result (λ e. e ≡ OutOfMemory) }
{
    let from = time_text(alloc, window.from())?;
    let from = from.as_str();
    let end = time_text(alloc, window.end())?;
    let end = end.as_str();
    let clock = clock_words(alloc, clock)?;
    let clock = clock.as_str();
    let caption = format!(in alloc;
        "<text class=\"h\" x=\"16\" y=\"22\">What starts from {from} to {end}, by {clock}</text><text class=\"dim\" x=\"16\" y=\"40\">CronJobs: {crons}, starts: {starts}, in the fullest minute: {most}</text>\n"
    )?;
    Ok(text.push_str(caption.as_str())?)
}

// That there are more hours than are drawn.
fn cut_words(alloc: Global, window: &Window, grid: Grid) -> Result<String, Refusal>
    ensures err { IfErr result (λ e. e ≡ OutOfMemory) }
{
    let drawn = grid.start(grid.rows);
    if drawn >= window.end().get() {
        return Ok(String::new(alloc));
    }
    let from = moment_text(alloc, drawn)?;
    let from = from.as_str();
    Ok(format!(in alloc; "What starts from {from} on isn't drawn\n")?)
}

fn push_all(
    alloc: Global,
    text: &mut String,
    grid: Grid,
    clock: Option<&Zone>,
    crons: &[Shared<ClusterCron>],
    starts: &[Start],
    minutes: &[Minute],
) -> Result<(), Refusal>
    ensures err { IfErr result (λ e. e ≡ OutOfMemory) }
{
    push_minutes(alloc, text, grid)?;
    push_rows(alloc, text, grid, clock, minutes)?;
    push_cells(alloc, text, grid, crons, starts, minutes)
}

/// A picture of what starts in a window, as SVG: a row an hour, a column a minute, by the clock of
/// the zone or else by UTC, and a cell for each minute in which something starts, the stronger the
/// more, with its time, its count and the names of the CronJobs as its title. The sum of an hour is
/// at its right, and these words, line by line, are below; each that says when a clock is put has a
/// mark at its minute. The starts are in order, and name these CronJobs by their places.
///
/// The first row begins at a full hour of the clock; where the clock is put by less than an hour,
/// the rows behind it don't.
///
/// No more than 400 hours are drawn; that there are more is said.
///
/// # Errors
///
/// `OutOfMemory`.
pub fn heat_picture(
    alloc: Global,
    window: &Window,
    crons: &[Shared<ClusterCron>],
    starts: &[Start],
    words: &str,
    clock: Option<&Zone>,
) -> Result<String, Refusal>
    ensures err { IfErr result (λ e. e ≡ OutOfMemory) }
{
    let minutes = minutes_of(alloc, starts)?;
    let minutes = minutes.as_slice();
    let most = fullest(minutes);
    let grid = Grid::new(window, clock, most as u64);
    let mut notes = cut_words(alloc, window, grid)?;
    notes.push_str(words)?;
    let notes = notes.as_str();
    let top = grid.bottom().saturating_add(20);
    let height = top.saturating_add(line_count(notes).saturating_mul(16));
    let mut text = String::new(alloc);
    push_frame(alloc, &mut text, 1040, height, "Starts by minute")?;
    let (all, count) = (crons.len(), starts.len());
    push_caption(alloc, &mut text, window, clock, all, count, most)?;
    push_all(alloc, &mut text, grid, clock, crons, starts, minutes)?;
    push_clocks(alloc, &mut text, grid, notes)?;
    push_notes(alloc, &mut text, top, notes)?;
    text.push_str("</svg>\n")?;
    Ok(text)
}
