// A cell for each minute in which something starts.
ghost use Rattle.std.specs.Prelude.{◌≡◌, IfErr};
ghost use Rattle.cj_base.specs.declared.refusal.Refusal.TheVariants.{OutOfMemory};

use crate::heat::grid::Grid;
use cj_cluster::ClusterCron;
use cj_types::{Refusal, Shared};
use cj_upcoming::{Minute, Start};
use cj_zone::time_text;
use std::alloc::Global;

// So many CronJobs are named of a minute.
const MOST_NAMES: usize = 20;

/// The starts of the fullest minute.
pub(crate) fn fullest(minutes: &[Minute]) -> usize {
    let mut most = 0;
    for minute in minutes {
        most = most.max(minute.count);
    }
    most
}

fn push_name(
    alloc: Global,
    names: &mut String,
    crons: &[Shared<ClusterCron>],
    start: Option<&Start>,
) -> Result<(), Refusal>
    ensures err { IfErr result (λ e. e ≡ OutOfMemory) }
{
    let Some(start) = start else {
        return Ok(());
    };
    let Some(cron) = crons.get(start.cron) else {
        return Ok(());
    };
    let key = cron.get().cron.get().key.key();
    let (namespace, name) = (key.namespace(), key.name());
    let word = format!(in alloc; "\n{namespace}/{name}")?;
    Ok(names.push_str(word.as_str())?)
}

// The names of the CronJobs that start in the minute, a line each, the first of them.
fn names_of(
    alloc: Global,
    crons: &[Shared<ClusterCron>],
    starts: &[Start],
    minute: &Minute,
) -> Result<String, Refusal>
    ensures err { IfErr result (λ e. e ≡ OutOfMemory) }
{
    let mut names = String::new(alloc);
    for place in 0..minute.count.min(MOST_NAMES) {
        let start = starts.get(minute.first.saturating_add(place));
        push_name(alloc, &mut names, crons, start)?;
    }
    let more = minute.count.saturating_sub(MOST_NAMES);
    if more > 0 {
        let words = format!(in alloc; "\nand {more} more")?;
        names.push_str(words.as_str())?;
    }
    Ok(names)
}

// How strong its colour is, in hundredths: a minute with one start can be seen, the fullest is
// full.
fn strength(most: u64, count: u64) -> u64 {
    let part = count.saturating_mul(80).checked_div(most).unwrap_or(0);
    part.saturating_add(20).min(100)
}

// A part of one, in hundredths.
fn hundredths(alloc: Global, part: u64) -> Result<String, Refusal>
    ensures err { IfErr result (λ e. e ≡ OutOfMemory) }
{
    let whole = part / 100;
    let tens = part / 10 % 10;
    let ones = part % 10;
    Ok(format!(in alloc; "{whole}.{tens}{ones}")?)
}

fn push_rect(
    alloc: Global,
    text: &mut String,
    grid: Grid,
    row: u64,
    minute: &Minute,
    names: &str,
) -> Result<(), Refusal>
    ensures err { IfErr result (λ e. e ≡ OutOfMemory) }
{
    let x = grid.x(grid.minute(minute.time.get()));
    let y = grid.y(row);
    let count = minute.count;
    let shade = hundredths(alloc, strength(grid.most, count as u64))?;
    let shade = shade.as_str();
    let time = time_text(alloc, minute.time)?;
    let time = time.as_str();
    let cell = format!(in alloc;
        "<rect class=\"heat\" x=\"{x}\" y=\"{y}\" width=\"13\" height=\"13\" rx=\"2\" opacity=\"{shade}\"><title>{time}, starts: {count}{names}</title></rect>\n"
    )?;
    Ok(text.push_str(cell.as_str())?)
}

fn push_cell(
    alloc: Global,
    text: &mut String,
    grid: Grid,
    crons: &[Shared<ClusterCron>],
    starts: &[Start],
    minute: &Minute,
) -> Result<(), Refusal>
    ensures err { IfErr result (λ e. e ≡ OutOfMemory) }
{
    match grid.row(minute.time.get()) {
        Some(row) => {
            let names = names_of(alloc, crons, starts, minute)?;
            push_rect(alloc, text, grid, row, minute, names.as_str())
        }
        None => Ok(()),
    }
}

/// The cells of these minutes.
pub(crate) fn push_cells(
    alloc: Global,
    text: &mut String,
    grid: Grid,
    crons: &[Shared<ClusterCron>],
    starts: &[Start],
    minutes: &[Minute],
) -> Result<(), Refusal>
    ensures err { IfErr result (λ e. e ≡ OutOfMemory) }
{
    text.push_str("<g id=\"cells\">\n")?;
    for minute in minutes {
        push_cell(alloc, text, grid, crons, starts, minute)?;
    }
    Ok(text.push_str("</g>\n")?)
}
