// What is around the cells: the minutes above, the hours at the left, the sums at the right.
ghost use Rattle.std.specs.Prelude.{◌≡◌, IfErr};
ghost use Rattle.cj_base.specs.declared.refusal.Refusal.TheVariants.{OutOfMemory};

use crate::clock::{parts, shown_text};
use crate::heat::grid::Grid;
use cj_types::Refusal;
use cj_upcoming::Minute;
use cj_zone::Zone;
use std::alloc::Global;

fn push_minute(alloc: Global, text: &mut String, grid: Grid, minute: u64) -> Result<(), Refusal>
    ensures err { IfErr result (λ e. e ≡ OutOfMemory) }
{
    let x = grid.x(minute).saturating_add(6);
    let label = if minute < 10 {
        format!(in alloc; "0{minute}")?
    } else {
        format!(in alloc; "{minute}")?
    };
    let label = label.as_str();
    let words = format!(in alloc;
        "<text class=\"dim\" x=\"{x}\" y=\"68\" text-anchor=\"middle\">{label}</text>\n"
    )?;
    Ok(text.push_str(words.as_str())?)
}

/// Every fifth minute above the cells.
pub(crate) fn push_minutes(alloc: Global, text: &mut String, grid: Grid) -> Result<(), Refusal>
    ensures err { IfErr result (λ e. e ≡ OutOfMemory) }
{
    for n in 0..12_u64 {
        push_minute(alloc, text, grid, n.saturating_mul(5))?;
    }
    Ok(())
}

// How many starts the hour has.
fn sum_of(grid: Grid, row: u64, minutes: &[Minute]) -> u64 {
    let mut sum: u64 = 0;
    for minute in minutes {
        if grid.row(minute.time.get()) == Some(row) {
            sum = sum.saturating_add(minute.count as u64);
        }
    }
    sum
}

// The date and hour of a row by the clock: the date in the first row and where a day begins.
fn label(alloc: Global, grid: Grid, clock: Option<&Zone>, row: u64) -> Result<String, Refusal>
    ensures err { IfErr result (λ e. e ≡ OutOfMemory) }
{
    let before = shown_text(alloc, clock, grid.start(row.saturating_sub(1)))?;
    let shown = shown_text(alloc, clock, grid.start(row))?;
    let (date, time) = parts(shown.as_str());
    let named = row == 0 || date != parts(before.as_str()).0;
    let date = if named { date } else { "" };
    Ok(format!(in alloc; "{date} {time}")?)
}

fn push_row(
    alloc: Global,
    text: &mut String,
    grid: Grid,
    clock: Option<&Zone>,
    row: u64,
    minutes: &[Minute],
) -> Result<(), Refusal>
    ensures err { IfErr result (λ e. e ≡ OutOfMemory) }
{
    let y = grid.y(row);
    let below = y.saturating_add(11);
    let label = label(alloc, grid, clock, row)?;
    let label = label.as_str();
    let left = grid.x(0);
    let edge = left.saturating_sub(8);
    let right = grid.x(60).saturating_add(8);
    let sum = sum_of(grid, row, minutes);
    let words = format!(in alloc;
        "<rect class=\"lane\" x=\"{left}\" y=\"{y}\" width=\"839\" height=\"13\" rx=\"2\"/><text class=\"dim\" x=\"{edge}\" y=\"{below}\" text-anchor=\"end\">{label}</text><text class=\"dim\" x=\"{right}\" y=\"{below}\">{sum}</text>\n"
    )?;
    Ok(text.push_str(words.as_str())?)
}

/// The hours, each with its sum; these are the minutes in which something starts.
pub(crate) fn push_rows(
    alloc: Global,
    text: &mut String,
    grid: Grid,
    clock: Option<&Zone>,
    minutes: &[Minute],
) -> Result<(), Refusal>
    ensures err { IfErr result (λ e. e ≡ OutOfMemory) }
{
    for row in 0..grid.rows {
        push_row(alloc, text, grid, clock, row, minutes)?;
    }
    Ok(())
}
