// Marks where the clock of a zone is put forward or back.
ghost use Rattle.std.specs.Prelude.{◌≡◌, IfErr};
ghost use Rattle.cj_base.specs.declared.refusal.Refusal.TheVariants.{OutOfMemory};

use crate::heat::grid::Grid;
use crate::svg::escaped;
use cj_types::{Refusal, Seconds};
use cj_zone::read_time;
use std::alloc::Global;

// What stands behind the first blank.
fn behind(line: &str) -> &str {
    match line.split_once(' ') {
        Some((_, rest)) => rest,
        None => "",
    }
}

// The time of a line `skips ZONE LOCAL LOCAL TIME` or `repeats ..`; none of other lines.
fn time_of(line: &str) -> Option<Seconds> {
    let is_change = line.starts_with("skips ") || line.starts_with("repeats ");
    if is_change {
        read_time(behind(behind(behind(behind(line)))))
    } else {
        None
    }
}

fn push_mark(
    alloc: Global,
    text: &mut String,
    grid: Grid,
    at: Seconds,
    line: &str,
) -> Result<(), Refusal>
    ensures err { IfErr result (λ e. e ≡ OutOfMemory) }
{
    let Some(row) = grid.row(at.get()) else {
        return Ok(());
    };
    let x = grid.x(grid.minute(at.get())).saturating_sub(1);
    let y = grid.y(row);
    let line = escaped(alloc, line)?;
    let line = line.as_str();
    let mark = format!(in alloc;
        "<path class=\"skip\" d=\"M{x} {y}l0 13\"><title>{line}</title></path>\n"
    )?;
    Ok(text.push_str(mark.as_str())?)
}

/// A mark for each of these lines that says when a clock is put, at its minute, with the line as
/// its title.
pub(crate) fn push_clocks(
    alloc: Global,
    text: &mut String,
    grid: Grid,
    words: &str,
) -> Result<(), Refusal>
    ensures err { IfErr result (λ e. e ≡ OutOfMemory) }
{
    for line in words.lines() {
        if let Some(at) = time_of(line) {
            push_mark(alloc, text, grid, at, line)?;
        }
    }
    Ok(())
}
