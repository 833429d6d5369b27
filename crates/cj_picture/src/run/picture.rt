// The picture of a history.
ghost use Rattle.std.specs.Prelude.{◌≡◌, IfErr};
ghost use Rattle.cj_base.specs.declared.refusal.Refusal.TheVariants.{OutOfMemory};

use crate::axis::Axis;
use crate::blocks::Block;
use crate::crosses::Cross;
use crate::lanes::{Lane, lay_out};
use crate::page::Page;
use crate::run::bars::place_all;
use crate::run::crons::{axis_of, lanes_of};
use crate::run::marks::{place_gaps, place_marks};
use crate::style::RUN_LEGEND;
use cj_calls::Entry;
use cj_history::gaps_of;
use cj_report::{bars_of, marks_of};
use cj_types::Refusal;
use cj_zone::Zone;
use std::alloc::Global;

// The bars of the history, in these lanes.
fn blocks_in(
    alloc: Global,
    lanes: &mut [Lane],
    axis: Axis,
    entries: &[Entry],
) -> Result<Vec<Block>, Refusal>
    ensures err { IfErr result (λ e. e ≡ OutOfMemory) }
{
    let bars = bars_of(alloc, entries)?;
    place_all(alloc, lanes, axis, bars.as_slice())
}

fn add_marks(
    alloc: Global,
    lanes: &mut [Lane],
    crosses: &mut Vec<Cross>,
    entries: &[Entry],
) -> Result<(), Refusal>
    ensures err { IfErr result (λ e. e ≡ OutOfMemory) }
{
    let marks = marks_of(alloc, entries)?;
    place_marks(alloc, lanes, crosses, marks.as_slice())
}

fn add_gaps(
    alloc: Global,
    lanes: &mut [Lane],
    crosses: &mut Vec<Cross>,
    entries: &[Entry],
) -> Result<(), Refusal>
    ensures err { IfErr result (λ e. e ≡ OutOfMemory) }
{
    let gaps = gaps_of(alloc, entries)?;
    place_gaps(alloc, lanes, crosses, gaps.as_slice())
}

// The crosses of the history, in these lanes.
fn crosses_in(alloc: Global, lanes: &mut [Lane], entries: &[Entry]) -> Result<Vec<Cross>, Refusal>
    ensures err { IfErr result (λ e. e ≡ OutOfMemory) }
{
    let mut crosses = Vec::new(alloc);
    add_marks(alloc, lanes, &mut crosses, entries)?;
    add_gaps(alloc, lanes, &mut crosses, entries)?;
    Ok(crosses)
}

fn page_of(alloc: Global, entries: &[Entry]) -> Result<Page, Refusal>
    ensures err { IfErr result (λ e. e ≡ OutOfMemory) }
{
    let axis = axis_of(entries);
    let mut lanes = lanes_of(alloc, entries)?;
    let blocks = blocks_in(alloc, lanes.as_mut_slice(), axis, entries)?;
    let crosses = crosses_in(alloc, lanes.as_mut_slice(), entries)?;
    let layout = lay_out(lanes.as_mut_slice());
    Ok(Page {
        axis,
        layout,
        lanes,
        blocks,
        crosses,
    })
}

/// A picture of the history, whose oldest entry comes first, as SVG: a lane for each CronJob that a
/// user wrote, by key, with its name, policy and schedule; a bar for each Job that a worker made
/// for one of them, from its making to the end of its run, open at the right where it still runs,
/// with a tick at the time that it was due; and a cross where a sync said why it started none, or a
/// due time got none, with the reason as its title.
///
/// The moments above the lanes are by the clock of the zone, or else by UTC. Of more than forty
/// CronJobs each gets one line, and those with nothing to show are counted. It has no font or
/// script from elsewhere, and colours for light pages and for dark ones.
///
/// # Errors
///
/// `OutOfMemory`.
pub fn picture_text(
    alloc: Global,
    entries: &[Entry],
    clock: Option<&Zone>,
) -> Result<String, Refusal>
    ensures err { IfErr result (λ e. e ≡ OutOfMemory) }
{
    let page = page_of(alloc, entries)?;
    page.text(alloc, clock, "Time line of a run", RUN_LEGEND, "")
}
