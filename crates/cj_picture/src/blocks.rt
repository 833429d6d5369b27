// The bars, each in its lane and row.
ghost use Rattle.std.specs.Prelude.{◌≡◌, IfErr};
ghost use Rattle.cj_base.specs.declared.refusal.Refusal.TheVariants.{OutOfMemory};

use crate::axis::{Axis, moment_text};
use crate::lanes::{Lane, Layout};
use crate::svg::{escaped, tenths};
use cj_types::{Job, Refusal, Seconds};
use cj_zone::time_text;
use std::alloc::Global;

/// What a bar looks like.
#[derive(Clone, Copy, Debug, PartialEq, Eq)]
pub(crate) enum Look {
    /// Of a Job that ended with success.
    Done,
    /// Of one that ended without.
    Failed,
    /// Of one that was dropped.
    Dropped,
    /// Of one that still runs.
    Open,
    /// Of one that hasn't ended and is suspended, so that nothing of it runs.
    Suspended,
}

/// The bar of a Job, and where it goes.
pub(crate) struct Block {
    pub(crate) lane: usize,
    pub(crate) row: usize,
    /// From when to when, in seconds.
    pub(crate) from: u64,
    pub(crate) to: u64,
    /// When the Job was due.
    pub(crate) due: Option<Seconds>,
    pub(crate) look: Look,
    /// Whether something is wrong with the Job.
    pub(crate) ill: bool,
    /// The title under the pointer, as XML has it.
    pub(crate) title: String,
}

impl Drop for Block {
    fn drop(self) {
        let Block {
            lane: _,
            row: _,
            from: _,
            to: _,
            due: _,
            look: _,
            ill: _,
            title: _,
        } = self;
    }
}

/// The title of a Job under the pointer: when it was due, when it was made, and how and when it
/// ended.
pub(crate) fn title(
    alloc: Global,
    job: &Job,
    due: &str,
    word: &str,
    end: u64,
) -> Result<String, Refusal>
    ensures err { IfErr result (λ e. e ≡ OutOfMemory) }
{
    let namespace = job.key.namespace();
    let name = job.key.name();
    let due = escaped(alloc, due)?;
    let due = due.as_str();
    let made = time_text(alloc, job.meta.created)?;
    let made = made.as_str();
    let end = moment_text(alloc, end)?;
    let end = end.as_str();
    Ok(format!(in alloc; "{namespace}/{name}, due {due}, made {made}, {word} {end}")?)
}

fn class_of(block: &Block) -> &'static str {
    match (block.look, block.ill) {
        (Look::Done, false) => "done",
        (Look::Failed, false) => "fail",
        (Look::Dropped, false) => "drop",
        (Look::Open, false) => "run open",
        (Look::Suspended, false) => "dim open",
        (Look::Done, true) => "done ill",
        (Look::Failed, true) => "fail ill",
        (Look::Dropped, true) => "drop ill",
        (Look::Open, true) => "run open ill",
        (Look::Suspended, true) => "dim open ill",
    }
}

// Where the bars of a row begin, from above.
fn row_y(lane: &Lane, dense: bool, row: usize) -> u64 {
    let edge = if dense { 6 } else { 11 };
    let rows = (row as u64).saturating_mul(12);
    lane.y.saturating_add(edge).saturating_add(rows)
}

fn push_arrow(alloc: Global, text: &mut String, x: u64, y: u64) -> Result<(), Refusal>
    ensures err { IfErr result (λ e. e ≡ OutOfMemory) }
{
    let x = tenths(alloc, x)?;
    let x = x.as_str();
    let arrow = format!(in alloc; "<path class=\"run\" d=\"M{x} {y}l7 5l-7 5z\"/>\n")?;
    Ok(text.push_str(arrow.as_str())?)
}

fn push_rect(
    alloc: Global,
    text: &mut String,
    block: &Block,
    x: u64,
    width: u64,
    y: u64,
) -> Result<(), Refusal>
    ensures err { IfErr result (λ e. e ≡ OutOfMemory) }
{
    let class = class_of(block);
    let x = tenths(alloc, x)?;
    let x = x.as_str();
    let width = tenths(alloc, width)?;
    let width = width.as_str();
    let title = block.title.as_str();
    let rect = format!(in alloc;
        "<rect class=\"{class}\" x=\"{x}\" y=\"{y}\" width=\"{width}\" height=\"10\" rx=\"2\"><title>{title}</title></rect>\n"
    )?;
    Ok(text.push_str(rect.as_str())?)
}

// How wide a bar is: the bars of one row don't touch, and none is too narrow to be seen.
fn width_of(from: u64, to: u64) -> u64 {
    let width = to.saturating_sub(from);
    if width > 40 {
        width - 10
    } else {
        width.max(15)
    }
}

// A tick above the rows, where the Job was due.
fn push_due(
    alloc: Global,
    text: &mut String,
    axis: Axis,
    lane: &Lane,
    dense: bool,
    due: Option<Seconds>,
) -> Result<(), Refusal>
    ensures err { IfErr result (λ e. e ≡ OutOfMemory) }
{
    let Some(at) = due else {
        return Ok(());
    };
    let x = tenths(alloc, axis.x(at.get()))?;
    let x = x.as_str();
    let from = lane.y.saturating_add(1);
    let to = lane.y.saturating_add(if dense { 5 } else { 8 });
    let tick = format!(in alloc;
        "<line class=\"due\" x1=\"{x}\" y1=\"{from}\" x2=\"{x}\" y2=\"{to}\"/>\n"
    )?;
    Ok(text.push_str(tick.as_str())?)
}

fn push_block(
    alloc: Global,
    text: &mut String,
    axis: Axis,
    dense: bool,
    lane: &Lane,
    block: &Block,
) -> Result<(), Refusal>
    ensures err { IfErr result (λ e. e ≡ OutOfMemory) }
{
    push_due(alloc, text, axis, lane, dense, block.due)?;
    let y = row_y(lane, dense, block.row);
    let x = axis.x(block.from);
    let width = width_of(x, axis.x(block.to));
    push_rect(alloc, text, block, x, width, y)?;
    if block.look == Look::Open {
        push_arrow(alloc, text, x.saturating_add(width), y)?;
    }
    Ok(())
}

/// The bars.
pub(crate) fn push_blocks(
    alloc: Global,
    text: &mut String,
    axis: Axis,
    layout: Layout,
    lanes: &[Lane],
    blocks: &[Block],
) -> Result<(), Refusal>
    ensures err { IfErr result (λ e. e ≡ OutOfMemory) }
{
    text.push_str("<g id=\"bars\">\n")?;
    for block in blocks {
        if block.lane < lanes.len() {
            push_block(alloc, text, axis, layout.dense, &lanes[block.lane], block)?;
        }
    }
    Ok(text.push_str("</g>\n")?)
}
