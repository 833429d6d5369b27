// The bars of a run.
ghost use Rattle.std.specs.Prelude.{◌≡◌, IfErr};
ghost use Rattle.cj_base.specs.declared.refusal.Refusal.TheVariants.{OutOfMemory};

use crate::axis::Axis;
use crate::blocks::{Block, Look, title};
use crate::lanes::{Lane, lane_at};
use cj_report::{Bar, How, due_word};
use cj_types::Refusal;
use cj_zone::read_time;
use std::alloc::Global;

// When the run of the Job ends, or the picture does.
fn end_of(bar: &Bar, axis: Axis) -> u64 {
    match bar.end {
        Some(end) => end.at.map_or(axis.end, |at| at.get()),
        None => axis.end,
    }
}

fn look_of(bar: &Bar) -> Look {
    match bar.end {
        None => Look::Open,
        Some(end) => match end.how {
            How::Complete => Look::Done,
            How::Failed => Look::Failed,
            How::Dropped => Look::Dropped,
            How::Deleted => Look::Dropped,
        },
    }
}

fn end_word(bar: &Bar) -> &'static str {
    match bar.end {
        None => "still runs at",
        Some(end) => match end.how {
            How::Complete => "Complete at",
            How::Failed => "Failed at",
            How::Dropped => "dropped at",
            How::Deleted => "deleted at",
        },
    }
}

fn place(alloc: Global, lanes: &mut [Lane], axis: Axis, bar: &Bar) -> Result<Option<Block>, Refusal>
    ensures err { IfErr result (λ e. e ≡ OutOfMemory) }
{
    let job = bar.job.get();
    let Some(name) = job.cron_name() else {
        return Ok(None);
    };
    let Some(lane) = lane_at(lanes, job.key.namespace(), name.as_str()) else {
        return Ok(None);
    };
    let from = job.meta.created.get();
    let to = end_of(bar, axis);
    let row = lanes[lane].place(from, to.max(from.saturating_add(1)))?;
    let title = title(alloc, job, due_word(job), end_word(bar), to)?;
    Ok(Some(Block {
        lane,
        row,
        from,
        to,
        due: read_time(due_word(job)),
        look: look_of(bar),
        ill: false,
        title,
    }))
}

/// Places the bars, which come in the order of their ends.
pub(crate) fn place_all(
    alloc: Global,
    lanes: &mut [Lane],
    axis: Axis,
    bars: &[Bar],
) -> Result<Vec<Block>, Refusal>
    ensures err { IfErr result (λ e. e ≡ OutOfMemory) }
{
    let mut all = Vec::new(alloc);
    for bar in bars {
        if let Some(block) = place(alloc, lanes, axis, bar)? {
            all.push(block).map_err(|_| Refusal::OutOfMemory)?;
        }
    }
    Ok(all)
}
