// The crosses: where a time got no Job, or something is wrong.
ghost use Rattle.std.specs.Prelude.{◌≡◌, IfErr};
ghost use Rattle.cj_base.specs.declared.refusal.Refusal.TheVariants.{OutOfMemory};

use crate::axis::Axis;
use crate::lanes::{Lane, lane_at};
use crate::svg::tenths;
use cj_types::{Refusal, Seconds};
use std::alloc::Global;

/// A cross in a lane.
pub(crate) struct Cross {
    pub(crate) lane: usize,
    pub(crate) at: Seconds,
    /// The title under the pointer, as XML has it.
    pub(crate) title: String,
}

impl Drop for Cross {
    fn drop(self) {
        let Cross {
            lane: _,
            at: _,
            title: _,
        } = self;
    }
}

/// A cross more, in the lane of the CronJob with that key, if there is one.
pub(crate) fn add_cross(
    lanes: &mut [Lane],
    crosses: &mut Vec<Cross>,
    namespace: &str,
    name: &str,
    at: Seconds,
    title: String,
) -> Result<(), Refusal>
    ensures err { IfErr result (λ e. e ≡ OutOfMemory) }
{
    let Some(lane) = lane_at(lanes, namespace, name) else {
        return Ok(());
    };
    lanes[lane].told = true;
    match crosses.push(Cross { lane, at, title }) {
        Ok(()) => Ok(()),
        Err(_) => Err(Refusal::OutOfMemory),
    }
}

fn push_cross(
    alloc: Global,
    text: &mut String,
    axis: Axis,
    lane: &Lane,
    cross: &Cross,
) -> Result<(), Refusal>
    ensures err { IfErr result (λ e. e ≡ OutOfMemory) }
{
    let x = tenths(alloc, axis.x(cross.at.get()).saturating_sub(30))?;
    let x = x.as_str();
    let y = lane.y.saturating_add(lane.height).saturating_sub(8);
    let title = cross.title.as_str();
    let path = format!(in alloc;
        "<path class=\"skip\" d=\"M{x} {y}l6 6m0 -6l-6 6\"><title>{title}</title></path>\n"
    )?;
    Ok(text.push_str(path.as_str())?)
}

/// The crosses.
pub(crate) fn push_crosses(
    alloc: Global,
    text: &mut String,
    axis: Axis,
    lanes: &[Lane],
    crosses: &[Cross],
) -> Result<(), Refusal>
    ensures err { IfErr result (λ e. e ≡ OutOfMemory) }
{
    for cross in crosses {
        if cross.lane < lanes.len() {
            push_cross(alloc, text, axis, &lanes[cross.lane], cross)?;
        }
    }
    Ok(())
}
