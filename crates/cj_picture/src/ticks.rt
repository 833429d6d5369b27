// Which moments are written above the lanes, and how.
ghost use Rattle.std.specs.Prelude.{◌≡◌, IfErr};
ghost use Rattle.cj_base.specs.declared.refusal.Refusal.TheVariants.{OutOfMemory};

use crate::axis::Axis;
use crate::clock::{offset_at, parts, past_of, shown_text, signed};
use crate::svg::tenths;
use cj_types::Refusal;
use cj_zone::Zone;
use std::alloc::Global;

const MINUTE: u64 = 60;

const HOUR: u64 = 3_600;

const DAY: u64 = 86_400;

// How far the moments above the lanes may be from one another.
const STEPS: [u64; 18] = [
    MINUTE,
    2 * MINUTE,
    5 * MINUTE,
    10 * MINUTE,
    15 * MINUTE,
    30 * MINUTE,
    HOUR,
    2 * HOUR,
    3 * HOUR,
    6 * HOUR,
    12 * HOUR,
    DAY,
    2 * DAY,
    3 * DAY,
    7 * DAY,
    14 * DAY,
    28 * DAY,
    91 * DAY,
];

// The greatest number of intervals between them.
const MOST: u64 = 8;

// How far the moments above the lanes are from one another.
fn step_of(axis: Axis) -> u64 {
    let span = axis.span();
    for step in STEPS {
        if step.saturating_mul(MOST) >= span {
            return step;
        }
    }
    span / MOST
}

// Moments at which a clock shows multiples of a step.
#[derive(Clone, Copy)]
struct Ticks<'a> {
    // The zone of the clock; UTC where there is none.
    clock: Option<&'a Zone>,
    step: u64,
    // The clock's UTC offset where the axis starts.
    offset: i64,
    // The first moment, by that offset.
    first: u64,
}

impl<'a> Ticks<'a> {
    // Those of an axis: none is before its start.
    fn new(axis: Axis, clock: Option<&'a Zone>) -> Ticks<'a> {
        let step = step_of(axis);
        let offset = offset_at(clock, axis.start);
        let past = past_of(offset, step, axis.start);
        let left = if past == 0 {
            0
        } else {
            step.saturating_sub(past)
        };
        Ticks {
            clock,
            step,
            offset,
            first: axis.start.saturating_add(left),
        }
    }

    // The moment of that number. One that the clock is put forward over is as late as with the
    // offset before, so mostly when the clock is put; of one that comes twice there is one tick
    // where the step is longer than an hour, else each.
    fn at(self, n: u64) -> u64 {
        let plain = self.first.saturating_add(n.saturating_mul(self.step));
        let offset = offset_at(self.clock, plain);
        let back = self.offset.saturating_sub(offset);
        let back = back.checked_rem(signed(self.step)).unwrap_or(0);
        let moved = plain.saturating_add_signed(back);
        if offset_at(self.clock, moved) == offset {
            moved
        } else {
            moved.max(plain)
        }
    }

    // A moment as it is written: the date where days count, else hour and minute.
    fn label(self, alloc: Global, at: u64) -> Result<String, Refusal>
        ensures err { IfErr result (λ e. e ≡ OutOfMemory) }
    {
        let shown = shown_text(alloc, self.clock, at)?;
        let (date, time) = parts(shown.as_str());
        let label = if self.step >= DAY || (time == "00:00" && self.step >= HOUR) {
            date.split_once('-').unwrap_or(("", "")).1
        } else {
            time
        };
        Ok(String::from_str(alloc, label)?)
    }
}

fn push_label(alloc: Global, text: &mut String, x: &str, y: u64, label: &str) -> Result<(), Refusal>
    ensures err { IfErr result (λ e. e ≡ OutOfMemory) }
{
    let words = format!(in alloc;
        "<text class=\"dim\" x=\"{x}\" y=\"{y}\" text-anchor=\"middle\">{label}</text>\n"
    )?;
    Ok(text.push_str(words.as_str())?)
}

// Pictures that end below this have the moments below the lanes too.
const LONG: u64 = 700;

fn push_tick(
    alloc: Global,
    text: &mut String,
    x: u64,
    bottom: u64,
    label: &str,
) -> Result<(), Refusal>
    ensures err { IfErr result (λ e. e ≡ OutOfMemory) }
{
    let x = tenths(alloc, x)?;
    let x = x.as_str();
    let line = format!(in alloc;
        "<line class=\"grid\" x1=\"{x}\" y1=\"74\" x2=\"{x}\" y2=\"{bottom}\"/>"
    )?;
    text.push_str(line.as_str())?;
    push_label(alloc, text, x, 68, label)?;
    if bottom > LONG {
        push_label(alloc, text, x, bottom.saturating_add(12), label)?;
    }
    Ok(())
}

/// A line through the lanes for each of these moments, with what the clock shows above it, and
/// below it in a long picture.
pub(crate) fn push_ticks(
    alloc: Global,
    text: &mut String,
    axis: Axis,
    clock: Option<&Zone>,
    bottom: u64,
) -> Result<(), Refusal>
    ensures err { IfErr result (λ e. e ≡ OutOfMemory) }
{
    let ticks = Ticks::new(axis, clock);
    for n in 0..MOST + 1 {
        let at = ticks.at(n);
        if at <= axis.end {
            let label = ticks.label(alloc, at)?;
            push_tick(alloc, text, axis.x(at), bottom, label.as_str())?;
        }
    }
    Ok(())
}
