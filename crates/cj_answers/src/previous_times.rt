// The due times of a schedule before a moment, the latest first.
ghost use Rattle.std.specs.Prelude.{◌≡◌, ◌-◌, ◌++◌, ◌∷◌, [], IfErr, IfOk, IfSome, IsNone, OnOk, string_bytes};
ghost use Rattle.cj_base.specs.declared.refusal.Refusal.TheVariants.{OutOfMemory};
ghost use Rattle.cj_due.specs.Due.{IsLatestDue, IsQuiet};
ghost use Rattle.cj_answers.specs.NextText.{line_of};
ghost use Rattle.cj_answers.specs.PreviousText.{AreBefore, IsPreviousText, end_of, floor_of, lines_of, upto};

use cj_base::{Refusal, Seconds};
use cj_due::latest_in;
use cj_schedule::Schedule;
use cj_zone::{Zone, time_text};
use std::alloc::{AllocError, Global};

// 3,000 days in seconds, as `reach` of the definitions.
const REACH: u64 = 259_200_000;

/// So many seconds earlier, or the first second of 1970.
pub(crate) fn earlier(time: Seconds, seconds: u64) -> Seconds
    ensures { result ≡ time - seconds }
{
    match Seconds::new(time.get().saturating_sub(seconds)) {
        Some(time) => time,
        None => unreachable!(),
    }
}

// The greatest due instant before one and within 3,000 days.
fn due_before(schedule: &Schedule, zone: &Zone, before: Seconds) -> Option<Seconds>
    ensures some { IfSome result (λ t. IsLatestDue schedule.now zone.now (floor_of before)
        (upto before) t) }
    ensures none { IsNone result → IsQuiet schedule.now zone.now (floor_of before) (upto before) }
{
    let last = earlier(before, 1);
    latest_in(schedule, zone, earlier(last, REACH), last)
}

fn push_time(times: &mut Vec<Seconds>, time: Seconds) -> Result<(), Refusal>
    ensures ok { OnOk result (times.new.items ≡ times.old.items ++ (time ∷ [])) }
    ensures err { IfErr result (λ e. e ≡ OutOfMemory) }
{
    times.push(time).map_err(AllocError::from)?;
    Ok(())
}

/// The last `count` due times before a moment, each the greatest one before the one before it;
/// fewer where nothing is due within 3,000 days.
pub(crate) fn times_before(
    alloc: Global,
    schedule: &Schedule,
    zone: &Zone,
    before: Seconds,
    count: u16,
) -> Result<Vec<Seconds>, Refusal>
    ensures ok { IfOk result (λ v. AreBefore schedule.now zone.now before count v.items) }
    ensures memory { IfErr result (λ e. e ≡ OutOfMemory) }
{
    let mut times = Vec::new(alloc);
    let mut at = before;
    for _ in 0..count {
        match due_before(schedule, zone, at) {
            Some(t) => {
                push_time(&mut times, t)?;
                at = t;
            }
            None => return Ok(times),
        }
    }
    Ok(times)
}

// A time on a line of its own, at the end of the text.
fn push_line(alloc: Global, text: &mut String, time: Seconds) -> Result<(), Refusal>
    ensures ok { OnOk result (string_bytes text.new ≡ string_bytes text.old ++ line_of time) }
    ensures err { IfErr result (λ e. e ≡ OutOfMemory) }
{
    let time = time_text(alloc, time)?;
    text.push_str(time.as_str())?;
    text.push_str("\n")?;
    Ok(())
}

// A line for each time.
fn lines_of(alloc: Global, times: &[Seconds]) -> Result<String, Refusal>
    ensures ok { IfOk result (λ s. string_bytes s ≡ lines_of times.now) }
    ensures err { IfErr result (λ e. e ≡ OutOfMemory) }
{
    let mut text = String::new(alloc);
    for time in times {
        push_line(alloc, &mut text, *time)?;
    }
    Ok(text)
}

// What is behind so many lines where others were asked for.
fn end_of(found: usize, count: u16) -> &'static str
    ensures { result.now ≡ end_of found count }
{
    if found < count as usize { "none\n" } else { "" }
}

/// The lines of the last `count` due times before a moment; where they are fewer, `none` behind
/// them.
pub(crate) fn previous_text(
    alloc: Global,
    schedule: &Schedule,
    zone: &Zone,
    before: Seconds,
    count: u16,
) -> Result<String, Refusal>
    ensures ok { IfOk result (λ s. IsPreviousText schedule.now zone.now before count
        (string_bytes s)) }
    ensures err { IfErr result (λ e. e ≡ OutOfMemory) }
{
    let times = times_before(alloc, schedule, zone, before, count)?;
    let mut text = lines_of(alloc, times.as_slice())?;
    text.push_str(end_of(times.len(), count))?;
    Ok(text)
}
