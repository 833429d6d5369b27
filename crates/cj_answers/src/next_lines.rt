ghost use Rattle.std.specs.Prelude.{◌≡◌, ◌++◌, IfOk, IfErr, OnOk, string_bytes};
ghost use Rattle.cj_base.specs.declared.refusal.Refusal.TheVariants.{OutOfMemory};
ghost use Rattle.cj_answers.specs.NextText.{IsNextText, line_of};

use cj_base::{Refusal, Seconds};
use cj_due::next_after;
use cj_schedule::Schedule;
use cj_zone::{Zone, time_text};
use std::alloc::Global;

// A time on a line of its own, at the end of the text.
fn push_line(alloc: Global, text: &mut String, at: Seconds) -> Result<(), Refusal>
    ensures ok { OnOk result (string_bytes text.new ≡ string_bytes text.old ++ line_of at) }
    ensures err { IfErr result (λ e. e ≡ OutOfMemory) }
{
    let time = time_text(alloc, at)?;
    text.push_str(time.as_str())?;
    text.push_str("\n")?;
    Ok(())
}

/// The lines that `next` prints: `count` due times, each the least one after the one before, the
/// first one after `after`; or `none` and an end where none is within 3,000 days.
pub fn next_text(
    alloc: Global,
    schedule: &Schedule,
    zone: &Zone,
    after: Seconds,
    count: u16,
) -> Result<String, Refusal>
    ensures ok { IfOk result (λ s. IsNextText schedule.now zone.now after count (string_bytes s)) }
    ensures err { IfErr result (λ e. e ≡ OutOfMemory) }
{
    let mut text = String::new(alloc);
    let mut at = after;
    for _ in 0..count {
        match next_after(schedule, zone, at) {
            Some(t) => {
                push_line(alloc, &mut text, t)?;
                at = t;
            }
            None => {
                text.push_str("none\n")?;
                return Ok(text);
            }
        }
    }
    Ok(text)
}
