// The minutes in which something starts.
ghost use Rattle.std.specs.Prelude.{◌≡◌, ◌+◌, ◌∷◌, ◌++◌, List, ◌<◌, ◌^◌, IfOk, OnOk, length, All};
ghost use Rattle.cj_upcoming.specs.declared.start.Start.{Start};
ghost use Rattle.cj_upcoming.specs.Minutes.{minutes, minutes_from, IsWithin};

use crate::minute::Minute;
use crate::start::Start;
use std::alloc::{AllocError, Global};

// The minute with the next start, or the one that it begins.
fn next_minute(
    minutes: &mut Vec<Minute>,
    minute: Minute,
    start: &Start,
) -> Result<Minute, AllocError>
    requires { minute.first + minute.count + 1 < 2 ^ 64 }
    ensures same { IfOk result (λ m. (rest : List Start) →
        minutes.new.items ++ minutes_from m.time m.first m.count rest
        ≡ minutes.old.items
        ++ minutes_from minute.time minute.first minute.count (start.now ∷ rest)) }
    ensures count { IfOk result (λ m. m.first + m.count ≡ minute.first + minute.count + 1) }
{
    let Minute { time, first, count } = minute;
    if start.time == time {
        return Ok(Minute {
            time,
            first,
            count: count + 1,
        });
    }
    minutes.push(minute).map_err(AllocError::from)?;
    Ok(Minute {
        time: start.time,
        first: first + count,
        count: 1,
    })
}

// The minutes of starts of which this is the first.
fn push_minutes(minutes: &mut Vec<Minute>, start: &Start, rest: &[Start]) -> Result<(), AllocError>
    requires { length rest.now + 1 < 2 ^ 64 }
    ensures { OnOk result (minutes.new.items
        ≡ minutes.old.items ++ minutes_from start.now.time 0 1 rest.now) }
{
    let mut minute = Minute {
        time: start.time,
        first: 0,
        count: 1,
    };
    for next in rest {
        minute = next_minute(minutes, minute, next)?;
    }
    minutes.push(minute).map_err(AllocError::from)
}

fn grouped(alloc: Global, starts: &[Start]) -> Result<Vec<Minute>, AllocError>
    ensures { IfOk result (λ v. v.items ≡ minutes starts.now) }
{
    let mut minutes = Vec::new(alloc);
    let [first, rest @ ..] = starts else {
        return Ok(minutes);
    };
    push_minutes(&mut minutes, first, rest)?;
    Ok(minutes)
}

/// A minute for each time, with the place of its first start and how many it has.
pub fn minutes_of(alloc: Global, starts: &[Start]) -> Result<Vec<Minute>, AllocError>
    ensures same { IfOk result (λ v. v.items ≡ minutes starts.now) }
    ensures within { IfOk result (λ v. All (IsWithin starts.now) v.items) }
{
    grouped(alloc, starts)
}
