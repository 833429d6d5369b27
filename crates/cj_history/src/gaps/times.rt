// The due times after one instant and up to another, one after the other.
ghost use Rattle.std.specs.Prelude.{◌≡◌, ◌≤◌, ◌<◌, ◌+◌, min, IsNone, IfSome};
ghost use Rattle.cj_due.specs.Due.{reach, IsQuiet, IsLeastDue};

use cj_due::next_after;
use cj_schedule::Schedule;
use cj_types::Seconds;
use cj_zone::Zone;

// How far `next_after` looks, in seconds.
const REACH: u64 = 259_200_000;

// The earlier of the second up to which `next_after` looks and of another.
fn looked_upto(at: Seconds, hi: Seconds) -> Seconds
    ensures { result ≡ min (at + reach) hi }
{
    match Seconds::new(at.get() + REACH) {
        Some(end) => end.min(hi),
        None => hi,
    }
}

/// The least due time after `lo` and up to `hi`.
pub(crate) fn next_upto(
    schedule: &Schedule,
    zone: &Zone,
    lo: Seconds,
    hi: Seconds,
) -> Option<Seconds>
    ensures some { IfSome result (λ t. IsLeastDue schedule.now zone.now lo hi t) }
    ensures none { IsNone result → IsQuiet schedule.now zone.now lo hi }
{
    let mut at = lo;
    while at < hi {
        if let Some(time) = next_after(schedule, zone, at) {
            return if time <= hi { Some(time) } else { None };
        }
        at = looked_upto(at, hi);
    }
    None
}
