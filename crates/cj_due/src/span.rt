ghost use Rattle.std.specs.Prelude.{◌≡◌, ◌≤◌};
ghost use Rattle.cj_zone.specs.Offset.{zone_offset};
ghost use Rattle.cj_zone.specs.Interval.{IsOffsetInterval};

use cj_base::Seconds;
use cj_zone::{OffsetInterval, Zone, interval_at, steady_from};

/// An interval of time from the instant on in which the clock keeps its offset.
pub fn span_from(zone: &Zone, at: Seconds) -> OffsetInterval
    ensures offsets { IsOffsetInterval (zone_offset zone.now) result.one result.other at
        result.last }
    ensures steady { result.other ≡ result.one }
    ensures last { at ≤ result.last }
{
    let interval = interval_at(zone, at);
    if interval.one == interval.other {
        interval
    } else {
        steady_from(zone, at)
    }
}
