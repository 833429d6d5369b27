ghost use Rattle.cj_zone.specs.Laws.{DatesAreNear};
ghost use Rattle.cj_zone.specs.Made.{IsMade};

use crate::Zone;

/// `jiff` reads a clock in the source of every zone.
pub fn made_law(zone: &Zone)
    ensures { IsMade zone.now.source }
{
    let _ = zone.rules();
}

/// In every zone, the date that the clock shows at an instant is at most two days from the date in
/// UTC.
pub fn dates_law()
    ensures { DatesAreNear }
{}
