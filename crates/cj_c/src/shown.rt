ghost use Rattle.std.specs.Prelude.{◌≡◌, ◌⊎◌, true, false};
ghost use Rattle.cj_c.specs.Shown.{IsMatch};
ghost use Rattle.cj_c.specs.Status.{closed};

use crate::held::Held;
use crate::status::{CLOSED, DONE, RANGE};
use crate::timetable::Timetable;
use cj_base::Seconds;
use cj_zone::local;
use std::alloc::Global;

fn matches_at(t: &Timetable, at: u64, is_match: &mut bool) -> u32
    ensures { IsMatch t.now at is_match.old is_match.new result }
{
    let Some(at) = Seconds::new(at) else {
        return RANGE;
    };
    *is_match = t.schedule.matches(local(&t.zone, at));
    DONE
}

/// Whether the zone's clock shows an allowed minute at an instant.
#[unsafe(no_mangle)]
pub extern "C" fn cronsim_matches(
    alloc: Global,
    cron: &mut Held,
    at: u64,
    is_match: &mut bool,
) -> u32
    ensures kept { cron.new.full ≡ cron.old.full }
    ensures stays { cron.old.full ≡ true → cron.new.timetable ≡ cron.old.timetable }
    ensures found { cron.old.full ≡ true →
        IsMatch cron.old.timetable at is_match.old is_match.new result }
    ensures closed { cron.old.full ≡ false → (result ≡ closed) × (is_match.new ≡ is_match.old) }
{
    let Some(timetable) = cron.take(alloc) else {
        return CLOSED;
    };
    let status = matches_at(&timetable, at, is_match);
    cron.put(timetable);
    status
}
