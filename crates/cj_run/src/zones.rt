// In which zones times were claimed.
ghost use Rattle.std.specs.Prelude.{◌≡◌, ◌↔◌, All, IsTrue, option_copied};
ghost use mathlib.Core.List.{reverse};
ghost use Rattle.cj_worker.specs.Zoned.{zone_for};
ghost use Rattle.cj_run.specs.Zones.{AreZoned, HasZone};

use cj_calls::{Call, Entry};
use cj_types::{CronJob, Same, Shared};
use cj_zone::{Zone, ZoneTable};

// The zone that the table has for the CronJob.
fn zone_for<'z>(zones: &'z ZoneTable, cron: &Option<Shared<CronJob>>) -> Option<&'z Zone>
    ensures { option_copied result ≡ zone_for zones.now cron.now }
{
    let cron = cron.as_ref()?;
    match &cron.get().spec.get().time_zone {
        Some(name) => zones.get(name.as_str()),
        None => Some(zones.default_zone()),
    }
}

fn is_zone(zone: &Option<Shared<Zone>>, found: Option<&Zone>) -> bool
    ensures { IsTrue result ↔ (zone.now ≡ option_copied found.entry) }
{
    match (zone, found) {
        (Some(zone), Some(found)) => zone.get().same(found),
        (None, None) => true,
        _ => false,
    }
}

// Whether a plan that is claimed has the zone that the table has for its CronJob.
fn has_zone(zones: &ZoneTable, call: &Call) -> bool
    ensures { IsTrue result ↔ HasZone zones.now call.now }
{
    match call {
        Call::Claim(plan) => is_zone(plan.get().zone(), zone_for(zones, plan.get().cron())),
        _ => true,
    }
}

// Whether each plan that is claimed has the zone that the table has for its CronJob.
fn all_zoned(zones: &ZoneTable, entries: &[Entry]) -> bool
    ensures { IsTrue result ↔ All (λ e. HasZone zones.now e.call) entries.now }
{
    entries.iter().all(|entry| has_zone(zones, entry.call()))
}

/// Whether each plan that is claimed in a history has the zone that the table has for its CronJob.
/// It reads each entry once.
pub(crate) fn are_zoned(zones: &ZoneTable, entries: &[Entry]) -> bool
    ensures { IsTrue result ↔ AreZoned zones.now (reverse entries.now) }
{
    all_zoned(zones, entries)
}
