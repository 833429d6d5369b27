// The zone of a CronJob's schedule.
ghost use Rattle.std.specs.Prelude.{◌≡◌, codes, option_copied, Some, IfOk, IfErr};
ghost use Rattle.cj_base.specs.declared.refusal.Refusal.TheVariants.{OutOfMemory};
ghost use Rattle.cj_zone.specs.Table.{local_zone, zones_of};
ghost use Rattle.cj_zone.specs.Zones.{utc_zone};
ghost use Rattle.cj_why.specs.reviews.ZoneFor.{zone_for};

use cj_types::{CronJob, Refusal, Shared, Text, TryCopy};
use cj_zone::{Zone, ZoneTable};
use std::alloc::Global;

/// The zone of that name in the table, or its local zone where none is named.
pub fn zone_of<'t>(zones: &'t ZoneTable, name: &Option<Text>) -> Option<&'t Zone>
    requires { local_zone zones.now ≡ Some (utc_zone (codes "UTC")) }
    ensures { option_copied result ≡ zone_for name.now (zones_of zones.now) }
{
    match name {
        Some(name) => zones.get(name.as_str()),
        None => Some(zones.default_zone()),
    }
}

/// A copy of the zone that the CronJob names.
pub fn zone_copy(
    alloc: Global,
    zones: &ZoneTable,
    cron: &CronJob,
) -> Result<Option<Shared<Zone>>, Refusal>
    requires { local_zone zones.now ≡ Some (utc_zone (codes "UTC")) }
    ensures ok { IfOk result (λ z. z ≡ zone_for cron.now.spec.time_zone (zones_of zones.now)) }
    ensures err { IfErr result (λ e. e ≡ OutOfMemory) }
{
    match zone_of(zones, &cron.spec.time_zone) {
        Some(zone) => Ok(Some(Shared::new(alloc, zone.try_copy(alloc)?)?)),
        None => Ok(None),
    }
}
