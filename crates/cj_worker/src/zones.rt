ghost use Rattle.std.specs.Prelude.{◌≡◌, IfOk, IfErr, option_copied};
ghost use Rattle.cj_base.specs.declared.refusal.Refusal.TheVariants.{OutOfMemory};
ghost use Rattle.cj_worker.specs.Zoned.{zone_by, zone_for};

use cj_types::{CronJob, Refusal, Shared, Text, TryCopy};
use cj_zone::{Zone, ZoneTable};
use std::alloc::Global;

fn zone_by<'z>(table: &'z ZoneTable, name: &Option<Text>) -> Option<&'z Zone>
    ensures { option_copied result ≡ zone_by table.now name.now }
{
    match name {
        Some(name) => table.get(name.as_str()),
        None => Some(table.default_zone()),
    }
}

fn share(alloc: Global, zone: Option<&Zone>) -> Result<Option<Shared<Zone>>, Refusal>
    ensures ok { IfOk result (λ z. z ≡ option_copied zone.entry) }
    ensures err { IfErr result (λ e. e ≡ OutOfMemory) }
{
    match zone {
        Some(zone) => Ok(Some(Shared::new(alloc, zone.try_copy(alloc)?)?)),
        None => Ok(None),
    }
}

/// The zone by which a CronJob's schedule is read: the one that it names in the table, none where
/// that isn't there; the table's local one where it names none. Without a CronJob there is none.
pub(crate) fn zone_for(
    alloc: Global,
    table: &ZoneTable,
    cron: &Option<Shared<CronJob>>,
) -> Result<Option<Shared<Zone>>, Refusal>
    ensures ok { IfOk result (λ z. z ≡ zone_for table.now cron.now) }
    ensures err { IfErr result (λ e. e ≡ OutOfMemory) }
{
    match cron {
        Some(cron) => share(alloc, zone_by(table, &cron.get().spec.get().time_zone)),
        None => Ok(None),
    }
}
