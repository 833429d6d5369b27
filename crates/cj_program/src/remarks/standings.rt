// The CronJobs that stand at the end of a run and aren't suspended, with their zones, and the last
// instant of its clock.
ghost use Rattle.std.specs.Prelude.{◌≡◌, ◌++◌, IfOk, IfErr, OnOk, option_copied};
ghost use Rattle.cj_base.specs.declared.refusal.Refusal.TheVariants.{OutOfMemory};
ghost use Rattle.cj_worker.specs.Zoned.{zone_by};
ghost use Rattle.cj_program.specs.remarks.Standings as said;

use cj_history::Standing;
use cj_script::Span;
use cj_types::{CronJob, Refusal, Seconds, Shared, Text, TryCopy};
use cj_zone::{Zone, ZoneTable};
use std::alloc::Global;

/// The last instant of the clock.
pub(crate) fn last_instant(span: &Span) -> Seconds
    ensures { said.IsLast span.now result }
{
    let start = span.start();
    let number = span.count().saturating_sub(1);
    match span.instant(number) {
        Some(at) => at,
        None => start,
    }
}

fn zone_by<'z>(zones: &'z ZoneTable, name: &Option<Text>) -> Option<&'z Zone>
    ensures { option_copied result ≡ zone_by zones.now name.now }
{
    match name {
        Some(name) => zones.get(name.as_str()),
        None => Some(zones.default_zone()),
    }
}

// Notes the CronJob, if its zone is known.
fn note_in(
    alloc: Global,
    cron: &Shared<CronJob>,
    zone: Option<&Zone>,
    standing: &mut Vec<Standing>,
) -> Result<(), Refusal>
    ensures ok { OnOk result (standing.new.items
        ≡ standing.old.items ++ said.in_zone cron.now (option_copied zone.entry)) }
    ensures err { IfErr result (λ e. e ≡ OutOfMemory) }
{
    let Some(zone) = zone else {
        return Ok(());
    };
    let cron = cron.try_copy(alloc)?;
    let zone = zone.try_copy(alloc)?;
    let one = Standing { cron, zone };
    standing.push(one).map_err(|_| Refusal::OutOfMemory)
}

// Notes the CronJob, unless it is suspended.
fn note(
    alloc: Global,
    zones: &ZoneTable,
    cron: &Shared<CronJob>,
    standing: &mut Vec<Standing>,
) -> Result<(), Refusal>
    ensures ok { OnOk result (standing.new.items
        ≡ standing.old.items ++ said.standing_of zones.now cron.now) }
    ensures err { IfErr result (λ e. e ≡ OutOfMemory) }
{
    let spec = cron.get().spec.get();
    if spec.suspend {
        return Ok(());
    }
    note_in(alloc, cron, zone_by(zones, &spec.time_zone), standing)
}

/// Those of the CronJobs that aren't suspended, with their zones under the table.
pub(crate) fn standings(
    alloc: Global,
    zones: &ZoneTable,
    crons: &[Shared<CronJob>],
) -> Result<Vec<Standing>, Refusal>
    ensures ok { IfOk result (λ v. v.items ≡ said.standings zones.now crons.now) }
    ensures err { IfErr result (λ e. e ≡ OutOfMemory) }
{
    let mut standing = Vec::new(alloc);
    for cron in crons {
        note(alloc, zones, cron, &mut standing)?;
    }
    Ok(standing)
}
