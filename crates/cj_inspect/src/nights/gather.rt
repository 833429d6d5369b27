// What the clocks of CronJobs do, one after another.
ghost use Rattle.std.specs.Prelude.{◌≡◌, IfErr, IfOk, OnOk, map, string_bytes};
ghost use Rattle.cj_base.specs.declared.refusal.Refusal.TheVariants.{OutOfMemory};
ghost use Rattle.cj_zone.specs.Table.{zones_of};
ghost use Rattle.cj_inspect.specs.Nights.{AddsNight, AreNights};

use crate::nights::groups::{Night, add_lines};
use crate::nights::lines::night_lines;
use crate::nights::look::Look;
use cj_cluster::ClusterCron;
use cj_types::{CronJob, Refusal, Shared};
use cj_zone::ZoneTable;
use std::alloc::Global;

/// What the clocks of CronJobs do with the local times that their schedules name.
#[derive(Drop)]
pub(crate) struct Nights {
    /// The lines of each CronJob, one CronJob after another.
    pub raw: String,
    /// The same, in the order of time, with the CronJobs of which a line is.
    pub nights: Vec<Night>,
}

// The zone that a CronJob names.
fn zone_name(cron: &CronJob) -> &str {
    match &cron.spec.time_zone {
        Some(name) => name.as_str(),
        None => "UTC",
    }
}

// Adds what the clock of a CronJob does.
fn add_cron(
    alloc: Global,
    found: &mut Nights,
    zones: &ZoneTable,
    look: &Look,
    cron: &Shared<CronJob>,
) -> Result<(), Refusal>
    ensures ok { OnOk result (AddsNight (zones_of zones.now) look.now cron.now
        (string_bytes found.old.raw) (string_bytes found.new.raw)) }
    ensures err { IfErr result (λ e. e ≡ OutOfMemory) }
{
    let cron = cron.get();
    let lines = night_lines(alloc, zones, look, cron)?;
    let key = cron.key.key();
    let zone = zone_name(cron);
    add_lines(alloc, &mut found.nights, key, zone, lines.as_str())?;
    found.raw.push_str(lines.as_str())?;
    Ok(())
}

/// What the clocks of these CronJobs do.
pub(crate) fn nights_among(
    alloc: Global,
    zones: &ZoneTable,
    look: &Look,
    crons: &[Shared<CronJob>],
) -> Result<Nights, Refusal>
    ensures ok { IfOk result (λ n. AreNights (zones_of zones.now) look.now crons.now
        (string_bytes n.raw)) }
    ensures err { IfErr result (λ e. e ≡ OutOfMemory) }
{
    let mut found = Nights {
        raw: String::new(alloc),
        nights: Vec::new(alloc),
    };
    for cron in crons {
        add_cron(alloc, &mut found, zones, look, cron)?;
    }
    Ok(found)
}

// The CronJobs alone, without what a cluster says of them.
fn crons_in(alloc: Global, crons: &[Shared<ClusterCron>]) -> Result<Vec<Shared<CronJob>>, Refusal>
    ensures ok { IfOk result (λ v. v.items ≡ map (λ c. c.cron) crons.now) }
    ensures err { IfErr result (λ e. e ≡ OutOfMemory) }
{
    let mut found = Vec::new(alloc);
    for cron in crons {
        found
            .push(cron.get().cron.share()?)
            .map_err(|_| Refusal::OutOfMemory)?;
    }
    Ok(found)
}

/// What the clocks of a cluster's CronJobs do.
pub(crate) fn nights_of(
    alloc: Global,
    zones: &ZoneTable,
    look: &Look,
    crons: &[Shared<ClusterCron>],
) -> Result<Nights, Refusal>
    ensures ok { IfOk result (λ n. AreNights (zones_of zones.now) look.now
        (map (λ c. c.cron) crons.now) (string_bytes n.raw)) }
    ensures err { IfErr result (λ e. e ≡ OutOfMemory) }
{
    let crons = crons_in(alloc, crons)?;
    nights_among(alloc, zones, look, crons.as_slice())
}
