// What `why` says of a CronJob of a cluster.
ghost use Rattle.std.specs.Prelude.{◌≡◌, ◌++◌, false, codes, Some, IfOk, IfErr, OnOk, string_bytes};
ghost use Rattle.cj_decide.specs.Decision.{running_of};
ghost use Rattle.cj_why.specs.Why.{IsWhy};
ghost use Rattle.cj_why.specs.reviews.ZoneFor.{zone_for};
ghost use Rattle.cj_base.specs.declared.refusal.Refusal.TheVariants.{OutOfMemory};
ghost use Rattle.cj_zone.specs.Table.{local_zone, zones_of};
ghost use Rattle.cj_zone.specs.Zones.{utc_zone};
ghost use Rattle.cj_why.specs.reviews.Otherwise.{otherwise_words};
ghost use Rattle.cj_why.specs.reviews.Seen.{gone};
ghost use Rattle.cj_why.specs.reviews.Words.{IsAskedWords, IsCronWords, IsLateLine, IsReason, gone_end, gone_line, gone_lines, title_line, zone_title};

use crate::reviews::late::{late_of, late_words};
use crate::reviews::otherwise::otherwise_words;
use crate::reviews::seen::{found, gone, unknown};
use crate::reviews::zone_for::zone_of;
use crate::start::why;
use cj_cluster::{Cluster, ClusterCron};
use cj_types::{CronJob, Job, Key, ObjectName, Refusal, Seconds, Shared, Text};
use cj_zone::ZoneTable;
use std::alloc::{AllocError, Global};

fn zone_title(zone: &Option<Text>) -> &str
    ensures { result.now ≡ zone_title zone.now }
{
    match zone {
        Some(name) => name.as_str(),
        None => "UTC",
    }
}

fn title_line(alloc: Global, key: &Key, zone: &str) -> Result<String, Refusal>
    ensures ok { IfOk result (λ s. string_bytes s ≡ title_line key.now zone.now) }
    ensures err { IfErr result (λ e. e ≡ OutOfMemory) }
{
    let namespace = key.namespace();
    let name = key.name();
    Ok(format!(in alloc; "{namespace}/{name}, by the clock of {zone}:\n")?)
}

fn gone_end() -> &'static str
    ensures { result.now ≡ gone_end }
{
    ", which status.active names; the list has other Jobs of the CronJob, and not this one\n"
}

fn gone_line(alloc: Global, name: &str) -> Result<String, AllocError>
    ensures { IfOk result (λ s. string_bytes s ≡ gone_line name.now) }
{
    let end = gone_end();
    format!(in alloc; "gone: {name}{end}")
}

fn push_gone(alloc: Global, text: &mut String, name: &str) -> Result<(), AllocError>
    ensures { OnOk result (string_bytes text.new ≡ string_bytes text.old ++ gone_line name.now) }
{
    let line = gone_line(alloc, name)?;
    text.push_str(line.as_str())
}

// A line for each Job that is gone.
fn gone_lines(alloc: Global, names: &[ObjectName]) -> Result<String, Refusal>
    ensures ok { IfOk result (λ s. string_bytes s ≡ gone_lines names.now) }
    ensures err { IfErr result (λ e. e ≡ OutOfMemory) }
{
    let mut text = String::new(alloc);
    for name in names {
        push_gone(alloc, &mut text, name.as_str())?;
    }
    Ok(text)
}

// Why a CronJob starts a Job, or why not, by its spec, by what a live read found, and by the Jobs
// of which nothing is known.
fn why_of(
    alloc: Global,
    zones: &ZoneTable,
    cron: &CronJob,
    found: &[Option<Shared<Job>>],
    unknown: &[ObjectName],
    now: Seconds,
) -> Result<String, Refusal>
    requires { local_zone zones.now ≡ Some (utc_zone (codes "UTC")) }
    ensures ok { IfOk result (λ s. IsWhy cron.now
        (zone_for cron.now.spec.time_zone (zones_of zones.now)) (running_of cron.now found.now)
        unknown.now now (string_bytes s)) }
    ensures err { IfErr result (λ e. e ≡ OutOfMemory) }
{
    let zone = zone_of(zones, &cron.spec.time_zone);
    why(alloc, cron, zone, found, unknown, now)
}

// The same of a CronJob that isn't being deleted and isn't stuck.
fn seen_why(
    alloc: Global,
    zones: &ZoneTable,
    cluster: &Cluster,
    cron: &ClusterCron,
    now: Seconds,
) -> Result<String, Refusal>
    requires { local_zone zones.now ≡ Some (utc_zone (codes "UTC")) }
    ensures ok { IfOk result (λ s. IsReason false false (zones_of zones.now) cluster.now now
        cron.now (string_bytes s)) }
    ensures err { IfErr result (λ e. e ≡ OutOfMemory) }
{
    let found = found(alloc, cluster, cron)?;
    let unknown = unknown(alloc, cluster, cron)?;
    let (live, names) = (found.as_slice(), unknown.as_slice());
    why_of(alloc, zones, cron.cron.get(), live, names, now)
}

// Why a CronJob starts a Job, or why not.
fn reason_of(
    alloc: Global,
    zones: &ZoneTable,
    cluster: &Cluster,
    cron: &ClusterCron,
    now: Seconds,
) -> Result<String, Refusal>
    requires { local_zone zones.now ≡ Some (utc_zone (codes "UTC")) }
    ensures ok { IfOk result (λ s. IsReason cron.now.marks.is_deleting cron.now.marks.is_stuck
        (zones_of zones.now) cluster.now now cron.now (string_bytes s)) }
    ensures err { IfErr result (λ e. e ≡ OutOfMemory) }
{
    match (cron.marks.is_deleting, cron.marks.is_stuck) {
        (true, _) => Ok(String::from_str(
            alloc,
            "start: none, since metadata.deletionTimestamp is set: the CronJob is being deleted\n",
        )?),
        (false, true) => Ok(String::from_str(
            alloc,
            "start: none, since a reference in status.active has no name, so that each sync of Kubernetes' controller fails; kubectl edit --subresource=status takes it out\n",
        )?),
        (false, false) => seen_why(alloc, zones, cluster, cron, now),
    }
}

// What Kubernetes' own controller does otherwise with it.
fn otherwise_of(alloc: Global, zones: &ZoneTable, cron: &CronJob) -> Result<String, Refusal>
    requires { local_zone zones.now ≡ Some (utc_zone (codes "UTC")) }
    ensures ok { IfOk result (λ s. string_bytes s ≡ otherwise_words cron.now
        (zone_for cron.now.spec.time_zone (zones_of zones.now))) }
    ensures err { IfErr result (λ e. e ≡ OutOfMemory) }
{
    let zone = zone_of(zones, &cron.spec.time_zone);
    otherwise_words(alloc, cron, zone)
}

// With the line of the CronJob before them.
fn titled(
    alloc: Global,
    cron: &CronJob,
    gone: &str,
    late: &str,
    why: &str,
    otherwise: &str,
) -> Result<String, Refusal>
    ensures ok { IfOk result (λ s. string_bytes s
        ≡ (title_line cron.now.key (zone_title cron.now.spec.time_zone)
        ++ (gone.now ++ (late.now ++ why.now))) ++ otherwise.now) }
    ensures err { IfErr result (λ e. e ≡ OutOfMemory) }
{
    let zone = zone_title(&cron.spec.time_zone);
    let mut text = title_line(alloc, cron.key.key(), zone)?;
    text.push_str(gone)?;
    text.push_str(late)?;
    text.push_str(why)?;
    text.push_str(otherwise)?;
    Ok(text)
}

// The lines of the Jobs that are gone.
fn gone_of(alloc: Global, cluster: &Cluster, cron: &ClusterCron) -> Result<String, Refusal>
    ensures ok { IfOk result (λ s. string_bytes s ≡ gone_lines (gone cluster.now cron.now)) }
    ensures err { IfErr result (λ e. e ≡ OutOfMemory) }
{
    let names = gone(alloc, cluster, cron)?;
    gone_lines(alloc, names.as_slice())
}

// The line of the times that came too late.
fn late_line(
    alloc: Global,
    zones: &ZoneTable,
    cron: &CronJob,
    now: Seconds,
) -> Result<String, Refusal>
    requires { local_zone zones.now ≡ Some (utc_zone (codes "UTC")) }
    ensures ok { IfOk result (λ s. IsLateLine (zones_of zones.now) now cron.now (string_bytes s)) }
    ensures err { IfErr result (λ e. e ≡ OutOfMemory) }
{
    let late = late_of(cron, zone_of(zones, &cron.spec.time_zone), now);
    late_words(alloc, cron.status.last_schedule_time, late)
}

/// Why the CronJob starts a Job at this moment, or why not, and what Kubernetes' own controller
/// does otherwise.
pub(crate) fn cron_words(
    alloc: Global,
    zones: &ZoneTable,
    cluster: &Cluster,
    cron: &ClusterCron,
    now: Seconds,
) -> Result<String, Refusal>
    requires { local_zone zones.now ≡ Some (utc_zone (codes "UTC")) }
    ensures ok { IfOk result (λ s. IsCronWords (zones_of zones.now) cluster.now now cron.now
        (string_bytes s)) }
    ensures err { IfErr result (λ e. e ≡ OutOfMemory) }
{
    let gone = gone_of(alloc, cluster, cron)?;
    let late = late_line(alloc, zones, cron.cron.get(), now)?;
    let why = reason_of(alloc, zones, cluster, cron, now)?;
    let otherwise = otherwise_of(alloc, zones, cron.cron.get())?;
    titled(
        alloc,
        cron.cron.get(),
        gone.as_str(),
        late.as_str(),
        why.as_str(),
        otherwise.as_str(),
    )
}

/// Why the CronJob starts a Job at this moment, or why not, and what Kubernetes' own controller
/// does otherwise, where people ask for it.
pub(crate) fn asked_words(
    alloc: Global,
    explain: bool,
    zones: &ZoneTable,
    cluster: &Cluster,
    cron: &ClusterCron,
    now: Seconds,
) -> Result<String, Refusal>
    requires { local_zone zones.now ≡ Some (utc_zone (codes "UTC")) }
    ensures ok { IfOk result (λ s. IsAskedWords explain (zones_of zones.now) cluster.now now
        cron.now (string_bytes s)) }
    ensures err { IfErr result (λ e. e ≡ OutOfMemory) }
{
    if explain {
        cron_words(alloc, zones, cluster, cron, now)
    } else {
        Ok(String::new(alloc))
    }
}
