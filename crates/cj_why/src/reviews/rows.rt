// The CronJobs of a cluster at a moment, a row each.
ghost use Rattle.std.specs.Prelude.{◌≡◌, ◌++◌, codes, true, Some, IfOk, IfErr, OnOk, is_some, string_bytes};
ghost use Rattle.cj_base.specs.declared.refusal.Refusal.TheVariants.{OutOfMemory};
ghost use Rattle.cj_zone.specs.Table.{local_zone, zones_of};
ghost use Rattle.cj_zone.specs.Zones.{utc_zone};
ghost use Rattle.cj_why.specs.reviews.Rows.{AreLined, AreRows, IsRow, crons_of, is_shown, shown_if};
ghost use Rattle.cj_why.specs.reviews.Seen as seen;
ghost use Rattle.cj_why.specs.reviews.Verdict as word;
ghost use Rattle.cj_why.specs.reviews.ZoneFor.{zone_for};

use crate::reviews::late::late_of;
use crate::reviews::reviewing::plan_of;
use crate::reviews::seen::unknown;
use crate::reviews::since::missed_of;
use crate::reviews::verdict::{Verdict, is_problem, verdict_of};
use crate::reviews::words::asked_words;
use crate::reviews::zone_for::zone_of;
use cj_cluster::{Cluster, ClusterCron};
use cj_decide::Steps;
use cj_due::Missed;
use cj_types::{Refusal, Seconds, Shared};
use cj_zone::ZoneTable;
use std::alloc::Global;

/// A CronJob of a cluster at a moment.
#[derive(Drop)]
pub struct CronRow {
    pub cron: Shared<ClusterCron>,
    /// The times that it missed.
    pub missed: Missed,
    /// Why it starts a Job, or why not.
    pub verdict: Verdict,
    /// When to look again.
    pub next: Option<Seconds>,
    /// Why, in words for people, where they ask for it.
    pub words: String,
}

/// The verdict of the CronJob's plan, by the times that came too late for its deadline.
pub(crate) fn row_verdict(
    alloc: Global,
    zones: &ZoneTable,
    cluster: &Cluster,
    cron: &ClusterCron,
    late: Missed,
    steps: &Steps,
) -> Result<Verdict, Refusal>
    requires { local_zone zones.now ≡ Some (utc_zone (codes "UTC")) }
    ensures ok { IfOk result (λ v. v ≡ word.verdict_of cron.now
        (is_some (zone_for cron.now.cron.spec.time_zone (zones_of zones.now)))
        (seen.unknown cluster.now cron.now) late cluster.now steps.now) }
    ensures err { IfErr result (λ e. e ≡ OutOfMemory) }
{
    let unknown = unknown(alloc, cluster, cron)?;
    let known = zone_of(zones, &cron.cron.spec.time_zone).is_some();
    Ok(verdict_of(cluster, cron, known, unknown.as_slice(), late, steps))
}

/// When to look again, by the CronJob's plan.
pub(crate) fn next_of(cron: &ClusterCron, steps: &Steps) -> Option<Seconds>
    ensures { result ≡ word.next_of cron.now steps.now }
{
    if cron.marks.is_halted() {
        None
    } else {
        steps.next
    }
}

fn row_of(
    alloc: Global,
    explain: bool,
    zones: &ZoneTable,
    cluster: &Cluster,
    cron: &Shared<ClusterCron>,
    now: Seconds,
) -> Result<CronRow, Refusal>
    requires { local_zone zones.now ≡ Some (utc_zone (codes "UTC")) }
    ensures ok { IfOk result (IsRow explain (zones_of zones.now) cluster.now now cron.now) }
    ensures err { IfErr result (λ e. e ≡ OutOfMemory) }
{
    let object = cron.get();
    let zone = zone_of(zones, &object.cron.spec.time_zone);
    let missed = missed_of(object.cron.get(), zone, now);
    let plan = plan_of(alloc, zones, cluster, object, now)?;
    let late = late_of(object.cron.get(), zone, now);
    let verdict = row_verdict(alloc, zones, cluster, object, late, plan.steps())?;
    let words = asked_words(alloc, explain, zones, cluster, object, now)?;
    Ok(CronRow {
        cron: cron.share()?,
        missed,
        verdict,
        next: next_of(object, plan.steps()),
        words,
    })
}

fn is_shown(problems: bool, now: Seconds, row: &CronRow) -> bool
    ensures { result ≡ is_shown problems now row.now }
{
    !problems || is_problem(row.verdict, now, row.missed)
}

fn push_shown(
    rows: &mut Vec<CronRow>,
    problems: bool,
    now: Seconds,
    row: CronRow,
) -> Result<(), Refusal>
    ensures ok { OnOk result (rows.new.items ≡ rows.old.items
        ++ shown_if (is_shown problems now row) row) }
    ensures err { IfErr result (λ e. e ≡ OutOfMemory) }
{
    if is_shown(problems, now, &row) {
        rows.push(row).map_err(|_| Refusal::OutOfMemory)?;
    }
    Ok(())
}

/// A row for each of these CronJobs of a cluster, or for those of them that want a look: how many
/// times it missed by this moment, what its next sync does, in a word, when to look again, and
/// where people ask for it, why. The only error is want of memory.
pub fn cron_rows(
    alloc: Global,
    problems: bool,
    explain: bool,
    zones: &ZoneTable,
    cluster: &Cluster,
    crons: &[Shared<ClusterCron>],
    now: Seconds,
) -> Result<Vec<CronRow>, Refusal>
    requires { local_zone zones.now ≡ Some (utc_zone (codes "UTC")) }
    ensures ok { IfOk result (λ r. AreRows problems explain (zones_of zones.now) cluster.now now
        crons.now r.items) }
    ensures err { IfErr result (λ e. e ≡ OutOfMemory) }
{
    let mut rows = Vec::new(alloc);
    for cron in crons {
        let row = row_of(alloc, explain, zones, cluster, cron, now)?;
        push_shown(&mut rows, problems, now, row)?;
    }
    Ok(rows)
}

fn crons_of(alloc: Global, rows: &[CronRow]) -> Result<Vec<Shared<ClusterCron>>, Refusal>
    ensures ok { IfOk result (λ v. v.items ≡ crons_of rows.now) }
    ensures err { IfErr result (λ e. e ≡ OutOfMemory) }
{
    let mut crons = Vec::new(alloc);
    for row in rows {
        crons
            .push(row.cron.share()?)
            .map_err(|_| Refusal::OutOfMemory)?;
    }
    Ok(crons)
}

/// Those of these CronJobs of a cluster that want a look, in their order. The only error is want of
/// memory.
pub fn problems(
    alloc: Global,
    zones: &ZoneTable,
    cluster: &Cluster,
    crons: &[Shared<ClusterCron>],
    now: Seconds,
) -> Result<Vec<Shared<ClusterCron>>, Refusal>
    requires { local_zone zones.now ≡ Some (utc_zone (codes "UTC")) }
    ensures ok { IfOk result (λ v. AreLined true (zones_of zones.now) cluster.now now crons.now
        v.items) }
    ensures err { IfErr result (λ e. e ≡ OutOfMemory) }
{
    let rows = cron_rows(alloc, true, false, zones, cluster, crons, now)?;
    crons_of(alloc, rows.as_slice())
}
