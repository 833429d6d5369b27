// What is printed of each CronJob of a cluster at a moment.
ghost use Rattle.std.specs.Prelude.{◌≡◌, ◌++◌, codes, Some, IfOk, IfErr, OnOk, string_bytes};
ghost use Rattle.cj_base.specs.declared.refusal.Refusal.TheVariants.{OutOfMemory};
ghost use Rattle.cj_zone.specs.Table.{local_zone, zones_of};
ghost use Rattle.cj_zone.specs.Zones.{utc_zone};
ghost use Rattle.cj_decide.specs.Decision.{IsPlan};
ghost use Rattle.cj_why.specs.reviews.Lacking.{lines_for, never_line};
ghost use Rattle.cj_why.specs.reviews.Review.{IsCronReview};
ghost use Rattle.cj_why.specs.reviews.Seen as seen;
ghost use Rattle.cj_why.specs.reviews.Words.{IsOne, IsReview};
ghost use Rattle.cj_why.specs.reviews.ZoneFor.{zone_for};

use crate::reviews::lacking::{lines_for, never_line};
use crate::reviews::seen::{found, lacking, listed, unknown};
use crate::reviews::since::{count_text, head_line, missed_of};
use crate::reviews::words::asked_words;
use crate::reviews::zone_for::{zone_copy, zone_of};
use cj_base::both;
use cj_cluster::{Cluster, ClusterCron};
use cj_decide::{Plan, Steps, decide};
use cj_types::{Refusal, Seconds, Shared};
use cj_zone::ZoneTable;
use std::alloc::Global;

/// What is printed of CronJobs, and what is said to people.
#[derive(Debug, Drop)]
pub struct Reviewed {
    pub printed: String,
    pub said: String,
}

/// The plan of the CronJob's next sync.
pub fn plan_of(
    alloc: Global,
    zones: &ZoneTable,
    cluster: &Cluster,
    cron: &ClusterCron,
    now: Seconds,
) -> Result<Plan, Refusal>
    requires { local_zone zones.now ≡ Some (utc_zone (codes "UTC")) }
    ensures ok { IfOk result (λ p. IsPlan (Some cron.now.cron) (seen.listed cluster.now cron.now)
        (seen.found cluster.now cron.now) now
        (zone_for cron.now.cron.spec.time_zone (zones_of zones.now)) p.steps) }
    ensures err { IfErr result (λ e. e ≡ OutOfMemory) }
{
    let jobs = listed(alloc, cluster, cron)?;
    let active = found(alloc, cluster, cron)?;
    let zone = zone_copy(alloc, zones, cron.cron.get())?;
    decide(alloc, Some(cron.cron.share()?), jobs, active, now, zone)
}

// What keeps the CronJob from ever starting a Job, the Jobs that the list lacks, and the plan.
fn told_lines(
    alloc: Global,
    cluster: &Cluster,
    cron: &ClusterCron,
    steps: &Steps,
) -> Result<String, Refusal>
    ensures ok { IfOk result (λ s. string_bytes s ≡ never_line cron.now.marks cron.now.cron.spec
        steps.now.next ++ lines_for cron.now.marks (seen.lacking cluster.now cron.now)
        (seen.unknown cluster.now cron.now) cron.now.cron.spec.policy steps.now) }
    ensures err { IfErr result (λ e. e ≡ OutOfMemory) }
{
    let (lacking, unknown) = both(lacking(alloc, cluster, cron), unknown(alloc, cluster, cron))?;
    let (marks, spec) = (cron.marks, cron.cron.spec.get());
    let lines = lines_for(
        alloc,
        marks,
        lacking.as_slice(),
        unknown.as_slice(),
        spec.policy,
        steps,
    )?;
    let mut text = String::from_str(alloc, never_line(marks, spec, steps.next))?;
    text.push_str(lines.as_str())?;
    Ok(text)
}

fn cron_review(
    alloc: Global,
    zones: &ZoneTable,
    cluster: &Cluster,
    cron: &ClusterCron,
    now: Seconds,
) -> Result<String, Refusal>
    requires { local_zone zones.now ≡ Some (utc_zone (codes "UTC")) }
    ensures ok { IfOk result (λ s. IsCronReview (zones_of zones.now) cluster.now now cron.now
        (string_bytes s)) }
    ensures err { IfErr result (λ e. e ≡ OutOfMemory) }
{
    let zone = zone_of(zones, &cron.cron.spec.time_zone);
    let missed = missed_of(cron.cron.get(), zone, now);
    let count = count_text(alloc, missed)?;
    let mut text = head_line(alloc, cron.cron.get(), count.as_str(), now)?;
    let plan = plan_of(alloc, zones, cluster, cron, now)?;
    let lines = told_lines(alloc, cluster, cron, plan.steps())?;
    text.push_str(lines.as_str())?;
    Ok(text)
}

// What is printed of one CronJob, and what is said of it.
fn one(
    alloc: Global,
    explain: bool,
    zones: &ZoneTable,
    cluster: &Cluster,
    cron: &ClusterCron,
    now: Seconds,
) -> Result<Reviewed, Refusal>
    requires { local_zone zones.now ≡ Some (utc_zone (codes "UTC")) }
    ensures ok { IfOk result (λ r. IsOne explain (zones_of zones.now) cluster.now now cron.now
        (string_bytes r.printed) (string_bytes r.said)) }
    ensures err { IfErr result (λ e. e ≡ OutOfMemory) }
{
    let printed = cron_review(alloc, zones, cluster, cron, now)?;
    let said = asked_words(alloc, explain, zones, cluster, cron, now)?;
    Ok(Reviewed { printed, said })
}

fn push(whole: &mut Reviewed, one: &Reviewed) -> Result<(), Refusal>
    ensures printed { OnOk result (string_bytes whole.new.printed
        ≡ string_bytes whole.old.printed ++ string_bytes one.now.printed) }
    ensures said { OnOk result (string_bytes whole.new.said
        ≡ string_bytes whole.old.said ++ string_bytes one.now.said) }
    ensures err { IfErr result (λ e. e ≡ OutOfMemory) }
{
    whole.printed.push_str(one.printed.as_str())?;
    whole.said.push_str(one.said.as_str())?;
    Ok(())
}

/// What is printed of these CronJobs of a cluster, one after the other: how many times each missed
/// by this moment, since when, and the plan of its next sync; and where people ask for it, why. The
/// only error is want of memory.
pub fn review(
    alloc: Global,
    explain: bool,
    zones: &ZoneTable,
    cluster: &Cluster,
    crons: &[Shared<ClusterCron>],
    now: Seconds,
) -> Result<Reviewed, Refusal>
    requires { local_zone zones.now ≡ Some (utc_zone (codes "UTC")) }
    ensures ok { IfOk result (λ r. IsReview explain (zones_of zones.now) cluster.now now crons.now
        (string_bytes r.printed) (string_bytes r.said)) }
    ensures err { IfErr result (λ e. e ≡ OutOfMemory) }
{
    let mut whole = Reviewed {
        printed: String::new(alloc),
        said: String::new(alloc),
    };
    for cron in crons {
        let one = one(alloc, explain, zones, cluster, cron.get(), now)?;
        push(&mut whole, &one)?;
    }
    Ok(whole)
}
