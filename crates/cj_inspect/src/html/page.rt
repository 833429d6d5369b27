// The page as a whole.
ghost use Rattle.std.specs.Prelude.{◌≡◌, IfErr, Some, codes};
ghost use Rattle.cj_base.specs.declared.refusal.Refusal.TheVariants.{OutOfMemory};
ghost use Rattle.cj_zone.specs.Table.{local_zone, zones_of};
ghost use Rattle.cj_zone.specs.Zones.{utc_zone};

use crate::html::crons::push_crons;
use crate::html::day::push_day;
use crate::html::findings::push_found;
use crate::html::head::{Counts, push_head};
use crate::html::jobs::push_jobs;
use crate::html::looks::push_looks;
use crate::html::nights::push_changes;
use crate::html::seen::{SeenCron, look_count, seen_crons};
use crate::html::since::findings_since;
use crate::html::style::FOOT;
use cj_audit::Finding;
use cj_cluster::Cluster;
use cj_picture::Window;
use cj_types::{Refusal, Seconds};
use cj_zone::ZoneTable;
use std::alloc::Global;

/// What a page is of, beside the cluster.
#[derive(Clone, Copy)]
pub struct Subject<'a> {
    /// The moment that it looks from.
    pub now: Seconds,
    /// From when on it has findings and Jobs; all of them where nobody says.
    pub since: Option<Seconds>,
    /// The names of the files that were read.
    pub files: &'a [&'a str],
    /// What of them was passed over, line by line.
    pub passed: &'a str,
    /// Whether they have Jobs of CronJobs, and no CronJob.
    pub alone: bool,
}

impl<'a> Subject<'a> {
    // From when to when its Jobs are drawn.
    fn window(&self) -> Window {
        Window {
            since: self.since,
            now: Some(self.now),
        }
    }
}

// How much there is of which.
fn counts_of(
    alloc: Global,
    cluster: &Cluster,
    seen: &[SeenCron],
    findings: usize,
) -> Result<Counts, Refusal>
    ensures err { IfErr result (λ e. e ≡ OutOfMemory) }
{
    let jobs = cluster.jobs(alloc)?;
    Ok(Counts {
        crons: seen.len(),
        jobs: jobs.as_slice().len(),
        findings,
        looks: look_count(seen),
    })
}

// The sections.
fn push_sections(
    alloc: Global,
    text: &mut String,
    zones: &ZoneTable,
    cluster: &Cluster,
    findings: &[Finding],
    seen: &[SeenCron],
    subject: &Subject<'_>,
) -> Result<(), Refusal>
    requires { local_zone zones.now ≡ Some (utc_zone (codes "UTC")) }
    ensures err { IfErr result (λ e. e ≡ OutOfMemory) }
{
    let now = subject.now;
    let crons = cluster.crons(alloc)?;
    let crons = crons.as_slice();
    push_looks(alloc, text, seen)?;
    push_found(alloc, text, cluster, findings, subject.alone)?;
    push_crons(alloc, text, zones, seen)?;
    push_jobs(alloc, text, cluster, subject.window(), findings)?;
    push_day(alloc, text, zones, crons, now)?;
    push_changes(alloc, text, zones, crons, now, subject.since)
}

/// A page on a cluster at a moment, as HTML that needs nothing from elsewhere: when it is of, of
/// which files, and what was passed over; the CronJobs that need attention; these findings of
/// `cj_audit`, kind by kind, each with its sentence, and what to do; a table of the CronJobs; the
/// Jobs over time; what starts in the day to come; and the local times that a clock skips, or shows
/// twice, from a week before to a year from then on, and that a schedule names.
///
/// # Errors
///
/// `OutOfMemory`.
pub fn page_text(
    alloc: Global,
    zones: &ZoneTable,
    cluster: &Cluster,
    findings: &[Finding],
    subject: &Subject<'_>,
) -> Result<String, Refusal>
    requires { local_zone zones.now ≡ Some (utc_zone (codes "UTC")) }
    ensures err { IfErr result (λ e. e ≡ OutOfMemory) }
{
    let findings = findings_since(alloc, subject.since, findings)?;
    let findings = findings.as_slice();
    let crons = cluster.crons(alloc)?;
    let seen = seen_crons(alloc, zones, cluster, crons.as_slice(), subject.now)?;
    let seen = seen.as_slice();
    let counts = counts_of(alloc, cluster, seen, findings.len())?;
    let mut text = String::new(alloc);
    push_head(alloc, &mut text, subject, counts)?;
    push_sections(alloc, &mut text, zones, cluster, findings, seen, subject)?;
    text.push_str(FOOT)?;
    Ok(text)
}
