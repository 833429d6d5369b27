// The picture of a cluster.
ghost use Rattle.std.specs.Prelude.{◌≡◌, IfErr};
ghost use Rattle.cj_base.specs.declared.refusal.Refusal.TheVariants.{OutOfMemory};

use crate::axis::Axis;
use crate::cluster::bars::{Member, axis_of, members_of, place_all};
use crate::cluster::findings::{crosses_in, ill_jobs, summary};
use crate::cluster::window::Window;
use crate::lanes::{Lane, lay_out};
use crate::page::Page;
use crate::style::CLUSTER_LEGEND;
use cj_audit::Finding;
use cj_cluster::{Cluster, ClusterCron};
use cj_types::{Refusal, Shared};
use cj_zone::Zone;
use std::alloc::Global;

fn lanes_of(alloc: Global, crons: &[Shared<ClusterCron>]) -> Result<Vec<Lane>, Refusal>
    ensures err { IfErr result (λ e. e ≡ OutOfMemory) }
{
    let mut lanes = Vec::new(alloc);
    for cron in crons {
        let lane = Lane::new(alloc, cron.get().cron.share()?);
        lanes.push(lane).map_err(|_| Refusal::OutOfMemory)?;
    }
    Ok(lanes)
}

fn page_with(
    alloc: Global,
    axis: Axis,
    mut lanes: Vec<Lane>,
    members: &[Member],
    findings: &[Finding],
) -> Result<Page, Refusal>
    ensures err { IfErr result (λ e. e ≡ OutOfMemory) }
{
    let ill = ill_jobs(alloc, findings)?;
    let blocks = place_all(alloc, lanes.as_mut_slice(), axis, &ill, members)?;
    let crosses = crosses_in(alloc, lanes.as_mut_slice(), findings)?;
    let layout = lay_out(lanes.as_mut_slice());
    Ok(Page {
        axis,
        layout,
        lanes,
        blocks,
        crosses,
    })
}

fn page_of(
    alloc: Global,
    cluster: &Cluster,
    window: Window,
    findings: &[Finding],
) -> Result<Page, Refusal>
    ensures err { IfErr result (λ e. e ≡ OutOfMemory) }
{
    let crons = cluster.crons(alloc)?;
    let members = members_of(alloc, cluster, crons.as_slice())?;
    let lanes = lanes_of(alloc, crons.as_slice())?;
    let axis = axis_of(members.as_slice(), window);
    page_with(alloc, axis, lanes, members.as_slice(), findings)
}

/// A picture of a cluster's Jobs, as SVG: a lane for each CronJob, by key, with its name, policy
/// and schedule; a bar for each Job that the controller made for it, from its creation to its end,
/// open at the right where it hasn't ended, grey where it is suspended, with a tick at its
/// scheduled time; and a cross for each of these findings at its time, whose Jobs have a line
/// around their bars, with what it means as its title. It shows the window, and up to the last
/// event; the bar of a Job that hasn't ended ends there. The number of findings is below, and then
/// these words, line by line.
///
/// The moments above the lanes are by the clock of the zone, or else by UTC. Of more than forty
/// CronJobs each gets one line, and those with nothing to show are counted.
///
/// # Errors
///
/// `OutOfMemory`.
pub fn cluster_picture(
    alloc: Global,
    cluster: &Cluster,
    window: Window,
    findings: &[Finding],
    words: &str,
    clock: Option<&Zone>,
) -> Result<String, Refusal>
    ensures err { IfErr result (λ e. e ≡ OutOfMemory) }
{
    let page = page_of(alloc, cluster, window, findings)?;
    let mut below = summary(alloc, findings)?;
    below.push_str(words)?;
    page.text(
        alloc,
        clock,
        "Jobs of a cluster",
        CLUSTER_LEGEND,
        below.as_str(),
    )
}
