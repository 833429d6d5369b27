// The Jobs of a cluster, and their bars.
ghost use Rattle.std.specs.Prelude.{◌≡◌, IfErr};
ghost use Rattle.cj_base.specs.declared.refusal.Refusal.TheVariants.{OutOfMemory};

use crate::axis::Axis;
use crate::blocks::{Block, Look, title};
use crate::cluster::window::Window;
use crate::lanes::Lane;
use cj_audit::{Run, runs_of};
use cj_cluster::{Cluster, ClusterCron};
use cj_types::{Key, Outcome, Refusal, Shared};
use cj_zone::time_text;
use std::alloc::Global;
use std::collections::BTreeSet;

/// A Job of the CronJob of a lane.
pub(crate) struct Member {
    lane: usize,
    run: Run,
}

impl Drop for Member {
    fn drop(self) {
        let Member { lane: _, run } = self;
        drop(run);
    }
}

fn push_members(members: &mut Vec<Member>, lane: usize, runs: Vec<Run>) -> Result<(), Refusal>
    ensures err { IfErr result (λ e. e ≡ OutOfMemory) }
{
    for run in runs {
        members
            .push(Member { lane, run })
            .map_err(|_| Refusal::OutOfMemory)?;
    }
    Ok(())
}

/// The Jobs of the CronJobs, each with the number of its CronJob.
pub(crate) fn members_of(
    alloc: Global,
    cluster: &Cluster,
    crons: &[Shared<ClusterCron>],
) -> Result<Vec<Member>, Refusal>
    ensures err { IfErr result (λ e. e ≡ OutOfMemory) }
{
    let mut members = Vec::new(alloc);
    for (lane, cron) in crons.iter().enumerate() {
        let runs = runs_of(alloc, cluster, cron.get())?;
        push_members(&mut members, lane, runs)?;
    }
    Ok(members)
}

/// The moments of these Jobs, within a window.
pub(crate) fn axis_of(members: &[Member], window: Window) -> Axis {
    let mut axis = Axis::empty();
    for member in members {
        axis = axis
            .with(Some(member.run.job.get().meta.created))
            .with(member.run.times.ended)
            .with(member.run.times.scheduled);
    }
    axis.with(window.now).whole().since(window.since)
}

fn look_of(run: &Run) -> Look {
    match run.job.get().outcome {
        None if run.times.is_suspended => Look::Suspended,
        None => Look::Open,
        Some(Outcome::Complete(_)) => Look::Done,
        Some(Outcome::Failed) => Look::Failed,
    }
}

fn end_word(look: Look) -> &'static str {
    match look {
        Look::Done => "Complete at",
        Look::Failed => "Failed at",
        Look::Dropped => "dropped at",
        Look::Open => "not ended at",
        Look::Suspended => "suspended, not ended at",
    }
}

// When the Job was due, as its annotation says, or else its name.
fn due_text(alloc: Global, run: &Run) -> Result<String, Refusal>
    ensures err { IfErr result (λ e. e ≡ OutOfMemory) }
{
    match run.times.scheduled {
        Some(at) => time_text(alloc, at),
        None => Ok(String::from_str(alloc, "unknown")?),
    }
}

fn place(
    alloc: Global,
    lanes: &mut [Lane],
    axis: Axis,
    ill: &BTreeSet<Key>,
    member: &Member,
) -> Result<Option<Block>, Refusal>
    ensures err { IfErr result (λ e. e ≡ OutOfMemory) }
{
    let (run, lane) = (&member.run, member.lane);
    if lane >= lanes.len() {
        return Ok(None);
    }
    let job = run.job.get();
    let from = job.meta.created.get();
    let to = run.times.ended.map_or(axis.end, |at| at.get());
    let row = lanes[lane].place(from, to.max(from.saturating_add(1)))?;
    let look = look_of(run);
    let due = due_text(alloc, run)?;
    let title = title(alloc, job, due.as_str(), end_word(look), to)?;
    Ok(Some(Block {
        lane,
        row,
        from,
        to,
        due: run.times.scheduled,
        look,
        ill: ill.contains(&job.key),
        title,
    }))
}

/// Places the bars of the Jobs, of which those with these keys are marked.
pub(crate) fn place_all(
    alloc: Global,
    lanes: &mut [Lane],
    axis: Axis,
    ill: &BTreeSet<Key>,
    members: &[Member],
) -> Result<Vec<Block>, Refusal>
    ensures err { IfErr result (λ e. e ≡ OutOfMemory) }
{
    let mut all = Vec::new(alloc);
    for member in members {
        if let Some(block) = place(alloc, lanes, axis, ill, member)? {
            all.push(block).map_err(|_| Refusal::OutOfMemory)?;
        }
    }
    Ok(all)
}
