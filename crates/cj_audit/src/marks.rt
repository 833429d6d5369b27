ghost use Rattle.std.specs.Prelude.{◌≡◌, None, IfOk, IfErr, OnOk};
ghost use Rattle.std.specs.BTreeSet.{contains};
ghost use Rattle.std.specs.Ordering.{nat_cmp};
ghost use Rattle.cj_base.specs.declared.refusal.Refusal.TheVariants.{OutOfMemory};
ghost use Rattle.cj_audit.specs.Missing.{is_earlier, is_later};
ghost use Rattle.cj_audit.specs.Marks.{earlier, ended_of, ended_time, keeps, lacks, later, latest, oldest, AreMarks, AreTimes, Marked};

use crate::ending::Ending;
use crate::run::Run;
use cj_cluster::ClusterCron;
use cj_types::{CronSpec, HistoryLimit, Job, Refusal, Seconds, Shared};
use std::alloc::Global;
use std::collections::BTreeSet;

/// The Jobs of a CronJob that ended in one way.
#[derive(Clone, Copy)]
pub(crate) struct Ended {
    /// The least scheduled time.
    pub oldest: Option<Seconds>,
    /// How many there are, those that somebody made by hand among them.
    pub count: usize,
}

/// What the Jobs of a CronJob tell together of the times that have none.
#[derive(Drop)]
pub(crate) struct Marks {
    /// The scheduled times.
    pub times: BTreeSet<Seconds>,
    /// The greatest of them.
    pub latest: Option<Seconds>,
    pub completed: Ended,
    pub failed: Ended,
}

fn earlier(a: Option<Seconds>, b: Option<Seconds>) -> Option<Seconds>
    ensures { result ≡ earlier a b }
{
    match (a, b) {
        (Some(s), Some(t)) => Some(s.min(t)),
        (Some(s), None) => Some(s),
        (None, b) => b,
    }
}

fn later(a: Option<Seconds>, b: Option<Seconds>) -> Option<Seconds>
    ensures { result ≡ later a b }
{
    match (a, b) {
        (Some(s), Some(t)) => Some(s.max(t)),
        (Some(s), None) => Some(s),
        (None, b) => b,
    }
}

// The scheduled time of a Job, where it ended so.
fn ended_time(ending: Ending, run: &Run) -> Option<Seconds>
    ensures { result ≡ ended_time ending run.now }
{
    if ending.is_of(run.job.get()) {
        run.times.scheduled
    } else {
        None
    }
}

// The least scheduled time of the Jobs that ended so.
fn oldest(ending: Ending, runs: &[Run]) -> Option<Seconds>
    ensures { result ≡ oldest ending None runs.now }
{
    let mut oldest = None;
    for run in runs {
        oldest = earlier(oldest, ended_time(ending, run));
    }
    oldest
}

// The greatest scheduled time of the Jobs.
fn latest(runs: &[Run]) -> Option<Seconds>
    ensures { result ≡ latest None runs.now }
{
    let mut latest = None;
    for run in runs {
        latest = later(latest, run.times.scheduled);
    }
    latest
}

fn ended_of(ending: Ending, cron: &ClusterCron, runs: &[Run], jobs: &[Shared<Job>]) -> Ended
    ensures { result ≡ ended_of ending cron.now runs.now jobs.now }
{
    Ended {
        oldest: oldest(ending, runs),
        count: ending.count(cron, jobs),
    }
}

// The set with the scheduled time of the Job, if it's known.
fn mark(times: &mut BTreeSet<Seconds>, run: &Run) -> Result<(), Refusal>
    ensures ok { OnOk result (Marked run.now times.old times.new) }
    ensures memory { IfErr result (λ e. e ≡ OutOfMemory) }
{
    let Some(time) = run.times.scheduled else {
        return Ok(());
    };
    match times.insert(time) {
        Ok(_) => Ok(()),
        Err(_) => Err(Refusal::OutOfMemory),
    }
}

fn times_of(alloc: Global, runs: &[Run]) -> Result<BTreeSet<Seconds>, Refusal>
    ensures ok { IfOk result (AreTimes runs.now) }
    ensures memory { IfErr result (λ e. e ≡ OutOfMemory) }
{
    let mut times = BTreeSet::new(alloc);
    for run in runs {
        mark(&mut times, run)?;
    }
    Ok(times)
}

fn is_earlier(time: Seconds, known: Option<Seconds>) -> bool
    ensures { result ≡ is_earlier time known }
{
    match known {
        Some(at) => at < time,
        None => false,
    }
}

fn is_later(time: Seconds, known: Option<Seconds>) -> bool
    ensures { result ≡ is_later time known }
{
    match known {
        Some(at) => time < at,
        None => false,
    }
}

impl Ended {
    // Whether clean-up would have left a Job of this time, under that limit.
    fn keeps(&self, limit: HistoryLimit, time: Seconds) -> bool
        ensures { result ≡ keeps self.now limit time }
    {
        let has_older = is_earlier(time, self.oldest);
        has_older || self.count < limit.get() as usize
    }
}

impl Marks {
    /// What these Jobs tell, of which the latter are all that name the CronJob.
    pub fn of(
        alloc: Global,
        cron: &ClusterCron,
        runs: &[Run],
        jobs: &[Shared<Job>],
    ) -> Result<Marks, Refusal>
        ensures ok { IfOk result (AreMarks cron.now runs.now jobs.now) }
        ensures memory { IfErr result (λ e. e ≡ OutOfMemory) }
    {
        Ok(Marks {
            times: times_of(alloc, runs)?,
            latest: latest(runs),
            completed: ended_of(Ending::Success, cron, runs, jobs),
            failed: ended_of(Ending::Failure, cron, runs, jobs),
        })
    }

    /// Whether a Job has this time.
    pub fn has(&self, time: Seconds) -> bool
        ensures { result ≡ contains nat_cmp self.now.times time }
    {
        self.times.contains(&time)
    }

    /// Whether later times have a Job, and this one has none, where clean-up would have left it.
    pub fn lacks(&self, spec: &CronSpec, time: Seconds) -> bool
        ensures { result ≡ lacks self.now spec.now time }
    {
        let is_passed = is_later(time, self.latest);
        let is_free = !self.times.contains(&time);
        let keeps_completed = self.completed.keeps(spec.successful_limit, time);
        let keeps_failed = self.failed.keeps(spec.failed_limit, time);
        is_passed && is_free && keeps_completed && keeps_failed
    }
}
