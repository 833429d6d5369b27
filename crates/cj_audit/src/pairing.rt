ghost use Rattle.std.specs.Prelude.{◌≡◌, IfErr, OnOk};
ghost use Rattle.std.specs.List.Sorted.{IsPermutation};
ghost use Rattle.cj_status.specs.Order.{IsRising};
ghost use Rattle.cj_base.specs.declared.refusal.Refusal.TheVariants.{OutOfMemory};
ghost use Rattle.cj_audit.specs.Pairs.{at_one_time, before_end, beside, comes_before, is_pair, key_of, kind_of, meets, reaches, run_cmp};

use crate::kind::{Exclusive, FindingKind};
use crate::run::Run;
use cj_types::{Refusal, Seconds};
use std::cmp::Ordering;

/// What two Jobs of a CronJob may not have in common.
#[derive(Clone, Copy, Debug, PartialEq, Eq)]
pub(crate) enum Pairing {
    /// The scheduled time.
    SameTime,
    /// Time in which they run.
    SideBySide(Exclusive),
}

impl Pairing {
    /// What a finding of two such Jobs is.
    pub fn kind(self) -> FindingKind
        ensures { result ≡ kind_of self }
    {
        match self {
            Pairing::SameTime => FindingKind::Twice,
            Pairing::SideBySide(exclusive) => FindingKind::Beside(exclusive),
        }
    }

    /// By what Jobs are put in order first: the scheduled time, and without one the creation time;
    /// or that alone.
    pub fn key(self, run: &Run) -> Seconds
        ensures { result ≡ key_of self run.now }
    {
        let created = run.job.meta.created;
        match self {
            Pairing::SameTime => run.times.scheduled.unwrap_or(created),
            Pairing::SideBySide(_) => created,
        }
    }

    /// How two Jobs stand: by that time, then by the bytes of their names.
    pub fn compare(self, a: &Run, b: &Run) -> Ordering
        ensures { result ≡ run_cmp self a.now b.now }
    {
        let times = self.key(a).cmp(&self.key(b));
        let names = a.job.key.name().cmp(b.job.key.name());
        times.then(names)
    }

    fn meets(self, first: &Run, second: &Run) -> bool
        ensures { result ≡ meets self first.now second.now }
    {
        match self {
            Pairing::SameTime => at_one_time(first.times.scheduled, second.times.scheduled),
            Pairing::SideBySide(_) => beside(first, second),
        }
    }

    /// Whether they are two that should not be, the first before the second.
    pub fn is_pair(self, first: &Run, second: &Run) -> bool
        ensures { result ≡ is_pair self first.now second.now }
    {
        let before = self.compare(first, second).is_lt();
        let meets = self.meets(first, second);
        before && meets
    }

    /// Whether a later one may still be such a second: once this fails it fails for all behind it.
    pub fn reaches(self, first: &Run, second: &Run) -> bool
        ensures { result ≡ reaches self first.now second.now }
    {
        let at_once = self.key(first) == self.key(second);
        match self {
            Pairing::SameTime => first.times.scheduled.is_some() && at_once,
            Pairing::SideBySide(_) => {
                let before = before_end(second.job.meta.created, first.times.ended);
                before || at_once
            }
        }
    }

    /// Puts the Jobs in order.
    pub fn sort(self, runs: &mut Vec<Run>) -> Result<(), Refusal>
        ensures sorted { OnOk result (IsRising (comes_before self) runs.new.items) }
        ensures same { IsPermutation runs.old.items runs.new.items }
        ensures memory { IfErr result (λ e. e ≡ OutOfMemory) }
    {
        runs.sort_by(|a, b| self.compare(a, b))?;
        Ok(())
    }
}

fn at_one_time(a: Option<Seconds>, b: Option<Seconds>) -> bool
    ensures { result ≡ at_one_time a b }
{
    match (a, b) {
        (Some(a), Some(b)) => a == b,
        _ => false,
    }
}

/// Whether the time is before the end of a Job, which may not have ended.
pub(crate) fn before_end(time: Seconds, ended: Option<Seconds>) -> bool
    ensures { result ≡ before_end time ended }
{
    match ended {
        Some(ended) => time < ended,
        None => true,
    }
}

// Whether the second was created while the first ran, or the first while the second that was
// created with it ran.
fn beside(first: &Run, second: &Run) -> bool
    ensures { result ≡ beside first.now second.now }
{
    let (created, begun) = (first.job.meta.created, second.job.meta.created);
    let in_first = before_end(begun, first.times.ended);
    let in_second = before_end(created, second.times.ended);
    let at_once = created == begun;
    in_first || (at_once && in_second)
}
