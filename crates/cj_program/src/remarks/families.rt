// Gaps of one CronJob with one cause.
ghost use Rattle.std.specs.Prelude.{◌≡◌, List, [], ◌∷◌, ◌++◌, ◌+◌, ◌<◌, ◌^◌, IfOk, IfErr, OnOk};
ghost use Rattle.cj_base.specs.declared.refusal.Refusal.TheVariants.{OutOfMemory};
ghost use Rattle.cj_history.specs.declared.gaps.gap.Gap.{Gap};
ghost use Rattle.cj_program.specs.remarks.Families as said;
ghost use Rattle.cj_program.specs.remarks.Families.{IsCounted, Stands, count_in, tally_at};

use cj_history::{Gap, Why};
use cj_types::{Refusal, Seconds, Uid};
use std::alloc::Global;
use std::collections::BTreeMap;

/// Which CronJob, by its uid, and which cause.
#[derive(Clone, Copy, Debug, PartialEq, Eq, PartialOrd, Ord)]
pub(crate) struct Kind {
    pub uid: Uid,
    pub why: Why,
}

/// How many gaps there are, with the times of the first and the last.
#[derive(Clone, Copy, Debug)]
pub(crate) struct Tally {
    pub count: u64,
    pub first: Seconds,
    pub last: Seconds,
}

/// The gaps of each kind, counted.
#[derive(Drop)]
pub(crate) struct Families {
    tallies: BTreeMap<Kind, Tally>,
}

/// The kind of a gap.
pub(crate) fn kind_of(gap: &Gap) -> Kind
    ensures { result ≡ said.kind_of gap.now }
{
    Kind {
        uid: gap.cron.get().meta.uid,
        why: gap.why,
    }
}

// The count after another gap, at this time.
fn tally_with(was: Option<Tally>, time: Seconds) -> Tally
    requires { count_in was + 1 < 2 ^ 64 }
    ensures { result ≡ said.tally_with was time }
{
    match was {
        None => Tally {
            count: 1,
            first: time,
            last: time,
        },
        Some(was) => Tally {
            count: was.count + 1,
            first: was.first,
            last: time,
        },
    }
}

impl Families {
    // No gap is counted yet.
    fn new(alloc: Global) -> Families
        ensures { IsCounted result [] }
    {
        Families {
            tallies: BTreeMap::new(alloc),
        }
    }

    /// How many gaps of that kind there are, if there is one.
    pub(crate) fn tally(&self, kind: &Kind) -> Option<Tally>
        ensures { result ≡ tally_at self.now kind.now }
    {
        self.tallies.get(kind).copied()
    }

    // Puts the tally at the kind.
    fn put(&mut self, kind: Kind, tally: Tally) -> Result<(), Refusal>
        ensures ok { OnOk result (Stands kind tally self.old self.new) }
        ensures err { IfErr result (λ e. e ≡ OutOfMemory) }
    {
        match self.tallies.insert(kind, tally) {
            Ok(_) => Ok(()),
            Err(_) => Err(Refusal::OutOfMemory),
        }
    }

    // Counts the gap that follows those that were counted.
    fn note(&mut self, gap: &Gap) -> Result<(), Refusal>
        requires { count_in (tally_at self.old (said.kind_of gap.now)) + 1 < 2 ^ 64 }
        ensures ok { OnOk result ((gs : List Gap) → IsCounted self.old gs →
            IsCounted self.new (gs ++ gap.now ∷ [])) }
        ensures err { IfErr result (λ e. e ≡ OutOfMemory) }
    {
        let kind = kind_of(gap);
        let tally = tally_with(self.tally(&kind), gap.time);
        self.put(kind, tally)
    }

    /// The tallies of all gaps.
    pub(crate) fn of(alloc: Global, gaps: &[Gap]) -> Result<Families, Refusal>
        ensures ok { IfOk result (λ f. IsCounted f gaps.now) }
        ensures err { IfErr result (λ e. e ≡ OutOfMemory) }
    {
        let mut families = Families::new(alloc);
        for gap in gaps {
            families.note(gap)?;
        }
        Ok(families)
    }
}
