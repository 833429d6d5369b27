// Gaps in a list, with their times to be looked up.
ghost use Rattle.std.specs.Prelude.{◌≡◌, ◌++◌, [], ◌∷◌, IfErr, OnOk};
ghost use Rattle.cj_base.specs.declared.refusal.Refusal.TheVariants.{OutOfMemory};
ghost use Rattle.cj_history.specs.gaps.reading.Settled.{is_listed};

use crate::gaps::gap::Gap;
use crate::gaps::mark::Start;
use cj_types::Refusal;
use std::alloc::Global;
use std::collections::BTreeSet;
use std::marker::Model;

/// Gaps in the order in which they were found. Contracts see the list.
pub(crate) struct Listed {
    gaps: Vec<Gap>,
    // The CronJob and the time of each.
    times: BTreeSet<Start>,
}

impl Drop for Listed {
    fn drop(self) {
        let Listed { gaps: _, times: _ } = self;
    }
}

impl Model for Listed {
    ghost use Rattle.std.specs.Prelude.{List};
    ghost use Rattle.cj_history.specs.declared.gaps.gap.Gap.{Gap};
    ghost use Rattle.cj_history.specs.gaps.reading.Settled.{Agrees};

    ghost Value = { List Gap };

    ghost view = { λ l. l.gaps.items };

    ghost invariant = { λ l. Agrees l.gaps.items l.times };
}

impl Listed {
    /// None.
    pub(crate) fn new(alloc: Global) -> Listed
        ensures { result ≡ [] }
    {
        Listed {
            gaps: Vec::new(alloc),
            times: BTreeSet::new(alloc),
        }
    }

    /// Whether a gap is of that CronJob and that time.
    pub(crate) fn has(&self, start: Start) -> bool
        ensures { result ≡ is_listed self.now start.uid start.time }
    {
        self.times.contains(&start)
    }

    /// A gap more.
    pub(crate) fn push(&mut self, gap: Gap) -> Result<(), Refusal>
        ensures ok { OnOk result (self.new ≡ self.old ++ gap ∷ []) }
        ensures err { IfErr result (λ e. e ≡ OutOfMemory) }
    {
        let start = gap.start();
        self.gaps.reserve(1)?;
        if self.times.insert(start).is_err() {
            return Err(Refusal::OutOfMemory);
        }
        self.gaps.push_reserved(gap);
        Ok(())
    }

    /// The list.
    pub(crate) fn into_gaps(self) -> Vec<Gap>
        ensures { result.items ≡ self }
    {
        let Listed { gaps, times: _ } = self;
        gaps
    }
}
