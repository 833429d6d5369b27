ghost use Rattle.std.specs.Prelude.{refl};
ghost use Rattle.std.proofs.Common.{rules};
ghost use Rattle.std.specs.Cmp.{partial_equiv_from_equiv, partial_order_from_total, eq_by_cmp_equiv};
ghost use Rattle.std.specs.Cmp.Rules.{comparing};
ghost use Rattle.std.specs.Ordering.{as_partial_cmp, eq_by_cmp};
ghost use Rattle.cj_upcoming.specs.Starts.{start_cmp, starts_total};

use cj_base::Seconds;
use std::cmp::Ordering;

/// A time at which a CronJob starts something. Starts are in the order of their times, then of the
/// CronJobs.
#[derive(Clone, Copy, Debug)]
pub struct Start {
    /// The time.
    pub time: Seconds,
    /// The place of the CronJob in the list that was asked about, from 0.
    pub cron: usize,
}

impl PartialEq for Start {
    ghost eq = { eq_by_cmp start_cmp };

    ghost laws = { partial_equiv_from_equiv (eq_by_cmp_equiv starts_total) };

    fn eq(&self, other: &Start) -> bool {
        self.cmp(other).is_eq()
    }
}

impl Eq for Start {
    ghost laws = { eq_by_cmp_equiv starts_total };
}

impl Ord for Start {
    ghost cmp = { start_cmp };

    ghost total = { starts_total };

    ghost matches_partial_cmp = { Prim.search (comparing, rules) };

    ghost matches_eq = { λ x y. refl };

    fn cmp(&self, other: &Start) -> Ordering {
        let times = self.time.cmp(&other.time);
        let crons = self.cron.cmp(&other.cron);
        times.then(crons)
    }
}

impl PartialOrd for Start {
    ghost partial_cmp = { as_partial_cmp start_cmp };

    ghost laws = { partial_order_from_total starts_total };

    fn partial_cmp(&self, other: &Start) -> Option<Ordering> {
        Some(self.cmp(other))
    }
}
