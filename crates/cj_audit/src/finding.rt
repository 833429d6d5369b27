ghost use Rattle.std.specs.Prelude.{◌≡◌, refl};
ghost use Rattle.std.proofs.Common.{rules};
ghost use Rattle.std.specs.Cmp.{partial_equiv_from_equiv, partial_order_from_total, eq_by_cmp_equiv};
ghost use Rattle.std.specs.Cmp.Rules.{comparing};
ghost use Rattle.std.specs.Cmp.Lexicographic.{slice_cmp};
ghost use Rattle.std.specs.Option.{option_cmp};
ghost use Rattle.std.specs.Ordering.{nat_cmp, as_partial_cmp, eq_by_cmp};
ghost use Rattle.cj_audit.specs.Order.{finding_cmp, findings_total};

use crate::kind::FindingKind;
use cj_types::{Seconds, Text};
use std::cmp::Ordering;

/// Something that a correct controller would not have done, or would have, with what shows it.
///
/// Findings are in the order of the CronJob's namespace, its name, the time, the first Job, the
/// second, and the kind.
#[derive(Debug, Drop)]
pub struct Finding {
    /// The namespace of the CronJob, and so of its Jobs.
    pub namespace: Text,
    /// The name of the CronJob; of a stray Job the name in its controller reference, which may be
    /// any text.
    pub cron: Text,
    /// The scheduled time of the Jobs, or the due time that has none; of two Jobs beside each other
    /// the creation time of the second, of a stray Job its own, and of a stuck CronJob its last
    /// scheduled time, or its creation where there is none.
    pub time: Seconds,
    /// The name of the Job, or of the first of two; empty where a time has none, and of a stuck
    /// CronJob.
    pub first: Text,
    /// The name of the second, where there are two.
    pub second: Option<Text>,
    /// What is wrong.
    pub kind: FindingKind,
}

impl Finding {
    ghost use Rattle.cj_audit.specs.Lines.{second_name};

    /// The name of the second Job, and an empty text where there is one.
    pub(crate) fn second_name(&self) -> &str
        ensures { result.now ≡ second_name self.now }
    {
        match &self.second {
            Some(name) => name.as_str(),
            None => "",
        }
    }
}

// The bytes of the names, where there are two; none is before any.
fn compare_names(a: &Option<Text>, b: &Option<Text>) -> Ordering
    ensures { result ≡ option_cmp (slice_cmp nat_cmp) a.now b.now }
{
    match (a, b) {
        (None, None) => Ordering::Equal,
        (None, Some(_)) => Ordering::Less,
        (Some(_), None) => Ordering::Greater,
        (Some(a), Some(b)) => a.as_str().cmp(b.as_str()),
    }
}

impl PartialEq for Finding {
    ghost eq = { eq_by_cmp finding_cmp };

    ghost laws = { partial_equiv_from_equiv (eq_by_cmp_equiv findings_total) };

    fn eq(&self, other: &Finding) -> bool {
        self.cmp(other).is_eq()
    }
}

impl Eq for Finding {
    ghost laws = { eq_by_cmp_equiv findings_total };
}

impl Ord for Finding {
    ghost cmp = { finding_cmp };

    ghost total = { findings_total };

    ghost matches_partial_cmp = { Prim.search (comparing, rules) };

    ghost matches_eq = { λ x y. refl };

    fn cmp(&self, other: &Finding) -> Ordering {
        let namespaces = self.namespace.as_str().cmp(other.namespace.as_str());
        let crons = self.cron.as_str().cmp(other.cron.as_str());
        let times = self.time.cmp(&other.time);
        let firsts = self.first.as_str().cmp(other.first.as_str());
        let seconds = compare_names(&self.second, &other.second);
        let kinds = self.kind.cmp(&other.kind);
        namespaces
            .then(crons)
            .then(times)
            .then(firsts)
            .then(seconds)
            .then(kinds)
    }
}

impl PartialOrd for Finding {
    ghost partial_cmp = { as_partial_cmp finding_cmp };

    ghost laws = { partial_order_from_total findings_total };

    fn partial_cmp(&self, other: &Finding) -> Option<Ordering> {
        Some(self.cmp(other))
    }
}
