ghost use Rattle.std.specs.Prelude.{◌≡◌, IfOk, IfErr, ◌==◌};
ghost use Rattle.std.proofs.Common.{rules};
ghost use Rattle.std.specs.Cmp.{partial_order_from_own_ties};
ghost use Rattle.std.specs.Cmp.Rules.{comparing};
ghost use Rattle.std.specs.Cmp.Lexicographic.{pointwise};
ghost use Rattle.std.specs.Ordering.{on, as_partial_cmp, eq_of_both};
ghost use Rattle.cj_types.specs.Keys.{place_cmp};
ghost use Rattle.cj_base.specs.declared.refusal.Refusal.TheVariants.{OutOfMemory};
ghost use Rattle.cj_table.specs.jobs.Slots.{job_at};
ghost use Rattle.cj_table.specs.jobs.Index.{owner_of, owner_at};

use crate::jobs::slot::Slot;
use crate::jobs::slots::Slots;
use cj_base::both;
use cj_types::{Job, Key, Refusal, Shared, Text, TryCopy};
use std::alloc::Global;
use std::cmp::Ordering;
use std::marker::Model;

// Namespace and name of a CronJob that a Job's controller reference names, which need not be well
// formed.
#[derive(Drop)]
pub(crate) struct Owner {
    namespace: Text,
    name: Text,
}

impl Model for Owner {
    ghost use Rattle.cj_types.specs.Keys.{Place, coded_place, place};

    ghost Value = { Place };

    ghost coded = { coded_place };

    ghost view = { λ o. place o.namespace o.name };
}

impl Owner {
    // The CronJob that the Job's controller reference names, if it names one.
    pub(crate) fn of(alloc: Global, job: &Shared<Job>) -> Result<Option<Owner>, Refusal>
        ensures ok { IfOk result (λ o. o ≡ owner_of job.now) }
        ensures err { IfErr result (λ e. e ≡ OutOfMemory) }
    {
        let Some(name) = job.cron_name() else {
            return Ok(None);
        };
        let (namespace, name) = both(Text::new(alloc, job.key.namespace()), name.try_copy(alloc))?;
        Ok(Some(Owner { namespace, name }))
    }

    // The CronJob that the Job in the slot names, if there is a Job and it names one.
    pub(crate) fn standing(
        alloc: Global,
        slots: &Slots,
        slot: Slot,
    ) -> Result<Option<Owner>, Refusal>
        ensures ok { IfOk result (λ o. o ≡ owner_at (job_at slots.now slot)) }
        ensures err { IfErr result (λ e. e ≡ OutOfMemory) }
    {
        match slots.get(slot) {
            Some(job) => Owner::of(alloc, job),
            None => Ok(None),
        }
    }

    // The CronJob at the key.
    pub(crate) fn at(alloc: Global, key: &Key) -> Result<Owner, Refusal>
        ensures ok { IfOk result (λ o. o ≡ key.now) }
        ensures err { IfErr result (λ e. e ≡ OutOfMemory) }
    {
        let (namespace, name) = both(
            Text::new(alloc, key.namespace()),
            Text::new(alloc, key.name()),
        )?;
        Ok(Owner { namespace, name })
    }
}

impl PartialEq for Owner {
    ghost eq = { eq_of_both (on (λ o. o.namespace) (pointwise ◌==◌)) (on (λ o. o.name) (pointwise ◌==◌)) };

    ghost laws = { Prim.search (comparing, rules) };

    fn eq(&self, other: &Owner) -> bool {
        self.namespace.as_str() == other.namespace.as_str()
            && self.name.as_str() == other.name.as_str()
    }
}

impl Eq for Owner {
    ghost laws = { Prim.search (comparing, rules) };
}

impl Ord for Owner {
    ghost cmp = { place_cmp };

    ghost total = { Prim.search (comparing, rules) };

    ghost matches_partial_cmp = { Prim.search (comparing, rules) };

    ghost matches_eq = { Prim.search (comparing, rules) };

    fn cmp(&self, other: &Owner) -> Ordering {
        let namespaces = self.namespace.as_str().cmp(other.namespace.as_str());
        namespaces.then(self.name.as_str().cmp(other.name.as_str()))
    }
}

impl PartialOrd for Owner {
    ghost partial_cmp = { as_partial_cmp place_cmp };

    ghost laws = { partial_order_from_own_ties (Prim.search (comparing, rules)) (Prim.search (comparing, rules)) };

    fn partial_cmp(&self, other: &Owner) -> Option<Ordering> {
        Some(self.cmp(other))
    }
}
