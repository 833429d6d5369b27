ghost use Rattle.std.specs.Prelude.{◌≡◌, IfOk, IfErr, OnOk, OnErr, IsTrue};
ghost use Rattle.std.specs.List.{filter_map};
ghost use Rattle.std.specs.FinMap as map;
ghost use Rattle.cj_base.specs.declared.refusal.Refusal.TheVariants.{OutOfMemory};
ghost use Rattle.cj_table.specs.jobs.Slots.{job_at};

use crate::jobs::slot::Slot;
use crate::jobs::slots::Slots;
use cj_types::{Job, Key, Listing, Refusal, Shared};
use std::alloc::Global;
use std::collections::BTreeMap;
use std::marker::Model;

// The slots of one owner's Jobs, by key and in the order of keys.
#[derive(Drop)]
pub(crate) struct OwnJobs {
    rows: BTreeMap<Key, Slot>,
}

impl Model for OwnJobs {
    ghost use Rattle.std.specs.Prelude.{ℕ};
    ghost use Rattle.std.specs.Coded.{coded_ℕ};
    ghost use Rattle.std.specs.FinMap as map;
    ghost use Rattle.cj_types.specs.Keys.{place_cmp, coded_place};

    ghost Value = { map.FinMap place_cmp ℕ };

    ghost coded = { map.code coded_place coded_ℕ };

    ghost view = { λ o. map.from_entries o.rows.entries };
}

impl OwnJobs {
    // An empty map.
    pub(crate) fn new(alloc: Global) -> OwnJobs
        ensures { result ≡ map.empty }
    {
        OwnJobs {
            rows: BTreeMap::new(alloc),
        }
    }

    // Whether there is no Job.
    #[tactic(auto, using(crate::proofs::Rows::none_listed))]
    pub(crate) fn is_empty(&self) -> bool
        ensures { IsTrue result → self.now ≡ map.empty }
    {
        self.rows.is_empty()
    }

    // Sets the slot of the key, replacing any earlier one.
    #[tactic(auto, using(crate::proofs::Rows::inserted_at))]
    pub(crate) fn insert(&mut self, key: Key, slot: Slot) -> Result<(), Refusal>
        ensures ok { OnOk result (self.new ≡ map.insert self.old key slot) }
        ensures err { OnErr result (self.new ≡ self.old) }
        ensures memory { IfErr result (λ e. e ≡ OutOfMemory) }
    {
        match self.rows.insert(key, slot) {
            Ok(_) => Ok(()),
            Err(_) => Err(Refusal::OutOfMemory),
        }
    }

    // Removes the key and its slot, if they are there.
    #[tactic(auto, using(crate::proofs::Rows::removed_at))]
    pub(crate) fn remove(&mut self, key: &Key)
        ensures { self.new ≡ map.remove self.old key.now }
    {
        self.rows.remove(key);
    }

    // The Jobs at the slots, in the order of their keys.
    pub(crate) fn list(&self, alloc: Global, slots: &Slots) -> Result<Listing<Shared<Job>>, Refusal>
        ensures ok { IfOk result (λ l. l ≡ filter_map (job_at slots.now) (map.values self.now)) }
        ensures memory { IfErr result (λ e. e ≡ OutOfMemory) }
    {
        let mut jobs = Vec::new(alloc);
        for slot in self.rows.values() {
            slots.push_shared(&mut jobs, *slot)?;
        }
        Listing::new(alloc, jobs)
    }
}
