ghost use Rattle.std.specs.Prelude.{◌≡◌, None, Some, IfOk, IfErr, OnOk, OnErr};
ghost use Rattle.std.specs.List.{filter_map};
ghost use Rattle.std.specs.FinMap as map;
ghost use Rattle.cj_base.specs.declared.refusal.Refusal.TheVariants.{OutOfMemory};
ghost use Rattle.cj_table.specs.jobs.Slots.{job_at};
ghost use Rattle.cj_table.specs.jobs.Index.{own_slots, Sets};

use crate::jobs::own_jobs::OwnJobs;
use crate::jobs::owner::Owner;
use crate::jobs::slot::Slot;
use crate::jobs::slots::Slots;
use cj_types::{Job, Key, Listing, Refusal, Shared, TryCopy};
use std::alloc::Global;
use std::collections::BTreeMap;
use std::marker::Model;

// For each owner that has Jobs, the slots of its Jobs.
#[derive(Drop)]
pub(crate) struct ByOwner {
    rows: BTreeMap<Owner, OwnJobs>,
}

impl Model for ByOwner {
    ghost use Rattle.std.specs.Prelude.{ℕ};
    ghost use Rattle.std.specs.Coded.{coded_ℕ};
    ghost use Rattle.std.specs.FinMap as map;
    ghost use Rattle.cj_types.specs.Keys.{place_cmp, coded_place};

    ghost Value = { map.FinMap place_cmp (map.FinMap place_cmp ℕ) };

    ghost coded = { map.code coded_place (map.code coded_place coded_ℕ) };

    ghost view = { λ b. map.from_entries b.rows.entries };
}

impl ByOwner {
    // An empty index.
    pub(crate) fn new(alloc: Global) -> ByOwner
        ensures { result ≡ map.empty }
    {
        ByOwner {
            rows: BTreeMap::new(alloc),
        }
    }

    // The Jobs at the owner's slots, in the order of their keys.
    pub(crate) fn list(
        &self,
        alloc: Global,
        slots: &Slots,
        owner: &Owner,
    ) -> Result<Listing<Shared<Job>>, Refusal>
        ensures ok { IfOk result (λ l.
            l ≡ filter_map (job_at slots.now) (map.values (own_slots self.now owner.now))) }
        ensures memory { IfErr result (λ e. e ≡ OutOfMemory) }
    {
        match self.rows.get(owner) {
            Some(own) => own.list(alloc, slots),
            None => Listing::new(alloc, Vec::new(alloc)),
        }
    }

    // Sets the slot of the key under the owner, if one is given, replacing any earlier one.
    // Unchanged where there is no memory.
    pub(crate) fn put(
        &mut self,
        alloc: Global,
        owner: Option<Owner>,
        key: &Key,
        slot: Slot,
    ) -> Result<(), Refusal>
        ensures ok { OnOk result (Sets (Some slot) self.old self.new owner key.now) }
        ensures err { OnErr result (self.new ≡ self.old) }
        ensures memory { IfErr result (λ e. e ≡ OutOfMemory) }
    {
        let Some(owner) = owner else {
            return Ok(());
        };
        let key = key.try_copy(alloc)?;
        if let Some(own) = self.rows.get_mut(&owner) {
            return own.insert(key, slot);
        }
        let mut own = OwnJobs::new(alloc);
        own.insert(key, slot)?;
        match self.rows.insert(owner, own) {
            Ok(_) => Ok(()),
            Err(_) => Err(Refusal::OutOfMemory),
        }
    }

    // Removes the key and its slot from under the owner, if one is given, and the owner with its
    // last Job.
    pub(crate) fn take(&mut self, owner: Option<Owner>, key: &Key)
        ensures { Sets None self.old self.new owner key.now }
    {
        let Some(owner) = owner else {
            return;
        };
        let Some(own) = self.rows.get_mut(&owner) else {
            return;
        };
        own.remove(key);
        if own.is_empty() {
            self.rows.remove(&owner);
        }
    }
}
