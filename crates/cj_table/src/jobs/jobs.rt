ghost use Rattle.std.specs.Prelude.{◌≡◌, None, Some, IfOk, IfErr, IfSome, OnOk, OnErr, option_copied};
ghost use Rattle.std.specs.FinMap as map;
ghost use Rattle.cj_base.specs.declared.refusal.Refusal.TheVariants.{OutOfMemory};
ghost use Rattle.cj_table.specs.jobs.Owners.{owned_by, owners_of};

use crate::jobs::by_owner::ByOwner;
use crate::jobs::owner::Owner;
use crate::jobs::slot::Slot;
use crate::jobs::slots::Slots;
use crate::table::Table;
use cj_base::all_three;
use cj_types::{Job, Key, Listing, Refusal, Shared, TryCopy};
use std::alloc::Global;
use std::marker::Model;

// A copy of the Job's key.
fn key_of(alloc: Global, job: &Shared<Job>) -> Result<Key, Refusal>
    ensures ok { IfOk result (λ k. k ≡ job.now.key) }
    ensures err { IfErr result (λ e. e ≡ OutOfMemory) }
{
    job.key.try_copy(alloc)
}

/// Jobs by key, each at its own, with an index that has under each CronJob the Jobs that it owns.
/// Contracts see the Jobs by key alone.
pub struct Jobs {
    // The Jobs themselves.
    slots: Slots,
    // For each key the slot of its Job.
    table: Table<Slot>,
    index: ByOwner,
}

impl Model for Jobs {
    ghost use Rattle.std.specs.FinMap as map;
    ghost use Rattle.cj_types.specs.Keys.{place_cmp, coded_place};
    ghost use Rattle.cj_types.specs.declared.job.Job.{Job};
    ghost use Rattle.cj_types.specs.contracts.job.Job.{the_row as job};
    ghost use Rattle.cj_table.specs.jobs.Slots.{jobs_of};
    ghost use Rattle.cj_table.specs.jobs.Index.{IsIndex};

    ghost Value = { map.FinMap place_cmp Job };

    ghost coded = { map.code coded_place job.coded };

    ghost view = { λ s. jobs_of s.table s.slots };

    ghost invariant = { λ s. IsIndex s.table s.slots s.index };
}

impl Drop for Jobs {
    fn drop(self) {
        let Jobs {
            slots,
            table,
            index,
        } = self;
        drop(slots);
        drop(table);
        drop(index);
    }
}

impl Jobs {
    /// An empty map.
    pub fn new(alloc: Global) -> Jobs
        ensures { result ≡ map.empty }
    {
        Jobs {
            slots: Slots::new(alloc),
            table: Table::new(alloc),
            index: ByOwner::new(alloc),
        }
    }

    /// The Job at the key.
    pub fn get(&self, key: &Key) -> Option<&Shared<Job>>
        ensures value { option_copied result ≡ map.get self.now key.now }
        ensures keyed { IfSome result (λ j. j.now.key ≡ key.now) }
    {
        let slot = self.table.get(key)?;
        self.slots.get(*slot)
    }

    /// The Jobs in the order of their keys. No Job is copied.
    pub fn list(&self, alloc: Global) -> Result<Listing<Shared<Job>>, Refusal>
        ensures ok { IfOk result (λ l. l ≡ map.values self.now) }
        ensures memory { IfErr result (λ e. e ≡ OutOfMemory) }
    {
        let mut jobs = Vec::new(alloc);
        for slot in self.table.list(alloc)? {
            self.slots.push_shared(&mut jobs, slot)?;
        }
        Listing::new(alloc, jobs)
    }

    /// The Jobs of the key's namespace whose controller reference names a CronJob of `batch/v1` of
    /// the key's name, whatever its uid, in order of name. Only these are walked, and none is
    /// copied.
    pub fn owned_by(&self, alloc: Global, key: &Key) -> Result<Listing<Shared<Job>>, Refusal>
        ensures ok { IfOk result (λ l. l ≡ owned_by self.now key.now) }
        ensures memory { IfErr result (λ e. e ≡ OutOfMemory) }
    {
        let owner = Owner::at(alloc, key)?;
        self.index.list(alloc, &self.slots, &owner)
    }

    /// Adds a Job at its key, which is free. Unchanged where there is no memory.
    pub fn add(&mut self, alloc: Global, job: Shared<Job>) -> Result<(), Refusal>
        requires { map.get self.old job.key ≡ None }
        ensures ok { OnOk result (self.new ≡ map.insert self.old job.key job) }
        ensures err { OnErr result (self.new ≡ self.old) }
        ensures memory { IfErr result (λ e. e ≡ OutOfMemory) }
    {
        let (owner, key, shared) = all_three(
            Owner::of(alloc, &job),
            key_of(alloc, &job),
            job.share(),
        )?;
        let slot = self.slots.put(shared)?;
        if let Err(refusal) = self.table.insert(key, slot) {
            self.slots.clear(slot);
            return Err(refusal);
        }
        if let Err(refusal) = self.index.put(alloc, owner, &job.key, slot) {
            self.table.remove(&job.key);
            self.slots.clear(slot);
            return Err(refusal);
        }
        Ok(())
    }

    /// Replaces the Job at its key by one with the same owner references. This takes no memory.
    pub fn replace(&mut self, job: Shared<Job>)
        requires { owners_of self.old job.key ≡ Some job.owners }
        ensures { self.new ≡ map.insert self.old job.key job }
    {
        // The slot is the same, and so is the owner: the table and the index stay as they are.
        match self.table.get(&job.key) {
            Some(slot) => self.slots.set(*slot, job),
            None => unreachable!(),
        }
    }

    /// Removes the Job at the key, if there is one. Unchanged where there is no memory.
    #[tactic(auto, using(crate::proofs::JobsLemmas::Updates::stands, crate::proofs::JobsLemmas::Updates::jobs_removed))]
    pub fn remove(&mut self, alloc: Global, key: &Key) -> Result<(), Refusal>
        ensures ok { OnOk result (self.new ≡ map.remove self.old key.now) }
        ensures err { OnErr result (self.new ≡ self.old) }
        ensures memory { IfErr result (λ e. e ≡ OutOfMemory) }
    {
        let Some(slot) = self.table.get(key).copied() else {
            return Ok(());
        };
        let owner = Owner::standing(alloc, &self.slots, slot)?;
        self.index.take(owner, key);
        self.table.remove(key);
        self.slots.clear(slot);
        Ok(())
    }
}
