ghost use Rattle.std.specs.Prelude.{◌≡◌, ◌++◌, [], None, Some, IfOk, IfErr, IsSome, OnOk, OnErr, option_copied, option_to_list};
ghost use Rattle.cj_base.specs.declared.refusal.Refusal.TheVariants.{OutOfMemory};
ghost use Rattle.cj_table.specs.jobs.Slots.{job_at, Writes};

use crate::jobs::slot::Slot;
use cj_types::{Job, Refusal, Shared};
use slab::Slab;
use std::alloc::Global;
use std::marker::Model;

// Jobs by the number of their slot. Contracts see a map from slots to Jobs.
pub(crate) struct Slots {
    jobs: Slab<Shared<Job>>,
}

impl Model for Slots {
    ghost use Rattle.std.specs.Prelude.{List, Option};
    ghost use Rattle.std.specs.Coded.{coded_list, coded_option};
    ghost use Rattle.cj_types.specs.declared.job.Job.{Job};
    ghost use Rattle.cj_types.specs.contracts.job.Job.{the_row as job};

    ghost Value = { List (Option Job) };

    ghost coded = { coded_list (coded_option job.coded) };

    ghost view = { λ s. s.jobs.slots };
}

impl Drop for Slots {
    fn drop(self) {
        let Slots { jobs } = self;
        drop(jobs);
    }
}

impl Slots {
    // An empty map.
    pub(crate) fn new(alloc: Global) -> Slots
        ensures { result ≡ [] }
    {
        Slots {
            jobs: Slab::new(alloc),
        }
    }

    // The Job in the slot, if there is one.
    pub(crate) fn get(&self, slot: Slot) -> Option<&Shared<Job>>
        ensures { option_copied result ≡ job_at self.now slot }
    {
        self.jobs.get(slot.number())
    }

    // Appends the Job in the slot, if there is one, to those already found.
    pub(crate) fn push_shared(&self, jobs: &mut Vec<Shared<Job>>, slot: Slot) -> Result<(), Refusal>
        ensures ok { OnOk result (
            jobs.new.items ≡ jobs.old.items ++ option_to_list (job_at self.now slot)) }
        ensures memory { IfErr result (λ e. e ≡ OutOfMemory) }
    {
        match self.get(slot) {
            Some(job) => jobs.push(job.share()?).map_err(|_| Refusal::OutOfMemory),
            None => Ok(()),
        }
    }

    // Puts the Job in a free slot. Unchanged where there is no memory.
    pub(crate) fn put(&mut self, job: Shared<Job>) -> Result<Slot, Refusal>
        ensures free { IfOk result (λ slot. job_at self.old slot ≡ None) }
        ensures ok { IfOk result (Writes (Some job) self.old self.new) }
        ensures err { OnErr result (self.new ≡ self.old) }
        ensures memory { IfErr result (λ e. e ≡ OutOfMemory) }
    {
        match self.jobs.insert(job) {
            Ok(number) => Ok(Slot::new(number)),
            Err(_) => Err(Refusal::OutOfMemory),
        }
    }

    // Replaces the Job in the slot. This needs no memory.
    pub(crate) fn set(&mut self, slot: Slot, job: Shared<Job>)
        requires { IsSome (job_at self.old slot) }
        ensures { Writes (Some job) self.old self.new slot }
    {
        if let Some(there) = self.jobs.get_mut(slot.number()) {
            *there = job;
        }
    }

    // Removes the Job from its slot, which is free then. This needs no memory.
    pub(crate) fn clear(&mut self, slot: Slot)
        requires { IsSome (job_at self.old slot) }
        ensures { Writes None self.old self.new slot }
    {
        let _ = self.jobs.try_remove(slot.number());
    }
}
