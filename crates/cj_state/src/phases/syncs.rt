ghost use Rattle.std.specs.Prelude.{◌≡◌, ◌↔◌, IsTrue, IfErr, OnOk, OnErr, IsSome, option_copied};
ghost use Rattle.std.specs.FinMap as map;
ghost use Rattle.cj_base.specs.declared.refusal.Refusal.TheVariants.{OutOfMemory};

use crate::phases::InFlight;
use cj_types::Refusal;
use std::alloc::Global;
use std::collections::BTreeMap;
use std::marker::Model;

/// The syncs in flight, by their worker's number. Contracts see a finite map.
pub struct InFlightSyncs {
    rows: BTreeMap<u64, InFlight>,
}

impl Model for InFlightSyncs {
    ghost use Rattle.std.specs.Ordering.{nat_cmp};
    ghost use Rattle.std.specs.FinMap as map;
    ghost use Rattle.std.specs.Coded.{coded_ℕ};
    ghost use Rattle.cj_state.specs.declared.phases.sync.InFlight.{InFlight};
    ghost use Rattle.cj_state.specs.contracts.phases.sync.InFlight.{the_row as sync};

    ghost Value = { map.FinMap nat_cmp InFlight };

    ghost coded = { map.code coded_ℕ sync.coded };

    ghost view = { λ s. map.from_entries s.rows.entries };
}

impl Drop for InFlightSyncs {
    fn drop(self) {
        let InFlightSyncs { rows: _ } = self;
    }
}

impl InFlightSyncs {
    /// No worker holds a key.
    pub fn new(alloc: Global) -> InFlightSyncs
        ensures { result ≡ map.empty }
    {
        InFlightSyncs {
            rows: BTreeMap::new(alloc),
        }
    }

    /// Whether no worker holds a key.
    pub fn is_empty(&self) -> bool
        ensures { IsTrue result ↔ (self.now ≡ map.empty) }
    {
        self.rows.is_empty()
    }

    /// The worker's sync, if it holds a key.
    #[tactic(auto, using(crate::proofs::PhasesLemmas::Tables::get_is))]
    pub fn get(&self, worker: u64) -> Option<&InFlight>
        ensures { option_copied result ≡ map.get self.now worker }
    {
        self.rows.get(&worker)
    }

    /// Gives the worker a sync; unchanged where there is no memory.
    #[tactic(auto, using(crate::proofs::PhasesLemmas::Tables::inserted, crate::proofs::PhasesLemmas::Tables::get_is))]
    pub fn insert(&mut self, worker: u64, sync: InFlight) -> Result<(), Refusal>
        ensures ok { OnOk result (self.new ≡ map.insert self.old worker sync) }
        ensures err { OnErr result (self.new ≡ self.old) }
        ensures memory { IfErr result (λ e. e ≡ OutOfMemory) }
    {
        match self.rows.insert(worker, sync) {
            Ok(_) => Ok(()),
            Err(_) => Err(Refusal::OutOfMemory),
        }
    }

    /// Puts another sync in place of the worker's, which takes no memory.
    pub fn replace(&mut self, worker: u64, sync: InFlight)
        requires { IsSome (map.get self.old worker) }
        ensures { self.new ≡ map.insert self.old worker sync }
    {
        let _ = self.rows.insert(worker, sync);
    }

    /// Takes the worker's sync away.
    #[tactic(auto, using(crate::proofs::PhasesLemmas::Tables::removed))]
    pub fn remove(&mut self, worker: u64)
        ensures { self.new ≡ map.remove self.old worker }
    {
        let _ = self.rows.remove(&worker);
    }
}
