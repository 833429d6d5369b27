// The keys of the objects of one CronJob.
ghost use Rattle.std.specs.Prelude.{◌≡◌, IfErr, IsTrue, OnErr, OnOk};
ghost use Rattle.std.specs.FinMap as map;
ghost use Rattle.cj_base.specs.declared.refusal.Refusal.TheVariants.{OutOfMemory};

use cj_base::{Refusal, TryCopy};
use cj_types::Key;
use std::alloc::Global;
use std::collections::BTreeMap;
use std::marker::Model;

/// A set of keys, in their order.
#[derive(Drop)]
pub(crate) struct OwnKeys {
    rows: BTreeMap<Key, ()>,
}

impl Model for OwnKeys {
    ghost use Rattle.std.specs.FinMap as map;
    ghost use Rattle.std.specs.FinSet as set;
    ghost use Rattle.cj_types.specs.Keys.{place_cmp, coded_place};

    ghost Value = { set.FinSet place_cmp };

    ghost coded = { set.code coded_place };

    ghost view = { λ o. map.from_entries o.rows.entries };
}

impl OwnKeys {
    pub(crate) fn new(alloc: Global) -> OwnKeys
        ensures { result ≡ map.empty }
    {
        OwnKeys {
            rows: BTreeMap::new(alloc),
        }
    }

    #[tactic(auto, using(cj_table::proofs::Rows::none_listed))]
    pub(crate) fn is_empty(&self) -> bool
        ensures { IsTrue result → self.now ≡ map.empty }
    {
        self.rows.is_empty()
    }

    #[tactic(auto, using(cj_table::proofs::Rows::inserted_at))]
    pub(crate) fn insert(&mut self, key: Key) -> Result<(), Refusal>
        ensures ok { OnOk result (self.new ≡ map.insert self.old key tt) }
        ensures err { OnErr result (self.new ≡ self.old) }
        ensures memory { IfErr result (λ e. e ≡ OutOfMemory) }
    {
        match self.rows.insert(key, ()) {
            Ok(_) => Ok(()),
            Err(_) => Err(Refusal::OutOfMemory),
        }
    }

    #[tactic(auto, using(cj_table::proofs::Rows::removed_at))]
    pub(crate) fn remove(&mut self, key: &Key)
        ensures { self.new ≡ map.remove self.old key.now }
    {
        self.rows.remove(key);
    }

    /// Copies of the keys.
    pub(crate) fn list(&self, alloc: Global) -> Result<Vec<Key>, Refusal>
        ensures memory { IfErr result (λ e. e ≡ OutOfMemory) }
    {
        let mut keys = Vec::new(alloc);
        for key in self.rows.keys() {
            keys.push(key.try_copy(alloc)?)
                .map_err(|_| Refusal::OutOfMemory)?;
        }
        Ok(keys)
    }
}
