ghost use Rattle.std.specs.Prelude.{◌≡◌, IfErr, OnOk, OnErr, unwrap_or};
ghost use Rattle.std.specs.FinMap as map;
ghost use Rattle.cj_base.specs.declared.refusal.Refusal.TheVariants.{OutOfMemory};
ghost use Rattle.cj_queue.specs.Parts.{IsPutBack};

use cj_types::{Key, Refusal, TryCopy};
use std::alloc::Global;
use std::collections::BTreeMap;
use std::marker::Model;

/// The number of failures in a row of each key. Contracts see the counts.
pub struct Failures {
    counts: BTreeMap<Key, u64>,
}

impl Drop for Failures {
    fn drop(self) {
        let Failures { counts: _ } = self;
    }
}

impl Model for Failures {
    ghost use Rattle.std.specs.FinMap as map;
    ghost use Rattle.std.specs.Coded.{coded_ℕ};
    ghost use Rattle.cj_types.specs.Keys.{coded_place};
    ghost use Rattle.cj_queue.specs.Parts.{Counts};

    ghost Value = { Counts };

    ghost coded = { map.code coded_place coded_ℕ };

    ghost view = { λ f. map.from_entries f.counts.entries };
}

impl Failures {
    /// No counts.
    pub fn new(alloc: Global) -> Failures
        ensures { result ≡ map.empty }
    {
        Failures {
            counts: BTreeMap::new(alloc),
        }
    }

    /// The key's count, 0 where none is kept.
    pub fn get(&self, key: &Key) -> u64
        ensures { result ≡ unwrap_or (map.get self.now key.now) 0 }
    {
        self.kept(key).unwrap_or(0)
    }

    /// The count that is kept of the key.
    #[tactic(auto, using(cj_table::proofs::Rows::found_at))]
    pub fn kept(&self, key: &Key) -> Option<u64>
        ensures { result ≡ map.get self.now key.now }
    {
        self.counts.get(key).copied()
    }

    /// Sets the key's count, with the memory that it needs.
    pub fn put(&mut self, alloc: Global, key: &Key, count: u64) -> Result<(), Refusal>
        ensures ok { OnOk result (self.new ≡ map.insert self.old key.now count) }
        ensures err { OnErr result (self.new ≡ self.old) }
        ensures memory { IfErr result (λ e. e ≡ OutOfMemory) }
    {
        let copy = key.try_copy(alloc)?;
        if self.counts.insert(copy, count).is_err() {
            return Err(Refusal::OutOfMemory);
        }
        Ok(())
    }

    /// Undoes a put: sets the key's count to what it was before, or removes it.
    pub fn put_back(&mut self, key: &Key, before: Option<u64>)
        ensures { IsPutBack self.old self.new key.now before }
    {
        let Some(count) = before else {
            let _ = self.counts.remove(key);
            return;
        };
        let Some(kept) = self.counts.get_mut(key) else {
            return;
        };
        *kept = count;
    }

    /// Removes the key's count.
    #[tactic(auto, using(cj_table::proofs::Rows::removed_at))]
    pub fn remove(&mut self, key: &Key)
        ensures { self.new ≡ map.remove self.old key.now }
    {
        let _ = self.counts.remove(key);
    }
}
