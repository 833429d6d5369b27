ghost use Rattle.std.specs.Prelude.{◌≡◌, IfOk, IfErr, OnOk, OnErr, IsOk, IsSome, is_some, option_copied};
ghost use Rattle.std.specs.FinMap as map;
ghost use Rattle.cj_base.specs.declared.refusal.Refusal.TheVariants.{OutOfMemory};

use crate::in_order::ordered_rows;
use crate::tagged::{Probe, Tagged};
use cj_types::{Key, Refusal, TryCopy};
use std::alloc::Global;
use std::collections::BTreeMap;
use std::marker::Model;

/// A map from keys to values. Entries are sorted by the hash of their key, and those of one hash by
/// key: a search compares few numbers, and nobody can choose names that are slow to find. Listings
/// are in the order of keys. Contracts see a finite map.
#[derive(Drop)]
pub struct Table<X> {
    rows: BTreeMap<Tagged, X>,
}

impl<X> Model for Table<X> {
    ghost use Rattle.std.specs.FinMap as map;
    ghost use Rattle.cj_types.specs.Keys.{place_cmp, coded_place};

    ghost Value = { map.FinMap place_cmp X };

    ghost coded = { map.code coded_place X.code };

    ghost view = { λ t. map.from_entries t.rows.entries };
}

impl<X> Table<X> {
    /// An empty table.
    pub fn new(alloc: Global) -> Table<X>
        ensures { result ≡ map.empty }
    {
        Table {
            rows: BTreeMap::new(alloc),
        }
    }

    /// The value at the key.
    #[tactic(auto, using(crate::proofs::Rows::found_row))]
    pub fn get(&self, key: &Key) -> Option<&X>
        ensures { option_copied result ≡ map.get self.now key.now }
    {
        self.rows.get(Probe::new(key))
    }

    /// Whether there is a value at the key.
    pub fn contains(&self, key: &Key) -> bool
        ensures { result ≡ is_some (map.get self.now key.now) }
    {
        self.get(key).is_some()
    }
}

impl<X: Drop> Table<X> {
    /// Sets the value at the key, replacing any earlier one. Unchanged where there is no memory;
    /// replacing needs none.
    #[tactic(auto, using(crate::proofs::Rows::put_row, crate::proofs::Rows::found_row))]
    pub fn insert(&mut self, key: Key, value: X) -> Result<(), Refusal>
        ensures ok { OnOk result (self.new ≡ map.insert self.old key value) }
        ensures err { OnErr result (self.new ≡ self.old) }
        ensures memory { IfErr result (λ e. e ≡ OutOfMemory) }
        ensures present { IsSome (map.get self.old key) → IsOk result }
    {
        match self.rows.insert(Tagged::new(key), value) {
            Ok(_) => Ok(()),
            Err(_) => Err(Refusal::OutOfMemory),
        }
    }

    /// Removes the key and its value, if they are there.
    #[tactic(auto, using(crate::proofs::Rows::gone_row))]
    pub fn remove(&mut self, key: &Key)
        ensures { self.new ≡ map.remove self.old key.now }
    {
        self.rows.remove(Probe::new(key));
    }
}

impl<X: TryCopy + Drop> Table<X> {
    /// Copies of the values in the order of their keys.
    pub fn list(&self, alloc: Global) -> Result<Vec<X>, Refusal>
        ensures ok { IfOk result (λ v. v.items ≡ map.values self.now) }
        ensures memory { IfErr result (λ e. e ≡ OutOfMemory) }
    {
        let rows = ordered_rows(alloc, &self.rows)?;
        let mut values = Vec::new(alloc);
        for (_, value) in &rows {
            values
                .push(value.try_copy(alloc)?)
                .map_err(|_| Refusal::OutOfMemory)?;
        }
        Ok(values)
    }
}
