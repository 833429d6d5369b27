// For each CronJob the keys of its objects.
ghost use Rattle.std.specs.Prelude.{◌≡◌, IfErr};
ghost use Rattle.std.specs.FinMap as map;
ghost use Rattle.cj_base.specs.declared.refusal.Refusal.TheVariants.{OutOfMemory};

use crate::mirror::own_keys::OwnKeys;
use cj_base::{Refusal, TryCopy};
use cj_types::Key;
use std::alloc::Global;
use std::collections::BTreeMap;
use std::marker::Model;

/// For each CronJob that has objects, their keys.
#[derive(Drop)]
pub(crate) struct ByCron {
    rows: BTreeMap<Key, OwnKeys>,
}

impl Model for ByCron {
    ghost use Rattle.std.specs.FinMap as map;
    ghost use Rattle.std.specs.FinSet as set;
    ghost use Rattle.cj_types.specs.Keys.{place_cmp, coded_place};

    ghost Value = { map.FinMap place_cmp (set.FinSet place_cmp) };

    ghost coded = { map.code coded_place (set.code coded_place) };

    ghost view = { λ b. map.from_entries b.rows.entries };
}

impl ByCron {
    pub(crate) fn new(alloc: Global) -> ByCron
        ensures { result ≡ map.empty }
    {
        ByCron {
            rows: BTreeMap::new(alloc),
        }
    }

    /// The keys under a CronJob.
    pub(crate) fn list(&self, alloc: Global, cron: &Key) -> Result<Vec<Key>, Refusal>
        ensures memory { IfErr result (λ e. e ≡ OutOfMemory) }
    {
        match self.rows.get(cron) {
            Some(own) => own.list(alloc),
            None => Ok(Vec::new(alloc)),
        }
    }

    /// Appends each CronJob that has objects.
    pub(crate) fn add_crons(&self, alloc: Global, crons: &mut Vec<Key>) -> Result<(), Refusal>
        ensures memory { IfErr result (λ e. e ≡ OutOfMemory) }
    {
        for cron in self.rows.keys() {
            crons
                .push(cron.try_copy(alloc)?)
                .map_err(|_| Refusal::OutOfMemory)?;
        }
        Ok(())
    }

    /// Puts the key under the CronJob.
    pub(crate) fn put(&mut self, alloc: Global, cron: &Key, key: Key) -> Result<(), Refusal>
        ensures memory { IfErr result (λ e. e ≡ OutOfMemory) }
    {
        if let Some(own) = self.rows.get_mut(cron) {
            return own.insert(key);
        }
        let cron = cron.try_copy(alloc)?;
        let mut own = OwnKeys::new(alloc);
        own.insert(key)?;
        match self.rows.insert(cron, own) {
            Ok(_) => Ok(()),
            Err(_) => Err(Refusal::OutOfMemory),
        }
    }

    /// Takes the key from under the CronJob, and with its last key the CronJob.
    pub(crate) fn take(&mut self, cron: &Key, key: &Key) {
        let Some(own) = self.rows.get_mut(cron) else {
            return;
        };
        own.remove(key);
        if own.is_empty() {
            self.rows.remove(cron);
        }
    }
}
