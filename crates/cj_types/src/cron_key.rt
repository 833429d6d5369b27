ghost use Rattle.std.specs.Prelude.{◌≡◌, ◌≢◌, IfOk, IfErr, IsTrue, Ok, Err};
ghost use Rattle.cj_types.specs.Names.{longest_cron};
ghost use Rattle.cj_types.specs.Keys.{new_key, is_place};
ghost use Rattle.cj_base.specs.declared.refusal.Refusal.TheVariants.{OutOfMemory};

use crate::Key;
use crate::key::key_faults;
use cj_base::{Refusal, Same, TryCopy};
use std::alloc::Global;
use std::marker::Model;

/// The key of a CronJob, whose name has at most 52 characters, so that the names of its Jobs have
/// at most 63.
///
/// Contracts see what they see of its `Key`.
#[derive(Debug)]
pub struct CronKey {
    key: Key,
}

impl Drop for CronKey {
    fn drop(self) {
        let CronKey { key } = self;
        drop(key);
    }
}

impl Model for CronKey {
    ghost use Rattle.std.specs.Prelude.{IsTrue};
    ghost use Rattle.cj_types.specs.Names.{longest_cron};
    ghost use Rattle.cj_types.specs.Keys.{Place, coded_place, is_place};

    ghost Value = { Place };

    ghost coded = { coded_place };

    ghost view = { λ k. k.key };

    ghost invariant = { λ k. IsTrue (is_place longest_cron k.key) };
}

impl CronKey {
    /// The key of these texts, or `Invalid` with the faults of `metadata.name` and
    /// `metadata.namespace`, in this order: `TooLong` for a name of more than 52 or a namespace of
    /// more than 63 characters, else `Format`.
    pub fn new(alloc: Global, namespace: &str, name: &str) -> Result<CronKey, Refusal>
        ensures ok { IfOk result (λ k. new_key longest_cron namespace.now name.now ≡ Ok k) }
        ensures err { IfErr result (λ e. e ≢ OutOfMemory →
            new_key longest_cron namespace.now name.now ≡ Err e) }
    {
        let faults = key_faults(alloc, 52, namespace, name)?;
        if !faults.as_slice().is_empty() {
            return Err(Refusal::Invalid(faults));
        }
        Ok(CronKey {
            key: Key::new(alloc, namespace, name)?,
        })
    }

    /// The key.
    pub fn key(&self) -> &Key
        ensures value { result.now ≡ self.now }
        ensures short { IsTrue (is_place longest_cron self.now) }
    {
        &self.key
    }
}

impl TryCopy for CronKey {
    fn try_copy(&self, alloc: Global) -> Result<CronKey, Refusal> {
        Ok(CronKey {
            key: self.key.try_copy(alloc)?,
        })
    }
}

impl Same for CronKey {
    fn same(&self, other: &CronKey) -> bool {
        self.key.same(&other.key)
    }
}
