// The objects of a list that came before.
ghost use Rattle.std.specs.Prelude.{◌≡◌, IfOk, OnOk, [], not};
ghost use Rattle.std.specs.BTreeSet.{contains, insert_key};
ghost use Rattle.cj_types.specs.Keys.{place_cmp};
ghost use Rattle.cj_check.specs.Seen.{AddsKey, IsNoneSeen, is_taken};

use cj_base::{Refusal, TryCopy};
use cj_manifest::Manifest;
use cj_types::Key;
use std::alloc::Global;
use std::collections::BTreeSet;

/// The keys of the objects of each kind.
#[derive(Drop)]
pub(crate) struct SeenKeys {
    pub crons: BTreeSet<Key>,
    pub runs: BTreeSet<Key>,
}

// The keys with one more; whether it wasn't there.
fn insert(keys: &mut BTreeSet<Key>, key: Key) -> Result<bool, Refusal>
    ensures free { IfOk result (λ free. free ≡ not (contains place_cmp keys.old key)) }
    ensures keys { OnOk result (keys.new.keys ≡ insert_key place_cmp keys.old.keys key) }
{
    match keys.insert(key) {
        Ok(free) => Ok(free),
        Err(_) => Err(Refusal::OutOfMemory),
    }
}

impl SeenKeys {
    /// The keys before the first object: none of either kind.
    pub(crate) fn new(alloc: Global) -> SeenKeys
        ensures { IsNoneSeen result }
    {
        SeenKeys {
            crons: BTreeSet::new(alloc),
            runs: BTreeSet::new(alloc),
        }
    }

    /// These and one more; whether none of its kind has its key.
    pub(crate) fn add(&mut self, alloc: Global, manifest: &Manifest) -> Result<bool, Refusal>
        ensures free { IfOk result (λ free. free ≡ not (is_taken manifest.now self.old)) }
        ensures adds { OnOk result (AddsKey manifest.now self.old self.new) }
    {
        let key = manifest.key().try_copy(alloc)?;
        match manifest {
            Manifest::CronJob(_) => insert(&mut self.crons, key),
            Manifest::Job(_) => insert(&mut self.runs, key),
        }
    }
}
