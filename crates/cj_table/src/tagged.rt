ghost use Rattle.std.specs.Prelude.{◌≡◌, refl};
ghost use Rattle.std.specs.Cmp.{partial_equiv_from_equiv, eq_by_cmp_equiv, partial_order_from_total};
ghost use Rattle.std.specs.BTreeMap.Comparable.{le_lt_trans};
ghost use Rattle.std.specs.Ordering.{as_partial_cmp, eq_by_cmp};
ghost use Rattle.cj_table.specs.Tags.{hash_of, tag, tag_cmp, tag_total, hash_cmp, hash_total};

use cj_types::Key;
use std::cmp::Ordering;
use std::collections::btree_map::Comparable;
use std::hash::{FoldHasher, Hash, Hasher};
use std::marker::Model;

// The hash of the key.
#[tactic(auto, unfolding(crate::specs::Tags::hash_of))]
fn hash_of(key: &Key) -> u64
    ensures { result ≡ hash_of key.now }
{
    let mut hasher = FoldHasher::default();
    key.hash(&mut hasher);
    hasher.finish()
}

/// A key with its hash, by which it is compared first. Most comparisons read no text, and keys that
/// were chosen to share a hash are still ordered. Contracts see the key.
#[derive(Drop)]
pub struct Tagged {
    hash: u64,
    key: Key,
}

impl Model for Tagged {
    ghost use Rattle.std.specs.Prelude.{◌≡◌};
    ghost use Rattle.cj_types.specs.Keys.{Place, coded_place};
    ghost use Rattle.cj_table.specs.Tags.{hash_of};

    ghost Value = { Place };

    ghost coded = { coded_place };

    ghost view = { λ t. t.key };

    ghost invariant = { λ t. t.hash ≡ hash_of t.key };
}

impl Tagged {
    /// The key with its hash.
    pub fn new(key: Key) -> Tagged
        ensures { result ≡ key }
    {
        Tagged {
            hash: hash_of(&key),
            key,
        }
    }

    /// The key without its hash.
    pub fn into_key(self) -> Key
        ensures { result ≡ self }
    {
        let Tagged { hash: _, key } = self;
        key
    }

    // The key.
    pub(crate) fn key(&self) -> &Key
        ensures { result.now ≡ self.now }
    {
        &self.key
    }
}

// The order of two keys with their hashes.
fn order(hash: u64, key: &Key, other_hash: u64, other: &Key) -> Ordering
    ensures { result ≡ tag_cmp (hash, key.now) (other_hash, other.now) }
{
    match hash.cmp(&other_hash) {
        Ordering::Equal => key.cmp(other),
        unequal => unequal,
    }
}

impl PartialEq for Tagged {
    ghost eq = { eq_by_cmp hash_cmp };

    ghost laws = { partial_equiv_from_equiv (eq_by_cmp_equiv hash_total) };

    fn eq(&self, other: &Tagged) -> bool {
        matches!(self.cmp(other), Ordering::Equal)
    }
}

impl Eq for Tagged {
    ghost laws = { eq_by_cmp_equiv hash_total };
}

impl Ord for Tagged {
    ghost cmp = { hash_cmp };

    ghost total = { hash_total };

    ghost matches_partial_cmp = { λ x y. refl };

    ghost matches_eq = { λ x y. refl };

    fn cmp(&self, other: &Tagged) -> Ordering {
        order(self.hash, &self.key, other.hash, &other.key)
    }
}

impl PartialOrd for Tagged {
    ghost partial_cmp = { as_partial_cmp hash_cmp };

    ghost laws = { partial_order_from_total hash_total };

    fn partial_cmp(&self, other: &Tagged) -> Option<Ordering> {
        Some(self.cmp(other))
    }
}

// A key to search for, with its hash.
#[derive(Clone, Copy)]
pub(crate) struct Probe<'a> {
    hash: u64,
    key: &'a Key,
}

impl<'a> Probe<'a> {
    ghost use Rattle.cj_table.specs.Tags.{hash_of};

    // A search for the key.
    pub(crate) fn new(key: &'a Key) -> Probe<'a>
        ensures hash { result.hash ≡ hash_of key.now }
        ensures key { result.key.now ≡ key.now }
    {
        Probe {
            hash: hash_of(key),
            key,
        }
    }
}

impl<'a> Comparable<Tagged> for Probe<'a> {
    ghost compare = { λ p k. tag_cmp (p.hash, p.key.now) (tag k) };

    ghost respects_cmp = { λ p x y. tag_total.congr (p.hash, p.key.now) (tag x) (tag y) };

    ghost below_greater = { λ p x y. le_lt_trans tag_total (p.hash, p.key.now) (tag x) (tag y) };

    fn compare(&self, key: &Tagged) -> Ordering {
        order(self.hash, self.key, key.hash, &key.key)
    }
}
