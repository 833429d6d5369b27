ghost use Rattle.std.specs.Prelude.{◌≡◌, ◌≤◌, ◌<◌, ◌+◌, ◌++◌, [], length, reverse, option_copied, option_to_list, IfErr, IsOk, OnOk, OnErr};
ghost use Rattle.cj_base.specs.declared.refusal.Refusal.TheVariants.{OutOfMemory};
ghost use Rattle.cj_queue.specs.Queue.{first};
ghost use Rattle.cj_queue.specs.Parts.{stands_in, with_last};

use crate::secret::Secret;
use cj_types::{Key, Refusal};
use indexmap::IndexSet;
use std::alloc::Global;
use std::marker::Model;
use std::mem;

/// Keys in line: each is added once, at the end, and the first is taken.
///
/// `reserve` makes room for adds, so that they can't fail. Contracts see the keys, and for how many
/// adds there is room.
pub struct Line {
    // The older keys, of which the first is the last here.
    front: IndexSet<Key, Secret>,
    // Those that came since `front` was filled, in their order.
    back: IndexSet<Key, Secret>,
}

impl Drop for Line {
    fn drop(self) {
        let Line { front: _, back: _ } = self;
    }
}

impl Model for Line {
    ghost use Rattle.indexmap.specs.IndexSet.{spare};
    ghost use Rattle.cj_queue.specs.Parts.{Line, line_code, line_of};

    ghost Value = { Line };

    ghost coded = { line_code };

    ghost view = { λ l. record { keys = line_of l.front.keys l.back.keys; room = spare l.back } };
}

impl Line {
    /// No key.
    pub fn new(alloc: Global, secret: Secret) -> Line
        ensures { result.keys ≡ [] }
    {
        Line {
            front: IndexSet::with_hasher(alloc, secret),
            back: IndexSet::with_hasher(alloc, secret),
        }
    }

    /// How many keys are in line.
    pub fn len(&self) -> usize
        ensures { result ≡ length self.now.keys }
    {
        self.front.len() + self.back.len()
    }

    /// Reserves room for `count` adds.
    pub fn reserve(&mut self, count: usize) -> Result<(), Refusal>
        ensures keys { self.new.keys ≡ self.old.keys }
        ensures ok { OnOk result (count ≤ self.new.room) }
        ensures memory { IfErr result (λ e. e ≡ OutOfMemory) }
    {
        self.back.reserve(count)?;
        Ok(())
    }

    /// Puts the key last, unless it is in line.
    pub fn add(&mut self, key: Key) -> Result<(), Refusal>
        ensures ok { OnOk result (self.new.keys ≡ with_last self.old.keys key) }
        ensures err { OnErr result (self.new.keys ≡ self.old.keys) }
        ensures memory { IfErr result (λ e. e ≡ OutOfMemory) }
        ensures succeeds { 0 < self.old.room → IsOk result }
        ensures room { self.old.room ≤ self.new.room + 1 }
    {
        if has(&self.front, &key) {
            return Ok(());
        }
        if self.back.insert(key).is_err() {
            return Err(Refusal::OutOfMemory);
        }
        Ok(())
    }

    /// The first key.
    pub fn first(&self) -> Option<&Key>
        ensures { option_copied result ≡ first self.now.keys }
    {
        match self.front.last() {
            Some(key) => Some(key),
            None => self.back.first(),
        }
    }

    /// Takes the first key.
    pub fn pop(&mut self) -> Option<Key>
        ensures key { result ≡ first self.old.keys }
        ensures keys { option_to_list result ++ self.new.keys ≡ self.old.keys }
    {
        turn(&mut self.front, &mut self.back);
        self.front.pop()
    }
}

// Whether the key is in the set. Where there is none nothing is hashed.
fn has(set: &IndexSet<Key, Secret>, key: &Key) -> bool
    ensures { result ≡ stands_in set.now.keys key.now }
{
    if set.is_empty() {
        return false;
    }
    set.contains(key)
}

// Where no older key is left, those that came since are the older ones.
fn turn(front: &mut IndexSet<Key, Secret>, back: &mut IndexSet<Key, Secret>)
    ensures same { reverse front.new.keys ++ back.new.keys
        ≡ reverse front.old.keys ++ back.old.keys }
    ensures filled { front.new.keys ≡ [] → back.new.keys ≡ [] }
{
    if front.is_empty() {
        mem::swap(front, back);
        front.reverse();
    }
}
