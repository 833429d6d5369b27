ghost use Rattle.std.specs.Prelude.{◌≡◌, ◌≤◌, ◌<◌, ◌+◌, length, IfErr, IfOk, OnOk, OnErr, IsTrue, option_copied};
ghost use Rattle.cj_base.specs.declared.refusal.Refusal.TheVariants.{OutOfMemory};
ghost use Rattle.cj_queue.specs.Queue.{new_row, row_add, row_take, row_end, first, has};

use crate::line::Line;
use crate::secret::Secret;
use crate::stage::{Stage, hold, note_add, release};
use cj_types::{Key, Refusal, TryCopy};
use indexmap::IndexMap;
use std::alloc::Global;
use std::marker::Model;

/// The dirty keys, and the keys that are being worked on.
///
/// `reserve` makes room for adds, so that they can't fail. Contracts see the line, the dirty keys
/// and those that are being worked on, and for how many adds there is room.
pub struct Work {
    // The dirty keys that nobody works on.
    line: Line,
    // The keys that are being worked on.
    busy: IndexMap<Key, Stage, Secret>,
}

impl Drop for Work {
    fn drop(self) {
        let Work { line: _, busy: _ } = self;
    }
}

impl Model for Work {
    ghost use Rattle.cj_queue.specs.Parts.{Work, work_code, row_of, IsFree};

    ghost Value = { Work };

    ghost coded = { work_code };

    ghost view = { λ w. record { row = row_of w.line.keys w.busy.entries; room = w.line.room } };

    ghost invariant = { λ w. IsFree w.line.keys w.busy.entries };
}

impl Work {
    /// No dirty key, and none that is being worked on.
    pub fn new(alloc: Global, secret: Secret) -> Work
        ensures { result.row ≡ new_row }
    {
        Work {
            line: Line::new(alloc, secret),
            busy: IndexMap::with_hasher(alloc, secret),
        }
    }

    /// Reserves room for `count` adds.
    pub fn reserve(&mut self, count: usize) -> Result<(), Refusal>
        ensures row { self.new.row ≡ self.old.row }
        ensures ok { OnOk result (count ≤ self.new.room) }
        ensures memory { IfErr result (λ e. e ≡ OutOfMemory) }
    {
        self.line.reserve(count)
    }

    /// Marks the key as dirty, and appends it to the line unless it was dirty or is being worked
    /// on.
    pub fn add(&mut self, key: Key)
        requires room { 0 < self.old.room }
        ensures row { self.new.row ≡ row_add self.old.row key }
        ensures room { self.old.room ≤ self.new.room + 1 }
    {
        if !note_add(&mut self.busy, &key) {
            self.line.add(key).unwrap();
        }
    }

    /// Adds the key, with the memory that it needs.
    pub fn add_key(&mut self, alloc: Global, key: &Key) -> Result<(), Refusal>
        ensures ok { OnOk result (self.new.row ≡ row_add self.old.row key.now) }
        ensures err { OnErr result (self.new.row ≡ self.old.row) }
        ensures memory { IfErr result (λ e. e ≡ OutOfMemory) }
    {
        if note_add(&mut self.busy, key) {
            return Ok(());
        }
        let copy = key.try_copy(alloc)?;
        self.line.add(copy)
    }

    /// How many keys are in the line.
    pub fn len(&self) -> usize
        ensures { result ≡ length self.now.row.line }
    {
        self.line.len()
    }

    /// The first key of the line.
    pub fn front(&self) -> Option<&Key>
        ensures { option_copied result ≡ first self.now.row.line }
    {
        self.line.first()
    }

    /// Moves the first key of the line to those that are being worked on, and answers a copy.
    pub fn take(&mut self, alloc: Global) -> Result<Option<Key>, Refusal>
        ensures answer { IfOk result (λ k. k ≡ first self.old.row.line) }
        ensures ok { OnOk result (self.new.row ≡ row_take self.old.row) }
        ensures err { OnErr result (self.new.row ≡ self.old.row) }
        ensures memory { IfErr result (λ e. e ≡ OutOfMemory) }
    {
        let Some(first) = self.line.first() else {
            return Ok(None);
        };
        let copy = first.try_copy(alloc)?;
        self.busy.reserve(1)?;
        let Some(key) = self.line.pop() else {
            return Ok(None);
        };
        hold(&mut self.busy, key);
        Ok(Some(copy))
    }

    /// Whether the key is being worked on.
    pub fn is_processing(&self, key: &Key) -> bool
        ensures { result ≡ has self.now.row.processing key.now }
    {
        self.busy.contains_key(key)
    }

    /// Ends the work on a key, and appends it to the line if it is dirty.
    pub fn end(&mut self, key: &Key)
        requires room { 0 < self.old.room }
        requires held { IsTrue (has self.old.row.processing key.now) }
        ensures row { self.new.row ≡ row_end self.old.row key.now }
        ensures room { self.old.room ≤ self.new.room + 1 }
    {
        if let Some(again) = release(&mut self.busy, key) {
            self.line.add(again).unwrap();
        }
    }
}
