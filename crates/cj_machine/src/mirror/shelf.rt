// The objects of one kind, by key.
ghost use Rattle.std.specs.Prelude.{◌≡◌, IfErr, IfOk, OnErr, OnOk, option_map};
ghost use Rattle.std.specs.FinMap as map;
ghost use Rattle.cj_base.specs.declared.refusal.Refusal.TheVariants.{OutOfMemory};
ghost use Rattle.cj_machine.specs.Mirror.{cron_at, no_rows, text_of};

use crate::mirror::by_cron::ByCron;
use crate::mirror::entry::Entry;
use cj_base::{Refusal, TryCopy};
use cj_table::Table;
use cj_types::Key;
use std::alloc::Global;
use std::marker::Model;

/// The objects of one kind by their keys, with an index that has under each CronJob its objects.
pub(crate) struct Shelf {
    rows: Table<Entry>,
    index: ByCron,
    count: u64,
}

impl Model for Shelf {
    ghost use Rattle.std.specs.FinMap as map;
    ghost use Rattle.cj_types.specs.Keys.{place_cmp, coded_place};
    ghost use Rattle.cj_machine.specs.declared.mirror.entry.Entry.{Entry};
    ghost use Rattle.cj_machine.specs.contracts.mirror.entry.Entry.{the_row as entry};

    ghost Value = { map.FinMap place_cmp Entry };

    ghost coded = { map.code coded_place entry.coded };

    ghost view = { λ s. s.rows };
}

impl Drop for Shelf {
    fn drop(self) {
        let Shelf {
            rows,
            index,
            count: _,
        } = self;
        drop(rows);
        drop(index);
    }
}

// Whether the CronJob is this one.
fn is_this(cron: &Option<Key>, other: &Key) -> bool {
    match cron {
        Some(cron) => cron == other,
        None => false,
    }
}

// Whether the object at the key is of the CronJob.
fn is_of(rows: &Table<Entry>, key: &Key, cron: &Key) -> bool {
    match rows.get(key) {
        Some(entry) => is_this(&entry.cron, cron),
        None => false,
    }
}

// Of these keys, those of the CronJob's objects.
fn those_of(
    alloc: Global,
    rows: &Table<Entry>,
    keys: Vec<Key>,
    cron: &Key,
) -> Result<Vec<Key>, Refusal>
    ensures err { IfErr result (λ e. e ≡ OutOfMemory) }
{
    let mut those = Vec::new(alloc);
    for key in keys {
        if is_of(rows, &key, cron) {
            those.push(key).map_err(|_| Refusal::OutOfMemory)?;
        }
    }
    Ok(those)
}

// A copy of the CronJob of the object at the key, where there are both.
fn cron_in(alloc: Global, rows: &Table<Entry>, key: &Key) -> Result<Option<Key>, Refusal>
    ensures ok { IfOk result (λ o. o ≡ cron_at rows.now key.now) }
    ensures err { IfErr result (λ e. e ≡ OutOfMemory) }
{
    let Some(entry) = rows.get(key) else {
        return Ok(None);
    };
    entry.cron.try_copy(alloc)
}

// Puts the key under the CronJob, if one is given.
fn point(alloc: Global, index: &mut ByCron, cron: &Option<Key>, key: &Key) -> Result<(), Refusal>
    ensures memory { IfErr result (λ e. e ≡ OutOfMemory) }
{
    match cron {
        Some(cron) => index.put(alloc, cron, key.try_copy(alloc)?),
        None => Ok(()),
    }
}

// Takes the key from under the CronJob, unless the object there is the CronJob's.
fn unpoint(index: &mut ByCron, rows: &Table<Entry>, cron: &Option<Key>, key: &Key) {
    let Some(cron) = cron else {
        return;
    };
    if !is_of(rows, key, cron) {
        index.take(cron, key);
    }
}

// How many there are after one was put.
fn count_after(count: u64, is_new: bool) -> u64 {
    if is_new {
        count.saturating_add(1)
    } else {
        count
    }
}

impl Shelf {
    pub(crate) fn new(alloc: Global) -> Shelf
        ensures { result ≡ no_rows }
    {
        Shelf {
            rows: Table::new(alloc),
            index: ByCron::new(alloc),
            count: 0,
        }
    }

    /// How many objects there are.
    pub(crate) fn count(&self) -> u64 {
        self.count
    }

    /// The text of the object.
    pub(crate) fn text(&self, key: &Key) -> Option<&str>
        ensures { option_map (λ s. s.now) result ≡ text_of self.now key.now }
    {
        let entry = self.rows.get(key)?;
        Some(entry.text.as_str())
    }

    /// Whether the text of the object lacks a jobTemplate.
    pub(crate) fn is_cut(&self, key: &Key) -> bool {
        match self.rows.get(key) {
            Some(entry) => entry.is_cut,
            None => false,
        }
    }

    /// The CronJob of the object at the key, where there are both.
    pub(crate) fn cron_at(&self, alloc: Global, key: &Key) -> Result<Option<Key>, Refusal>
        ensures ok { IfOk result (λ o. o ≡ cron_at self.now key.now) }
        ensures err { IfErr result (λ e. e ≡ OutOfMemory) }
    {
        cron_in(alloc, &self.rows, key)
    }

    /// The keys of the CronJob's objects.
    pub(crate) fn of_cron(&self, alloc: Global, cron: &Key) -> Result<Vec<Key>, Refusal>
        ensures err { IfErr result (λ e. e ≡ OutOfMemory) }
    {
        let keys = self.index.list(alloc, cron)?;
        those_of(alloc, &self.rows, keys, cron)
    }

    /// Appends each CronJob that has objects.
    pub(crate) fn add_crons(&self, alloc: Global, crons: &mut Vec<Key>) -> Result<(), Refusal>
        ensures memory { IfErr result (λ e. e ≡ OutOfMemory) }
    {
        self.index.add_crons(alloc, crons)
    }

    /// Puts the object at the key, in the place of the one there.
    pub(crate) fn put(&mut self, alloc: Global, key: &Key, entry: Entry) -> Result<(), Refusal>
        ensures ok { OnOk result (self.new ≡ map.insert self.old key.now entry) }
        ensures err { OnErr result (self.new ≡ self.old) }
        ensures memory { IfErr result (λ e. e ≡ OutOfMemory) }
    {
        let was = cron_in(alloc, &self.rows, key)?;
        let is_new = !self.rows.contains(key);
        let key_there = key.try_copy(alloc)?;
        point(alloc, &mut self.index, &entry.cron, key)?;
        self.rows.insert(key_there, entry)?;
        self.count = count_after(self.count, is_new);
        unpoint(&mut self.index, &self.rows, &was, key);
        Ok(())
    }

    /// Removes the object at the key, if there is one.
    pub(crate) fn remove(&mut self, alloc: Global, key: &Key) -> Result<(), Refusal>
        ensures ok { OnOk result (self.new ≡ map.remove self.old key.now) }
        ensures err { OnErr result (self.new ≡ self.old) }
        ensures memory { IfErr result (λ e. e ≡ OutOfMemory) }
    {
        let was = cron_in(alloc, &self.rows, key)?;
        if self.rows.contains(key) {
            self.count = self.count.saturating_sub(1);
        }
        self.rows.remove(key);
        unpoint(&mut self.index, &self.rows, &was, key);
        Ok(())
    }
}
