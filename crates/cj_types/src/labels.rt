ghost use Rattle.std.specs.Prelude.{◌≡◌, ◌↔◌, ◌<◌, ◌≤◌, ℕ, List, [], length, insert, slice_set, option_copied, IsTrue, IfOk, IfErr, OnOk, OnErr};
ghost use Rattle.cj_types.specs.LabelMap.{put_label, label_of, is_label_map};
ghost use Rattle.cj_base.specs.declared.refusal.Refusal.TheVariants.{OutOfMemory};

use cj_base::{Refusal, Same, Text, TryCopy, copy_all, same_all};
use std::alloc::Global;
use std::cmp::Ordering;
use std::marker::Model;

/// Labels or annotations: a value for each of some names.
///
/// Contracts see the entries in the order of the names' bytes, each name once.
#[derive(Debug)]
pub struct Labels {
    items: Vec<(Text, Text)>,
}

impl Drop for Labels {
    fn drop(self) {
        let Labels { items: _ } = self;
    }
}

impl Model for Labels {
    ghost use Rattle.std.specs.Prelude.{ℕ, List, IsTrue};
    ghost use Rattle.cj_types.specs.LabelMap.{is_label_map};

    ghost Value = { List (List ℕ × List ℕ) };

    ghost view = { λ t. t.items.items };

    ghost invariant = { λ t. IsTrue (is_label_map t.items.items) };
}

// Whether the name comes after all others. Names in rising order, as of a JSON object's members,
// need no search.
fn comes_last(items: &[(Text, Text)], name: &str) -> bool
    requires sorted { IsTrue (is_label_map items.now) }
    ensures { IsTrue result → (v : List ℕ) → put_label name.now v items.now
        ≡ insert items.now (length items.now) (name.now, v) }
{
    match items.last() {
        Some(entry) => name.cmp(entry.0.as_str()).is_gt(),
        None => true,
    }
}

// The place of the name, or the place at which it belongs.
fn find_place(items: &[(Text, Text)], name: &str) -> Result<usize, usize>
    requires sorted { IsTrue (is_label_map items.now) }
    ensures found { IfOk result (λ i. i < length items.now) }
    ensures found_put { IfOk result (λ i. (v : List ℕ) →
        put_label name.now v items.now ≡ slice_set items.now i (name.now, v)) }
    ensures absent { IfErr result (λ i. i ≤ length items.now) }
    ensures absent_put { IfErr result (λ i. (v : List ℕ) →
        put_label name.now v items.now ≡ insert items.now i (name.now, v)) }
{
    if comes_last(items, name) {
        return Err(items.len());
    }
    for (i, entry) in items.iter().enumerate() {
        match name.cmp(entry.0.as_str()) {
            Ordering::Less => return Err(i),
            Ordering::Equal => return Ok(i),
            Ordering::Greater => {}
        }
    }
    Err(items.len())
}

impl Labels {
    /// An empty map.
    pub fn new(alloc: Global) -> Labels
        ensures { result ≡ [] }
    {
        Labels {
            items: Vec::new(alloc),
        }
    }

    /// The entries in the order of their names.
    pub fn as_slice(&self) -> &[(Text, Text)]
        ensures entries { result.now ≡ self.now }
        ensures sorted { IsTrue (is_label_map self.now) }
    {
        self.items.as_slice()
    }

    /// Whether there is no entry.
    pub fn is_empty(&self) -> bool
        ensures { IsTrue result ↔ (self.now ≡ []) }
    {
        self.items.is_empty()
    }

    /// The value at the name.
    pub fn get(&self, name: &str) -> Option<&Text>
        ensures { option_copied result ≡ label_of name.now self.now }
    {
        for entry in self.items.as_slice() {
            if name.cmp(entry.0.as_str()).is_eq() {
                return Some(&entry.1);
            }
        }
        None
    }

    /// Sets the value of the name, replacing any earlier one; unchanged where there is no memory.
    pub fn put(&mut self, name: Text, value: Text) -> Result<(), Refusal>
        ensures ok { OnOk result (self.new ≡ put_label name value self.old) }
        ensures err { OnErr result (self.new ≡ self.old) }
        ensures memory { IfErr result (λ e. e ≡ OutOfMemory) }
    {
        match find_place(self.items.as_slice(), name.as_str()) {
            Ok(place) => {
                self.items[place] = (name, value);
                Ok(())
            }
            Err(place) => self
                .items
                .insert(place, (name, value))
                .map_err(|_| Refusal::OutOfMemory),
        }
    }
}

impl TryCopy for Labels {
    fn try_copy(&self, alloc: Global) -> Result<Labels, Refusal> {
        Ok(Labels {
            items: copy_all(alloc, self.items.as_slice())?,
        })
    }
}

impl Same for Labels {
    fn same(&self, other: &Labels) -> bool {
        same_all(self.as_slice(), other.as_slice())
    }
}
