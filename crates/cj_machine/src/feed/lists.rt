// A feed hears a page of a list.

use crate::feed::answers::{Page, page_in};
use crate::feed::pace::Pace;
use crate::feed::{Feed, MOST_OBJECTS, Notes, Scope, Stage};
use crate::mirror::{Entry, Kept, Shelf, cron_of, is_orphan, kept_of, key_in};
use crate::source::Source;
use cj_base::{Refusal, Text};
use cj_control::ApiVersion;
use cj_types::Key;
use serde_json::Value;
use std::alloc::Global;
use std::mem;

// What is kept of an object, with its CronJob.
fn entry(kept: Kept, cron: Option<Key>) -> Entry {
    let Kept { text, is_cut } = kept;
    Entry { text, cron, is_cut }
}

/// What a mirror keeps of the object at a key.
pub(crate) fn entry_of(
    alloc: Global,
    api: ApiVersion,
    source: Source,
    key: &Key,
    value: &Value,
) -> Result<Entry, Refusal> {
    let kept = kept_of(alloc, source, api, value)?;
    let cron = cron_of(alloc, source, key, value)?;
    Ok(entry(kept, cron))
}

// Puts an item of a list, unless it has no key; whether it has one.
fn put_item(
    alloc: Global,
    api: ApiVersion,
    source: Source,
    shelf: &mut Shelf,
    notes: &mut Notes,
    item: &Value,
) -> Result<bool, Refusal> {
    let Some(key) = key_in(alloc, item)? else {
        return Ok(false);
    };
    if is_orphan(item) {
        notes.orphan(alloc, &key)?;
    }
    let entry = entry_of(alloc, api, source, &key, item)?;
    shelf.put(alloc, &key, entry)?;
    Ok(true)
}

// Puts the items of a list; how many have no key.
fn put_items(
    alloc: Global,
    api: ApiVersion,
    source: Source,
    shelf: &mut Shelf,
    notes: &mut Notes,
    items: &[Value],
) -> Result<u64, Refusal> {
    let mut unnamed: u64 = 0;
    for item in items {
        if !put_item(alloc, api, source, shelf, notes, item)? {
            unnamed = unnamed.saturating_add(1);
        }
    }
    Ok(unnamed)
}

// The CronJobs of all objects of either shelf.
fn crons_of(alloc: Global, one: &Shelf, other: &Shelf) -> Result<Vec<Key>, Refusal> {
    let mut crons = Vec::new(alloc);
    one.add_crons(alloc, &mut crons)?;
    other.add_crons(alloc, &mut crons)?;
    Ok(crons)
}

impl Feed {
    // The list has come to its end: what it had is what there is.
    fn end_list(
        &mut self,
        alloc: Global,
        shelf: &mut Shelf,
        version: &str,
        now: u64,
    ) -> Result<Vec<Key>, Refusal> {
        let touched = crons_of(alloc, shelf, &self.coming)?;
        let version = Text::new(alloc, version)?;
        mem::swap(shelf, &mut self.coming);
        self.coming = Shelf::new(alloc);
        self.stage = Stage::Watching(version);
        self.limit = MOST_OBJECTS;
        self.listed = true;
        self.pace = Pace::at_once(now);
        Ok(touched)
    }

    // There is a page more.
    fn go_on(&mut self, alloc: Global, token: &str, now: u64) -> Result<Vec<Key>, Refusal> {
        self.stage = Stage::Listing(Some(Text::new(alloc, token)?));
        self.pace = Pace::at_once(now);
        Ok(Vec::new(alloc))
    }

    // Begins with nothing, where the page is the first.
    fn begin_list(&mut self, alloc: Global) {
        if let Stage::Listing(None) = &self.stage {
            self.coming = Shelf::new(alloc);
        }
    }

    fn take_page(
        &mut self,
        alloc: Global,
        scope: &Scope,
        source: Source,
        shelf: &mut Shelf,
        notes: &mut Notes,
        page: Page<'_>,
        now: u64,
    ) -> Result<Vec<Key>, Refusal> {
        self.begin_list(alloc);
        let coming = &mut self.coming;
        let unnamed = put_items(alloc, scope.api, source, coming, notes, page.items)?;
        if unnamed > 0 {
            notes.unnamed(alloc, scope, source, unnamed)?;
        }
        match page.next {
            Some(token) => self.go_on(alloc, token, now),
            None => self.end_list(alloc, shelf, page.version, now),
        }
    }

    /// The body of an answer to a list.
    pub(crate) fn hear_page(
        &mut self,
        alloc: Global,
        scope: &Scope,
        source: Source,
        shelf: &mut Shelf,
        notes: &mut Notes,
        body: Option<&Value>,
        now: u64,
    ) -> Result<Vec<Key>, Refusal> {
        match page_in(body) {
            Some(page) => self.take_page(alloc, scope, source, shelf, notes, page, now),
            None => {
                self.pace = self.pace.missed(now);
                notes.unread_page(alloc, scope, source)?;
                Ok(Vec::new(alloc))
            }
        }
    }
}
