// A feed hears an event of a watch.

use crate::feed::answers::{Change, Event, event_in, is_error};
use crate::feed::lists::entry_of;
use crate::feed::{Feed, Notes, Scope, Stage};
use crate::mirror::{Shelf, cron_of, is_orphan, key_in};
use crate::source::Source;
use cj_base::{Refusal, Text, TryCopy};
use cj_control::ApiVersion;
use cj_types::Key;
use serde_json::Value;
use std::alloc::Global;

// The CronJobs, as a list.
fn both_crons(alloc: Global, one: Option<Key>, other: Option<Key>) -> Result<Vec<Key>, Refusal> {
    let mut crons = Vec::new(alloc);
    if let Some(cron) = one {
        crons.push(cron).map_err(|_| Refusal::OutOfMemory)?;
    }
    if let Some(cron) = other {
        crons.push(cron).map_err(|_| Refusal::OutOfMemory)?;
    }
    Ok(crons)
}

// Puts an object at its key.
fn put(
    alloc: Global,
    api: ApiVersion,
    source: Source,
    shelf: &mut Shelf,
    key: &Key,
    object: &Value,
) -> Result<Vec<Key>, Refusal> {
    let entry = entry_of(alloc, api, source, key, object)?;
    let was = shelf.cron_at(alloc, key)?;
    let touched = both_crons(alloc, was, entry.cron.try_copy(alloc)?)?;
    shelf.put(alloc, key, entry)?;
    Ok(touched)
}

// Removes the object at its key.
fn remove(
    alloc: Global,
    source: Source,
    shelf: &mut Shelf,
    key: &Key,
    object: &Value,
) -> Result<Vec<Key>, Refusal> {
    let cron = cron_of(alloc, source, key, object)?;
    let touched = both_crons(alloc, shelf.cron_at(alloc, key)?, cron)?;
    shelf.remove(alloc, key)?;
    Ok(touched)
}

// What an event does to the object at its key.
fn change_shelf(
    alloc: Global,
    api: ApiVersion,
    source: Source,
    shelf: &mut Shelf,
    key: &Key,
    event: Event<'_>,
) -> Result<Vec<Key>, Refusal> {
    match event.change {
        Change::Put => put(alloc, api, source, shelf, key, event.object),
        Change::Gone => remove(alloc, source, shelf, key, event.object),
        Change::Bookmark => Ok(Vec::new(alloc)),
    }
}

impl Feed {
    // What an event says; one of an object that has no key is told.
    fn take_event(
        &mut self,
        alloc: Global,
        scope: &Scope,
        source: Source,
        shelf: &mut Shelf,
        notes: &mut Notes,
        event: Event<'_>,
    ) -> Result<Vec<Key>, Refusal> {
        let version = Text::new(alloc, event.version)?;
        let touched = match key_in(alloc, event.object)? {
            Some(key) => {
                if event.change == Change::Put && is_orphan(event.object) {
                    notes.orphan(alloc, &key)?;
                }
                change_shelf(alloc, scope.api, source, shelf, &key, event)?
            }
            None => {
                if event.change != Change::Bookmark {
                    notes.unread_event(alloc, scope, source)?;
                }
                Vec::new(alloc)
            }
        };
        self.stage = Stage::Watching(version);
        self.pace = self.pace.met();
        Ok(touched)
    }

    fn is_watching(&self) -> bool {
        match &self.stage {
            Stage::Watching(_) => true,
            _ => false,
        }
    }

    /// An event, while a watch is asked; else nothing.
    pub(crate) fn hear_event(
        &mut self,
        alloc: Global,
        scope: &Scope,
        source: Source,
        shelf: &mut Shelf,
        notes: &mut Notes,
        event: Option<&Value>,
    ) -> Result<Vec<Key>, Refusal> {
        if !self.is_watching() {
            return Ok(Vec::new(alloc));
        }
        if is_error(event) {
            self.stage = Stage::Ending;
            return Ok(Vec::new(alloc));
        }
        match event_in(event) {
            Some(event) => self.take_event(alloc, scope, source, shelf, notes, event),
            None => {
                notes.unread_event(alloc, scope, source)?;
                Ok(Vec::new(alloc))
            }
        }
    }
}
