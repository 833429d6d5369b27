// The Events that a controller has told, so that one that comes again is counted (client-go,
// tools/record, EventCorrelator).
use cj_base::{Refusal, Text};
use std::alloc::Global;

// How many Events are remembered, and for how many seconds after they were written: a server keeps
// them for an hour.
const MOST_ROWS: usize = 2_000;

const KEPT_FOR: u64 = 3_000;

// A count is written at most once in so many seconds.
const WRITTEN_EACH: u64 = 60;

/// An Event that was told.
pub(crate) struct EventRow {
    pub namespace: Text,
    /// The Event's name.
    pub name: Text,
    /// How often it came.
    pub count: u64,
    /// When it was written last, in seconds since 1970.
    pub written_at: u64,
    /// The number of the request that wrote it last.
    pub id: Option<u64>,
}

impl Drop for EventRow {
    fn drop(self) {
        let EventRow {
            namespace,
            name,
            count: _,
            written_at: _,
            id: _,
        } = self;
        drop(namespace);
        drop(name);
    }
}

/// What is to be done for an Event that comes.
#[derive(Clone, Copy, Debug, PartialEq, Eq)]
pub(crate) enum Telling {
    /// It is created.
    Create,
    /// Its count is written.
    Count(u64),
    /// It was counted, and is written later.
    Nothing,
}

/// The Events that were told in the last hour.
#[derive(Drop)]
pub(crate) struct EventLog {
    rows: Vec<EventRow>,
}

// What is to be done for an Event that comes again.
fn again(row: &mut EventRow, now: u64) -> Telling {
    row.count = row.count.saturating_add(1);
    if now < row.written_at.saturating_add(WRITTEN_EACH) {
        return Telling::Nothing;
    }
    row.written_at = now;
    Telling::Count(row.count)
}

impl EventLog {
    pub(crate) fn new(alloc: Global) -> EventLog {
        EventLog {
            rows: Vec::new(alloc),
        }
    }

    fn place(&self, namespace: &str, name: &str) -> Option<usize> {
        self.rows.iter().position(|row| row.name.as_str() == name
            && row.namespace.as_str() == namespace)
    }

    /// What is to be done for an Event of this name that comes now.
    pub(crate) fn come(&mut self, namespace: &str, name: &str, now: u64) -> Telling {
        let Some(place) = self.place(namespace, name) else {
            return Telling::Create;
        };
        let Some(row) = self.rows.get_mut(place) else {
            return Telling::Create;
        };
        if row.written_at.saturating_add(KEPT_FOR) < now {
            self.rows.swap_remove(place);
            return Telling::Create;
        }
        again(row, now)
    }

    /// An Event was told for the first time.
    pub(crate) fn add(&mut self, row: EventRow) -> Result<(), Refusal> {
        if self.rows.len() >= MOST_ROWS {
            self.rows.swap_remove(0);
        }
        self.rows.push(row).map_err(|_| Refusal::OutOfMemory)
    }

    /// The request of this number writes the count of an Event.
    pub(crate) fn set_id(&mut self, namespace: &str, name: &str, id: Option<u64>) {
        if let Some(place) = self.place(namespace, name) {
            if let Some(row) = self.rows.get_mut(place) {
                row.id = id;
            }
        }
    }

    /// The request of this number was refused: where it wrote an Event, that one is forgotten, and
    /// created when it comes next.
    pub(crate) fn refused(&mut self, id: u64) {
        if let Some(place) = self.rows.iter().position(|row| row.id == Some(id)) {
            self.rows.swap_remove(place);
        }
    }
}
