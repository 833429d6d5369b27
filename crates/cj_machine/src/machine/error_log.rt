// The errors that an API server answered to calls of a CronJob's syncs, so that people are told of
// each once an hour.
use cj_base::{Refusal, Text, TryCopy};
use std::alloc::Global;

// How many errors of a CronJob are remembered.
const MOST_ROWS: usize = 16;

/// An error that people were told of.
struct ErrorRow {
    cause: Text,
    /// In which hour since 1970 people were told.
    hour: u64,
    /// How often it came since then.
    count: u64,
}

impl Drop for ErrorRow {
    fn drop(self) {
        let ErrorRow {
            cause,
            hour: _,
            count: _,
        } = self;
        drop(cause);
    }
}

/// The errors of a CronJob's calls that people were told of.
#[derive(Drop)]
pub(crate) struct ErrorLog {
    rows: Vec<ErrorRow>,
}

// How often an error came since people were told of it, where they are to be told again.
fn again(row: &mut ErrorRow, hour: u64) -> Option<u64> {
    if row.hour == hour {
        row.count = row.count.saturating_add(1);
        return None;
    }
    let count = row.count;
    row.hour = hour;
    row.count = 0;
    Some(count)
}

fn copy_of(alloc: Global, row: &ErrorRow) -> Result<ErrorRow, Refusal> {
    Ok(ErrorRow {
        cause: row.cause.try_copy(alloc)?,
        hour: row.hour,
        count: row.count,
    })
}

impl ErrorLog {
    pub(crate) fn new(alloc: Global) -> ErrorLog {
        ErrorLog {
            rows: Vec::new(alloc),
        }
    }

    pub(crate) fn is_empty(&self) -> bool {
        self.rows.is_empty()
    }

    /// A copy for the next sync, of the errors of this hour and of the one before it.
    pub(crate) fn since(&self, alloc: Global, hour: u64) -> Result<ErrorLog, Refusal> {
        let mut rows = Vec::new(alloc);
        for row in &self.rows {
            if row.hour.saturating_add(1) >= hour {
                rows.push(copy_of(alloc, row)?)
                    .map_err(|_| Refusal::OutOfMemory)?;
            }
        }
        Ok(ErrorLog { rows })
    }

    /// An error of this cause comes in this hour; how often it came since people were told of it,
    /// where they are to be told now.
    pub(crate) fn come(&mut self, cause: Text, hour: u64) -> Result<Option<u64>, Refusal> {
        let place = self
            .rows
            .iter()
            .position(|row| row.cause.as_str() == cause.as_str());
        match place {
            Some(place) => match self.rows.get_mut(place) {
                Some(row) => Ok(again(row, hour)),
                None => Ok(None),
            },
            None => {
                self.add(cause, hour)?;
                Ok(Some(0))
            }
        }
    }

    // People are told of an error for the first time.
    fn add(&mut self, cause: Text, hour: u64) -> Result<(), Refusal> {
        if self.rows.len() >= MOST_ROWS {
            self.rows.swap_remove(0);
        }
        let row = ErrorRow {
            cause,
            hour,
            count: 0,
        };
        self.rows.push(row).map_err(|_| Refusal::OutOfMemory)
    }
}
