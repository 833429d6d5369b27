// One kind of objects, followed by lists and watches.

mod answers;
mod hears;
mod lists;
mod notes;
mod pace;
mod scope;
mod watches;

use crate::mirror::Shelf;
use crate::source::Source;
use cj_base::{Refusal, Text};
use cj_control::{Request, Verb};
pub(crate) use notes::{Notes, no_version};
use pace::Pace;
pub(crate) use scope::Scope;
use std::alloc::Global;

// How many objects a page of a list is asked to have at most, before one turned out too large.
const MOST_OBJECTS: u64 = 500;

/// What a feed asks, or has asked.
#[derive(Drop)]
pub(crate) enum Stage {
    /// A page of the list: the first, or the one of this token.
    Listing(Option<Text>),
    /// The watch of what comes after this version.
    Watching(Text),
    /// The end of a watch that told an error, before a new list.
    Ending,
}

/// One kind of objects, followed by lists and watches.
pub(crate) struct Feed {
    stage: Stage,
    /// Whether an answer is waited for.
    waits: bool,
    pace: Pace,
    /// Whether a list came to its end.
    listed: bool,
    /// What the pages of the list had up to now.
    coming: Shelf,
    /// How many objects a page of the list is asked to have at most.
    limit: u64,
    /// In which second a line came last, or a request was asked; 0 before the first.
    heard_at: u64,
    /// Whether the server refused the last request.
    is_refused: bool,
}

impl Drop for Feed {
    fn drop(self) {
        let Feed {
            stage,
            waits: _,
            pace: _,
            listed: _,
            coming,
            limit: _,
            heard_at: _,
            is_refused: _,
        } = self;
        drop(stage);
        drop(coming);
    }
}

impl Feed {
    pub(crate) fn new(alloc: Global) -> Feed {
        Feed {
            stage: Stage::Listing(None),
            waits: false,
            pace: Pace::new(),
            listed: false,
            coming: Shelf::new(alloc),
            limit: MOST_OBJECTS,
            heard_at: 0,
            is_refused: false,
        }
    }

    /// In which second a line came last, or a request was asked; 0 before the first.
    pub(crate) fn heard_at(&self) -> u64 {
        self.heard_at
    }

    /// Whether the server refused the last request.
    pub(crate) fn is_refused(&self) -> bool {
        self.is_refused
    }

    /// Whether a list came to its end.
    pub(crate) fn is_listed(&self) -> bool {
        self.listed
    }

    // The path of the next request; none while a watch is to end.
    fn path(&self, alloc: Global, scope: &Scope, source: Source) -> Result<Option<Text>, Refusal> {
        match &self.stage {
            Stage::Listing(token) => Ok(Some(scope.list_path(alloc, source, token, self.limit)?)),
            Stage::Watching(version) => Ok(Some(scope.watch_path(alloc, source, version)?)),
            Stage::Ending => Ok(None),
        }
    }

    /// The next request; none while an answer is waited for, or until a later second.
    pub(crate) fn next_request(
        &mut self,
        alloc: Global,
        scope: &Scope,
        source: Source,
        now: u64,
    ) -> Result<Option<Request>, Refusal> {
        if self.waits || !self.pace.is_due(now) {
            return Ok(None);
        }
        let Some(path) = self.path(alloc, scope, source)? else {
            return Ok(None);
        };
        self.waits = true;
        self.heard_at = now;
        // (a watch that ends within its second isn't asked again in it)
        self.pace = self.pace.after(now, 1);
        Ok(Some(Request {
            verb: Verb::Get,
            path,
            body: None,
        }))
    }

    /// Lists anew, after a delay.
    pub(crate) fn forget(&mut self, now: u64) {
        self.waits = false;
        self.stage = Stage::Listing(None);
        self.pace = self.pace.missed(now);
    }

    // Asks for a quarter of the objects from now on, and for one at least.
    fn ask_fewer(&mut self) {
        self.limit = (self.limit / 4).max(1);
    }

    // Lists anew, so many seconds later.
    fn restart(&mut self, now: u64, seconds: u64) {
        self.stage = Stage::Listing(None);
        self.pace = self.pace.after(now, seconds);
    }
}
