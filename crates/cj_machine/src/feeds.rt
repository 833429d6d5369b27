// A cluster, followed by lists and watches.
use crate::feed::{Feed, Notes, Scope};
use crate::mirror::Mirror;
use crate::remark::Remark;
use crate::source::Source;
use cj_base::{Refusal, Text};
use cj_control::{ApiVersion, LineKind, Request};
use cj_types::Key;
use serde_json::Value;
use std::alloc::Global;

/// A cluster's CronJobs and Jobs, each followed by a list in pages and by watches from its version
/// on, as "Efficient detection of changes" of the Kubernetes API concepts has it.
///
/// At most one request of each source is under way. Whoever sends them hands over the lines of the
/// newest one alone.
pub struct Feeds {
    scope: Scope,
    mirror: Mirror,
    crons: Feed,
    jobs: Feed,
    notes: Notes,
}

impl Drop for Feeds {
    fn drop(self) {
        let Feeds {
            scope,
            mirror,
            crons,
            jobs,
            notes,
        } = self;
        drop(scope);
        drop(mirror);
        drop(crons);
        drop(jobs);
        drop(notes);
    }
}

impl Feeds {
    /// Feeds of a cluster whose CronJobs are of this version: of one namespace, or of all; of the
    /// CronJobs of a label selector, or of all.
    pub fn new(
        alloc: Global,
        api: ApiVersion,
        namespace: Option<Text>,
        selector: Option<Text>,
    ) -> Feeds {
        Feeds {
            scope: Scope {
                api,
                namespace,
                selector,
            },
            mirror: Mirror::new(alloc),
            crons: Feed::new(alloc),
            jobs: Feed::new(alloc),
            notes: Notes::new(alloc),
        }
    }

    /// What lists and watches told.
    pub fn mirror(&self) -> &Mirror {
        &self.mirror
    }

    /// Whether CronJobs and Jobs were listed to the end once.
    pub fn is_synced(&self) -> bool {
        self.crons.is_listed() && self.jobs.is_listed()
    }

    /// What is asked next; none while an answer is waited for, or until a later second. `now` is in
    /// seconds since 1970.
    ///
    /// # Errors
    ///
    /// `OutOfMemory` alone: nothing has changed.
    pub fn next_request(
        &mut self,
        alloc: Global,
        source: Source,
        now: u64,
    ) -> Result<Option<Request>, Refusal> {
        match source {
            Source::Crons => self.crons.next_request(alloc, &self.scope, source, now),
            Source::Jobs => self.jobs.next_request(alloc, &self.scope, source, now),
        }
    }

    /// A line for the request that was asked: its answer, that none came, or an event. `value` is
    /// that of the whole line. Gives the CronJobs that are touched, some maybe twice.
    ///
    /// # Errors
    ///
    /// `OutOfMemory` alone: call `forget_answer`.
    pub fn heard(
        &mut self,
        alloc: Global,
        source: Source,
        kind: LineKind,
        value: &Value,
        now: u64,
    ) -> Result<Vec<Key>, Refusal> {
        let scope = &self.scope;
        let notes = &mut self.notes;
        match source {
            Source::Crons => {
                let shelf = &mut self.mirror.crons;
                let feed = &mut self.crons;
                feed.hear(alloc, scope, source, shelf, notes, kind, value, now)
            }
            Source::Jobs => {
                let shelf = &mut self.mirror.jobs;
                let feed = &mut self.jobs;
                feed.hear(alloc, scope, source, shelf, notes, kind, value, now)
            }
        }
    }

    /// Waits for no answer any more: memory was wanting for one. The list is asked anew, after a
    /// delay.
    pub fn forget_answer(&mut self, source: Source, now: u64) {
        match source {
            Source::Crons => self.crons.forget(now),
            Source::Jobs => self.jobs.forget(now),
        }
    }

    // The feed of a source.
    fn feed(&self, source: Source) -> &Feed {
        match source {
            Source::Crons => &self.crons,
            Source::Jobs => &self.jobs,
        }
    }

    /// How many seconds ago a line came of a source, or a request was asked; none before the first.
    pub fn age(&self, source: Source, now: u64) -> Option<u64> {
        match self.feed(source).heard_at() {
            0 => None,
            at => Some(now.saturating_sub(at)),
        }
    }

    /// Whether the server refused the last request of a source.
    pub fn is_refused(&self, source: Source) -> bool {
        self.feed(source).is_refused()
    }

    /// Lines for people, each once: a list or a watch that the server refused, a page or an event
    /// that can't be read.
    pub fn take_told(&mut self, alloc: Global) -> Vec<Remark> {
        self.notes.take(alloc)
    }
}
