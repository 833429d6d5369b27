// A feed hears a line.
use crate::feed::answers::{Verdict, verdict_of};
use crate::feed::notes::Asked;
use crate::feed::pace::Pace;
use crate::feed::{Feed, Notes, Scope, Stage};
use crate::mirror::Shelf;
use crate::source::Source;
use cj_base::Refusal;
use cj_control::LineKind;
use cj_manifest::present;
use cj_types::Key;
use serde_json::Value;
use std::alloc::Global;

// From which wait on, in seconds, people are told that a list or a watch fails.
const TOLD_FROM: u64 = 4;

impl Feed {
    fn asked(&self) -> Asked {
        match &self.stage {
            Stage::Listing(_) => Asked::List,
            _ => Asked::Watch,
        }
    }

    fn is_listing(&self) -> bool {
        match &self.stage {
            Stage::Listing(_) => true,
            _ => false,
        }
    }

    // The server answered 200.
    fn done(
        &mut self,
        alloc: Global,
        scope: &Scope,
        source: Source,
        shelf: &mut Shelf,
        notes: &mut Notes,
        value: &Value,
        now: u64,
    ) -> Result<Vec<Key>, Refusal> {
        match self.asked() {
            Asked::List => {
                self.is_refused = false;
                let body = present(value, "body");
                self.hear_page(alloc, scope, source, shelf, notes, body, now)
            }
            Asked::Watch => {
                self.is_refused = false;
                self.pace = self.pace.met();
                Ok(Vec::new(alloc))
            }
        }
    }

    fn refused(
        &mut self,
        alloc: Global,
        scope: &Scope,
        source: Source,
        notes: &mut Notes,
        status: u64,
        value: &Value,
        now: u64,
    ) -> Result<Vec<Key>, Refusal> {
        let asked = self.asked();
        self.restart(now, 32);
        self.is_refused = true;
        notes.refused(alloc, scope, source, asked, status, present(value, "body"))?;
        Ok(Vec::new(alloc))
    }

    // The server gave no answer, or none that helps: the same is asked again later. People are told
    // from the third time in a row on.
    fn missed(
        &mut self,
        alloc: Global,
        scope: &Scope,
        source: Source,
        notes: &mut Notes,
        status: Option<u64>,
        value: &Value,
        now: u64,
    ) -> Result<Vec<Key>, Refusal> {
        let (asked, wait) = (self.asked(), self.pace.wait());
        self.pace = self.pace.missed(now);
        if status.is_none() && self.is_listing() {
            self.ask_fewer();
        }
        if wait >= TOLD_FROM {
            notes.failing(alloc, scope, source, asked, status, value, wait)?;
        }
        Ok(Vec::new(alloc))
    }

    // The answer is larger than the transport takes: at once for fewer objects, where a page can
    // have fewer.
    fn too_large(
        &mut self,
        alloc: Global,
        scope: &Scope,
        source: Source,
        notes: &mut Notes,
        value: &Value,
        now: u64,
    ) -> Result<Vec<Key>, Refusal> {
        if self.limit <= 1 {
            return self.missed(alloc, scope, source, notes, Some(413), value, now);
        }
        self.ask_fewer();
        self.pace = Pace::at_once(now);
        Ok(Vec::new(alloc))
    }

    fn answered(
        &mut self,
        alloc: Global,
        scope: &Scope,
        source: Source,
        shelf: &mut Shelf,
        notes: &mut Notes,
        status: u64,
        value: &Value,
        now: u64,
    ) -> Result<Vec<Key>, Refusal> {
        match verdict_of(status) {
            Verdict::Done => self.done(alloc, scope, source, shelf, notes, value, now),
            Verdict::Expired => {
                self.restart(now, 1);
                Ok(Vec::new(alloc))
            }
            Verdict::Busy => { self.missed(alloc, scope, source, notes, Some(status), value, now) }
            Verdict::TooLarge => self.too_large(alloc, scope, source, notes, value, now),
            Verdict::Refused => self.refused(alloc, scope, source, notes, status, value, now),
        }
    }

    // A watch that told an error has ended.
    fn end_watch(&mut self, now: u64) {
        if let Stage::Ending = &self.stage {
            self.restart(now, 1);
        }
    }

    /// A line for the request that was asked. Gives the CronJobs that are touched.
    pub(crate) fn hear(
        &mut self,
        alloc: Global,
        scope: &Scope,
        source: Source,
        shelf: &mut Shelf,
        notes: &mut Notes,
        kind: LineKind,
        value: &Value,
        now: u64,
    ) -> Result<Vec<Key>, Refusal> {
        if !self.waits {
            return Ok(Vec::new(alloc));
        }
        self.heard_at = now;
        match kind {
            LineKind::Told(_) => {
                let event = present(value, "event");
                self.hear_event(alloc, scope, source, shelf, notes, event)
            }
            LineKind::Answered(_, status) => {
                self.waits = false;
                let touched = self.answered(
                    alloc, scope, source, shelf, notes, status, value, now,
                )?;
                self.end_watch(now);
                Ok(touched)
            }
            LineKind::Failed(_) => {
                self.waits = false;
                let touched = self.missed(alloc, scope, source, notes, None, value, now)?;
                self.end_watch(now);
                Ok(touched)
            }
            _ => Ok(Vec::new(alloc)),
        }
    }
}
