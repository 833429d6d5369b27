// What lists, watches and the server's version tell.
use crate::feed::no_version;
use crate::machine::driver::Driver;
use crate::machine::saying::say_other;
use crate::machine::strangers::stranger;
use crate::machine::view::rank;
use crate::mirror::key_in;
use crate::source::Source;
use cj_base::{Refusal, Text, TryCopy};
use cj_cluster::read_instant;
use cj_control::{HeldBy, Line, LineKind, full_name, text_at};
use cj_manifest::present;
use cj_types::Key;
use serde_json::Value;
use std::alloc::Global;

// The number that a text begins with.
fn number_in(text: &str) -> u64 {
    let mut number: u64 = 0;
    for byte in text.as_bytes() {
        if !byte.is_ascii_digit() {
            return number;
        }
        number = number
            .saturating_mul(10)
            .saturating_add(u64::from(byte.saturating_sub(b'0')));
    }
    number
}

// What keeps a held Job from running on a server of this minor version: one before 1.24 may drop
// `spec.suspend`.
fn held_by(body: Option<&Value>) -> Option<HeldBy> {
    let minor = present(body?, "minor")?.as_str()?;
    if number_in(minor) >= 24 {
        Some(HeldBy::Suspend)
    } else {
        Some(HeldBy::Parallelism)
    }
}

// The status of an answer; none where none came.
fn answered_by(kind: LineKind) -> Option<u64> {
    match kind {
        LineKind::Answered(_, status) => Some(status),
        _ => None,
    }
}

// The moment that a line says the server's clock showed.
fn date_in(line: &Value) -> Option<u64> {
    let time = read_instant(text_at(line, "date")?)?;
    Some(time.get())
}

impl Driver {
    /// An answer may tell the server's clock.
    pub fn hear_clock(&mut self, line: &Line) {
        if let LineKind::Answered(_, _) = line.kind {
            self.clock.heard(date_in(&line.value));
        }
    }

    /// What the server says of its version. People are told at once where it says none, and then
    /// each 32nd time.
    pub fn hear_version(&mut self, alloc: Global, line: &Line) -> Result<(), Refusal> {
        self.version_id = None;
        self.version_at = self.local().saturating_add(1);
        if let LineKind::Answered(_, 200) = line.kind {
            self.by = held_by(present(&line.value, "body")).or(self.by);
        }
        if self.by.is_some() {
            return Ok(());
        }
        let is_told = self.version_misses % 32 == 0;
        self.version_misses = self.version_misses.saturating_add(1);
        if is_told {
            self.warn(no_version(alloc, answered_by(line.kind), &line.value)?)
        } else {
            Ok(())
        }
    }

    /// An event of a watch.
    pub fn told_for(&mut self, alloc: Global, id: u64, line: &Line) -> Result<(), Refusal> {
        match self.feed_of(id) {
            Some(source) => self.hear_feed(alloc, source, line),
            None => Ok(()),
        }
    }

    /// A line for the request of a feed. The CronJobs that it touches are to be synced.
    pub fn hear_feed(&mut self, alloc: Global, source: Source, line: &Line) -> Result<(), Refusal> {
        if !matches!(line.kind, LineKind::Told(_)) {
            self.set_feed(source, None);
        }
        let now = self.local();
        match self.feeds.heard(alloc, source, line.kind, &line.value, now) {
            Ok(keys) => {
                self.see_writer(alloc, source, line)?;
                self.touch_all(alloc, keys.as_slice())?;
                self.tell_notes(alloc)?;
                self.tell_synced(alloc)
            }
            Err(refusal) => {
                self.set_feed(source, None);
                self.feeds.forget_answer(source, now);
                Err(refusal)
            }
        }
    }

    // That all lists came to their end, the first time.
    fn tell_synced(&mut self, alloc: Global) -> Result<(), Refusal> {
        if self.was_synced || !self.feeds.is_synced() {
            return Ok(());
        }
        self.was_synced = true;
        let counts = self.counts(alloc)?;
        let (counts, scope) = (counts.as_str(), self.scope_words());
        let words = if self.options.dry_run {
            "; dry run: nothing is written"
        } else {
            ""
        };
        self.tell(format!(in alloc; "watching {counts}{scope}{words}")?)
    }

    // Which of the CronJobs are looked after, where not all are.
    fn scope_words(&self) -> &'static str {
        if self.options.only_annotated {
            "; only CronJobs with the annotation cronsim/run=true are looked after"
        } else {
            ""
        }
    }

    // What people are to know of lists and watches.
    fn tell_notes(&mut self, alloc: Global) -> Result<(), Refusal> {
        for line in self.feeds.take_told(alloc) {
            self.told.push(line).map_err(|_| Refusal::OutOfMemory)?;
        }
        Ok(())
    }

    // Somebody else may have written the status of the CronJob of an event: that is told, once an
    // hour.
    fn see_writer(&mut self, alloc: Global, source: Source, line: &Line) -> Result<(), Refusal> {
        if source == Source::Jobs || !matches!(line.kind, LineKind::Told(_)) {
            return Ok(());
        }
        let object = match present(&line.value, "event") {
            Some(event) => present(event, "object"),
            None => None,
        };
        let Some(object) = object else {
            return Ok(());
        };
        let (Some(manager), Some(key)) = (stranger(object, self.began_at), key_in(alloc, object)?)
        else {
            return Ok(());
        };
        if self.strangers.contains(&key) {
            return Ok(());
        }
        say_other(alloc, self, object, &key, manager)?;
        self.strangers.insert(key, ())
    }

    fn touch_all(&mut self, alloc: Global, keys: &[Key]) -> Result<(), Refusal> {
        for key in keys {
            self.touch(alloc, key)?;
        }
        Ok(())
    }

    // A CronJob is to be synced, once it is this replica's turn, and not before the next second: so
    // all that comes of it until then leads to one sync.
    fn touch(&mut self, alloc: Global, key: &Key) -> Result<(), Refusal> {
        let name = full_name(alloc, key.namespace(), key.name())?;
        let rank = rank(self.options.replica.as_str(), name.as_str());
        let at = self.now().saturating_add(rank.max(1));
        self.queue.add_after(key, at.saturating_mul(1_000))
    }

    /// The path that a feed asks for next, if it asks.
    pub fn next_path(&mut self, alloc: Global, source: Source) -> Result<Option<Text>, Refusal> {
        let now = self.local();
        match self.feeds.next_request(alloc, source, now)? {
            Some(request) => Ok(Some(request.path)),
            None => Ok(None),
        }
    }

    /// A zone that a CronJob names and the table lacks is wanted, once.
    pub fn want(&mut self, alloc: Global, name: &Text) -> Result<(), Refusal> {
        let (one, other) = (name.try_copy(alloc)?, name.try_copy(alloc)?);
        self.known.push(one).map_err(|_| Refusal::OutOfMemory)?;
        self.wanted.push(other).map_err(|_| Refusal::OutOfMemory)
    }
}
