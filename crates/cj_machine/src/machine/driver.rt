// What a controller keeps beside its ledger.
ghost use Rattle.std.specs.Prelude.{◌≡◌, IfErr};
ghost use Rattle.cj_base.specs.declared.refusal.Refusal.TheVariants.{OutOfMemory};

use crate::feeds::Feeds;
use crate::machine::clock::{Clock, Difference};
use crate::machine::event_log::EventLog;
use crate::machine::events::{EventNote, MOST_EVENTS};
use crate::machine::memo::Memo;
use crate::machine::numbers::Numbers;
use crate::machine::options::ControlOptions;
use crate::machine::task::Task;
use crate::remark::Remark;
use crate::source::Source;
use cj_base::{Millis, Refusal, Seconds, Text, TryCopy};
use cj_control::HeldBy;
use cj_queue::{Queue, Secret};
use cj_table::Table;
use std::alloc::Global;

/// What a controller keeps beside its ledger.
pub(crate) struct Driver {
    pub options: ControlOptions,
    pub feeds: Feeds,
    pub queue: Queue,
    /// The syncs under way.
    pub tasks: Vec<Task>,
    /// What is kept of a CronJob from one sync to the next.
    pub memos: Table<Memo>,
    /// Lines for people.
    pub told: Vec<Remark>,
    /// Events that are to be told, those that were, and how many more may be told in this minute.
    pub events: Vec<EventNote>,
    pub event_log: EventLog,
    pub events_left: u64,
    /// What was counted.
    pub numbers: Numbers,
    /// The CronJobs whose status somebody else was seen to write in this hour.
    pub strangers: Table<()>,
    /// Names of zones that are wanted, and those that were.
    pub wanted: Vec<Text>,
    pub known: Vec<Text>,
    /// The numbers of the requests that are waited for: the server's version, and of each feed.
    pub version_id: Option<u64>,
    pub crons_id: Option<u64>,
    pub jobs_id: Option<u64>,
    /// What keeps a held Job from running, once the server's version is known.
    pub by: Option<HeldBy>,
    /// When the server's version is asked for again, in seconds since 1970, and how often in a row
    /// that was in vain.
    pub version_at: u64,
    pub version_misses: u64,
    /// Whether all lists came to their end once.
    pub was_synced: bool,
    pub clock: Clock,
    /// When the clock was told first, in seconds since 1970; 0 before.
    pub began_at: u64,
    pub is_stopping: bool,
}

impl Drop for Driver {
    fn drop(self) {
        let Driver {
            options,
            feeds,
            queue,
            tasks: _,
            memos: _,
            told: _,
            events: _,
            event_log: _,
            events_left: _,
            numbers: _,
            strangers: _,
            wanted: _,
            known: _,
            version_id: _,
            crons_id: _,
            jobs_id: _,
            by: _,
            version_at: _,
            version_misses: _,
            was_synced: _,
            clock: _,
            began_at: _,
            is_stopping: _,
        } = self;
        drop(options);
        drop(feeds);
        drop(queue);
    }
}

// A count with its word.
fn counted(alloc: Global, count: u64, word: &str) -> Result<String, Refusal> {
    if count == 1 {
        Ok(format!(in alloc; "1 {word}")?)
    } else {
        Ok(format!(in alloc; "{count} {word}s")?)
    }
}

impl Driver {
    /// What a controller keeps that has heard nothing yet.
    pub fn new(alloc: Global, options: ControlOptions, secret: Secret) -> Result<Driver, Refusal>
        ensures err { IfErr result (λ e. e ≡ OutOfMemory) }
    {
        let namespace = options.namespace.try_copy(alloc)?;
        let selector = options.selector.try_copy(alloc)?;
        let feeds = Feeds::new(alloc, options.api, namespace, selector);
        Ok(Driver {
            options,
            feeds,
            queue: Queue::keyed(alloc, secret),
            tasks: Vec::new(alloc),
            memos: Table::new(alloc),
            told: Vec::new(alloc),
            events: Vec::new(alloc),
            event_log: EventLog::new(alloc),
            events_left: MOST_EVENTS,
            numbers: Numbers::new(),
            strangers: Table::new(alloc),
            wanted: Vec::new(alloc),
            known: Vec::new(alloc),
            version_id: None,
            crons_id: None,
            jobs_id: None,
            by: None,
            version_at: 0,
            version_misses: 0,
            was_synced: false,
            clock: Clock::new(),
            began_at: 0,
            is_stopping: false,
        })
    }

    /// A line for people: that something happened.
    pub fn tell(&mut self, text: String) -> Result<(), Refusal> {
        self.told
            .push(Remark::info(text))
            .map_err(|_| Refusal::OutOfMemory)
    }

    /// A line for people: that somebody should look.
    pub fn warn(&mut self, text: String) -> Result<(), Refusal> {
        self.told
            .push(Remark::warning(text))
            .map_err(|_| Refusal::OutOfMemory)
    }

    /// The moment by which Jobs are due, in seconds since 1970; 0 until the server has answered.
    pub fn now(&self) -> u64 {
        self.clock.now()
    }

    /// What this machine's clock says, by which requests are paced; 0 before it was told.
    pub fn local(&self) -> u64 {
        self.clock.local()
    }

    /// The hour of this machine's clock, since 1970.
    pub fn hour(&self) -> u64 {
        self.local() / 3_600
    }

    /// The clock is at this second. Each minute people are told how things stand.
    pub fn set_clock(&mut self, alloc: Global, now: u64) -> Result<(), Refusal> {
        let before = self.local();
        self.clock.tick(now);
        if before == 0 {
            self.began_at = now;
            return Ok(());
        }
        if now / 3_600 != before / 3_600 {
            self.strangers = Table::new(alloc);
        }
        if now / 60 == before / 60 {
            return Ok(());
        }
        self.numbers.end_minute();
        self.events_left = MOST_EVENTS;
        self.sum_up(alloc)
    }

    /// The keys that waited for this moment get into the line.
    pub fn tick(&mut self) -> Result<(), Refusal> {
        match Seconds::new(self.now()) {
            Some(now) if self.now() != 0 => self.queue.tick(Millis::from(now)),
            _ => Ok(()),
        }
    }

    /// Says that the clocks differ, where people are to be told now.
    pub fn tell_clocks(&mut self, alloc: Global) -> Result<(), Refusal> {
        let Some(difference) = self.clock.to_tell() else {
            return Ok(());
        };
        let text = match difference {
            Difference::Ahead(seconds) => format!(in alloc;
                "this machine's clock is {seconds} s ahead of the API server's: a Job starts once it is due by both"
            )?,
            Difference::Behind(seconds) => format!(in alloc;
                "this machine's clock is {seconds} s behind the API server's: a Job starts once it is due by both"
            )?,
        };
        self.warn(text)
    }

    /// How many objects there are, in words.
    pub fn counts(&self, alloc: Global) -> Result<String, Refusal> {
        let mirror = self.feeds.mirror();
        let crons = counted(alloc, mirror.cron_count(), "CronJob")?;
        let jobs = counted(alloc, mirror.job_count(), "Job")?;
        let (crons, jobs) = (crons.as_str(), jobs.as_str());
        Ok(format!(in alloc; "{crons}, {jobs}")?)
    }

    // How things stand.
    fn sum_up(&mut self, alloc: Global) -> Result<(), Refusal> {
        let (counts, starts) = (self.counts(alloc)?, self.numbers.last_minute.starts);
        let counts = counts.as_str();
        let syncs = counted(alloc, self.tasks.len() as u64, "sync")?;
        let syncs = syncs.as_str();
        let text = format!(in alloc;
            "{counts}; started {starts} in the last minute, {syncs} under way"
        )?;
        self.tell(text)
    }

    /// Takes the sync out that waits for the answer to this request.
    pub fn take_task(&mut self, id: u64) -> Option<Task> {
        let place = self.tasks.iter().position(|task| task.id == Some(id))?;
        Some(self.tasks.swap_remove(place))
    }

    /// Which feed waits for this request.
    pub fn feed_of(&self, id: u64) -> Option<Source> {
        if self.crons_id == Some(id) {
            Some(Source::Crons)
        } else if self.jobs_id == Some(id) {
            Some(Source::Jobs)
        } else {
            None
        }
    }

    /// Waits for no answer to a list, to a watch, or to the question for the server's version: all
    /// are asked anew.
    pub fn forget_feeds(&mut self) {
        self.version_id = None;
        self.crons_id = None;
        self.jobs_id = None;
        let now = self.local();
        self.feeds.forget_answer(Source::Crons, now);
        self.feeds.forget_answer(Source::Jobs, now);
    }

    /// Notes which request a feed waits for.
    pub fn set_feed(&mut self, feed: Source, id: Option<u64>) {
        match feed {
            Source::Crons => self.crons_id = id,
            Source::Jobs => self.jobs_id = id,
        }
    }
}
