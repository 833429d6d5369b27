// What is known of a history while it is read from its oldest entry on.
ghost use Rattle.std.specs.Prelude.{◌≡◌, List, [], ◌∷◌, IfErr, OnOk, option_copied};
ghost use Rattle.cj_base.specs.declared.refusal.Refusal.TheVariants.{OutOfMemory};
ghost use Rattle.cj_calls.specs.Rows.{Told};
ghost use Rattle.cj_report.specs.Reasons.{held};
ghost use Rattle.cj_report.specs.timeline.Known.{IsRead};
ghost use Rattle.cj_report.specs.timeline.Moments as said;
ghost use Rattle.cj_report.specs.timeline.Running as runs;

use crate::tellings::Tellings;
use crate::timeline::moments::{moment, told_moment};
use crate::timeline::running::{ended_by, made_by};
use cj_calls::Entry;
use cj_table::Table;
use cj_types::{Job, Key, Refusal, Seconds, Shared, TryCopy};
use std::alloc::Global;

/// What is known of the entries that were read.
#[derive(Drop)]
pub(crate) struct Reading {
    tellings: Tellings,
    // The last moment in a call.
    last: Option<Seconds>,
    // The Jobs that run.
    running: Table<Shared<Job>>,
}

impl Reading {
    /// Nothing is known yet.
    pub(crate) fn new(alloc: Global) -> Reading
        ensures { IsRead result [] }
    {
        Reading {
            tellings: Tellings::new(alloc),
            last: None,
            running: Table::new(alloc),
        }
    }

    /// The key that the worker took last.
    pub(crate) fn held(&self, number: u64) -> Option<&Key>
        ensures { (h : List Told) → IsRead self.now h → option_copied result ≡ held number h }
    {
        self.tellings.held(number)
    }

    /// The moment of the next entry, which is followed by those.
    pub(crate) fn moment(&self, entry: &Entry, after: &[Entry]) -> Option<Seconds>
        ensures { (h : List Told) → IsRead self.now h →
            result ≡ said.moment h entry.now after.now }
    {
        moment(entry, self.last, after)
    }

    /// The Jobs that run.
    pub(crate) fn running(&self) -> &Table<Shared<Job>>
        ensures { (h : List Told) → IsRead self.now h → result.now ≡ runs.running h }
    {
        &self.running
    }

    // Records that the Job doesn't run any more.
    fn end(&mut self, key: Option<&Key>)
        ensures running { self.new.running
            ≡ runs.without (option_copied key.entry) self.old.running }
        ensures tellings { self.new.tellings ≡ self.old.tellings }
        ensures last { self.new.last ≡ self.old.last }
    {
        if let Some(key) = key {
            self.running.remove(key);
        }
    }

    // Records that the Job runs.
    fn make(&mut self, alloc: Global, job: Option<&Shared<Job>>) -> Result<(), Refusal>
        ensures running { OnOk result (self.new.running
            ≡ runs.with_made (option_copied job.entry) self.old.running) }
        ensures tellings { self.new.tellings ≡ self.old.tellings }
        ensures last { self.new.last ≡ self.old.last }
        ensures err { IfErr result (λ e. e ≡ OutOfMemory) }
    {
        let Some(job) = job else {
            return Ok(());
        };
        let key = job.get().key.try_copy(alloc)?;
        self.running.insert(key, job.try_copy(alloc)?)
    }

    // Records the moment of a call.
    fn tell(&mut self, at: Option<Seconds>)
        ensures last { self.new.last ≡ said.or_else at self.old.last }
        ensures running { self.new.running ≡ self.old.running }
        ensures tellings { self.new.tellings ≡ self.old.tellings }
    {
        self.last = at.or(self.last);
    }

    /// Takes in the entry that follows those that were read.
    pub(crate) fn note(&mut self, alloc: Global, entry: &Entry) -> Result<(), Refusal>
        ensures ok { OnOk result ((h : List Told) → IsRead self.old h →
            IsRead self.new (entry.now ∷ h)) }
        ensures err { IfErr result (λ e. e ≡ OutOfMemory) }
    {
        self.end(ended_by(entry.call(), entry.answer()));
        self.make(alloc, made_by(entry.call(), entry.answer()))?;
        self.tell(told_moment(entry.call()));
        self.tellings.note(alloc, entry)
    }
}
