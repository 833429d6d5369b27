// Which Jobs were made, and how long each of them runs.
ghost use Rattle.std.specs.Prelude.{◌≡◌, [], ◌∷◌, OnOk, IfOk, IfErr, option_copied};
ghost use Rattle.std.specs.FinMap as map;
ghost use Rattle.std.specs.List.{filter_map};
ghost use Rattle.cj_base.specs.declared.refusal.Refusal.TheVariants.{OutOfMemory};
ghost use Rattle.cj_run.specs.Made.{counted, ending_of, job_added, made_before, no_notes, noted, noted_all, noted_news, noted_told, notes, seen, with_run};

use cj_base::{Refusal, Text, TryCopy};
use cj_calls::{Answer, Reply};
use cj_hub::Receipt;
use cj_informer::owner_key;
use cj_runner::{Ending, Running};
use cj_script::{Run, RunEnd, Runs};
use cj_table::Table;
use cj_types::{Event, Job, Key, Object, Seconds, Shared};
use std::alloc::Global;

/// How many Jobs the CronJob with this uid made.
#[derive(Drop)]
pub(crate) struct Count {
    pub uid: Text,
    pub jobs: u64,
}

/// What was noted of the Jobs that were made.
#[derive(Drop)]
pub(crate) struct Made {
    // The count in the uid of the last Job that was noted, 0 before the first.
    last: u64,
    counts: Table<Count>,
    /// The Jobs that run and will end.
    pub running: Vec<Running>,
}

// How many of the counted Jobs a CronJob with this uid made.
fn jobs_of(count: Option<&Count>, uid: &Text) -> u64
    ensures { result ≡ made_before (option_copied count.entry) uid.now }
{
    match count {
        Some(count) if count.uid.as_str() == uid.as_str() => count.jobs,
        _ => 0,
    }
}

// The end that a scenario says, as a runner makes it.
fn ending_of(end: RunEnd) -> Ending
    ensures { result ≡ ending_of end }
{
    match end {
        RunEnd::Complete => Ending::Complete,
        RunEnd::Failed => Ending::Failed,
    }
}

impl Made {
    /// No Job was made.
    pub(crate) fn new(alloc: Global) -> Made
        ensures { notes result.last result.counts result.running.items ≡ no_notes }
    {
        Made {
            last: 0,
            counts: Table::new(alloc),
            running: Vec::new(alloc),
        }
    }

    // Counts a Job of the CronJob with this key and uid, and answers how many it made before.
    fn count(&mut self, alloc: Global, key: Key, uid: &Text) -> Result<u64, Refusal>
        ensures before { IfOk result (λ n. n ≡ made_before (map.get self.old.counts key) uid.now) }
        ensures counts { IfOk result (λ n. self.new.counts
            ≡ map.insert self.old.counts key (counted uid.now n)) }
        ensures running { self.new.running ≡ self.old.running }
        ensures last { self.new.last ≡ self.old.last }
        ensures err { IfErr result (λ e. e ≡ OutOfMemory) }
    {
        let before = jobs_of(self.counts.get(&key), uid);
        let count = Count {
            uid: uid.try_copy(alloc)?,
            jobs: before.saturating_add(1),
        };
        self.counts.insert(key, count)?;
        Ok(before)
    }

    // Adds a Job that runs, where it ends at all.
    fn start(
        &mut self,
        alloc: Global,
        now: Seconds,
        job: &Job,
        run: Option<Run>,
    ) -> Result<(), Refusal>
        ensures running { OnOk result (self.new.running.items
            ≡ with_run self.old.running.items now job.now run) }
        ensures counts { self.new.counts ≡ self.old.counts }
        ensures last { self.new.last ≡ self.old.last }
        ensures err { IfErr result (λ e. e ≡ OutOfMemory) }
    {
        let Some(run) = run else {
            return Ok(());
        };
        let running = Running {
            key: job.key.try_copy(alloc)?,
            uid: job.meta.uid,
            made: now,
            seconds: run.seconds,
            outcome: ending_of(run.end),
        };
        self.running.push(running).map_err(|_| Refusal::OutOfMemory)
    }

    // Notes a Job that was made at the moment.
    fn note(&mut self, alloc: Global, runs: &Runs, now: Seconds, job: &Job) -> Result<(), Refusal>
        ensures ok { OnOk result (notes self.new.last self.new.counts self.new.running.items
            ≡ noted runs.now now job.now
            (notes self.old.last self.old.counts self.old.running.items)) }
        ensures err { IfErr result (λ e. e ≡ OutOfMemory) }
    {
        let Some(key) = owner_key(alloc, job)? else {
            return Ok(());
        };
        let Some(owner) = job.owners.controller() else {
            return Ok(());
        };
        let place = key.try_copy(alloc)?;
        let before = self.count(alloc, key, &owner.uid)?;
        self.start(alloc, now, job, runs.of(&place, before))
    }

    // Notes a Job that an answer names, unless it was noted before that answer.
    fn note_new(
        &mut self,
        alloc: Global,
        runs: &Runs,
        now: Seconds,
        noted_before: u64,
        job: &Job,
    ) -> Result<(), Refusal>
        ensures ok { OnOk result (notes self.new.last self.new.counts self.new.running.items
            ≡ seen runs.now now noted_before job.now
            (notes self.old.last self.old.counts self.old.running.items)) }
        ensures err { IfErr result (λ e. e ≡ OutOfMemory) }
    {
        let uid = job.meta.uid.get();
        self.last = self.last.max(uid);
        if noted_before < uid {
            self.note(alloc, runs, now, job)
        } else {
            Ok(())
        }
    }

    // Notes the Jobs of a listing.
    fn note_all(
        &mut self,
        alloc: Global,
        runs: &Runs,
        now: Seconds,
        jobs: &[Shared<Job>],
    ) -> Result<(), Refusal>
        ensures ok { OnOk result (notes self.new.last self.new.counts self.new.running.items
            ≡ noted_all runs.now now self.old.last jobs.now
            (notes self.old.last self.old.counts self.old.running.items)) }
        ensures err { IfErr result (λ e. e ≡ OutOfMemory) }
    {
        let noted_before = self.last;
        for job in jobs {
            self.note_new(alloc, runs, now, noted_before, job)?;
        }
        Ok(())
    }

    // Notes the Job that an event says was created, if it says so.
    fn note_event(
        &mut self,
        alloc: Global,
        runs: &Runs,
        now: Seconds,
        noted_before: u64,
        event: &Event,
    ) -> Result<(), Refusal>
        ensures ok { OnOk result (notes self.new.last self.new.counts self.new.running.items
            ≡ noted_all runs.now now noted_before (filter_map job_added (event.now ∷ []))
            (notes self.old.last self.old.counts self.old.running.items)) }
        ensures err { IfErr result (λ e. e ≡ OutOfMemory) }
    {
        match event {
            Event::Added(Object::Job(job)) => self.note_new(alloc, runs, now, noted_before, job),
            _ => Ok(()),
        }
    }

    // Notes the Jobs that events say were created.
    fn note_events(
        &mut self,
        alloc: Global,
        runs: &Runs,
        now: Seconds,
        events: &[Event],
    ) -> Result<(), Refusal>
        ensures ok { OnOk result (notes self.new.last self.new.counts self.new.running.items
            ≡ noted_all runs.now now self.old.last (filter_map job_added events.now)
            (notes self.old.last self.old.counts self.old.running.items)) }
        ensures err { IfErr result (λ e. e ≡ OutOfMemory) }
    {
        let noted_before = self.last;
        for event in events {
            self.note_event(alloc, runs, now, noted_before, event)?;
        }
        Ok(())
    }

    // Notes the Jobs that an answer to the informer names.
    fn note_told(
        &mut self,
        alloc: Global,
        runs: &Runs,
        now: Seconds,
        answer: &Answer,
    ) -> Result<(), Refusal>
        ensures ok { OnOk result (notes self.new.last self.new.counts self.new.running.items
            ≡ noted_told runs.now now answer.now
            (notes self.old.last self.old.counts self.old.running.items)) }
        ensures err { IfErr result (λ e. e ≡ OutOfMemory) }
    {
        match answer {
            Ok(Reply::Events(events)) => self.note_events(alloc, runs, now, events.as_slice()),
            Ok(Reply::Jobs(jobs, _)) => self.note_all(alloc, runs, now, jobs.as_slice()),
            _ => Ok(()),
        }
    }

    /// Notes the Jobs that the informer's receipts name and that were made at the moment, each
    /// once.
    pub(crate) fn note_news(
        &mut self,
        alloc: Global,
        runs: &Runs,
        now: Seconds,
        receipts: &[Receipt],
    ) -> Result<(), Refusal>
        ensures ok { OnOk result (notes self.new.last self.new.counts self.new.running.items
            ≡ noted_news runs.now now receipts.now
            (notes self.old.last self.old.counts self.old.running.items)) }
        ensures err { IfErr result (λ e. e ≡ OutOfMemory) }
    {
        for receipt in receipts {
            self.note_told(alloc, runs, now, receipt.answer())?;
        }
        Ok(())
    }
}
