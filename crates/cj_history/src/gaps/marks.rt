// What a history tells of scheduled times, read once from its oldest entry on.
ghost use Rattle.std.specs.Prelude.{◌≡◌, List, [], ◌∷◌, IfOk, IfErr, OnOk, option_copied};
ghost use mathlib.Core.List.{reverse};
ghost use Rattle.cj_base.specs.declared.refusal.Refusal.TheVariants.{OutOfMemory};
ghost use Rattle.cj_calls.specs.Rows.{Told};
ghost use Rattle.cj_history.specs.gaps.Marks as said;
ghost use Rattle.cj_history.specs.gaps.reading.Known as known;

use crate::gaps::mark::{Deed, Mark, Start};
use cj_calls::{Answer, Call, Entry, Reply};
use cj_types::{CronJob, Refusal, Seconds, Shared};
use std::alloc::Global;
use std::collections::{BTreeMap, BTreeSet};

/// What a history tells.
#[derive(Drop)]
pub(crate) struct Marks {
    // What each worker claimed last, by the worker's number.
    claims: BTreeMap<u64, Start>,
    // What was told.
    marks: BTreeSet<Mark>,
}

fn claimed_for(cron: &Option<Shared<CronJob>>, time: Seconds) -> Option<Start>
    ensures { result ≡ said.claimed_for cron.now time }
{
    match cron {
        Some(cron) => Some(Start {
            uid: cron.get().meta.uid,
            time,
        }),
        None => None,
    }
}

fn claimed_in(cron: &Option<Shared<CronJob>>, reply: &Reply) -> Option<Start>
    ensures { result ≡ said.claimed_in cron.now reply.now }
{
    match reply {
        Reply::Claimed(Some((time, _))) => claimed_for(cron, *time),
        _ => None,
    }
}

// What an accepted claim claims.
fn start_in(call: &Call, answer: &Answer) -> Option<Start>
    ensures { result ≡ said.start_in call.now answer.now }
{
    match (call, answer) {
        (Call::Claim(plan), Ok(reply)) => claimed_in(plan.get().cron(), reply),
        _ => None,
    }
}

fn claim_mark(start: &Option<Start>) -> Option<Mark>
    ensures { result ≡ said.claim_mark start.now }
{
    match start {
        Some(start) => Some(Mark {
            uid: start.uid,
            time: start.time,
            deed: Deed::Claimed,
        }),
        None => None,
    }
}

// What came of a making.
fn deed_in(answer: &Answer) -> Option<Deed>
    ensures { result ≡ said.deed_in answer.now }
{
    match answer {
        Ok(_) => Some(Deed::Made),
        Err(Refusal::AlreadyExists) => Some(Deed::Refused),
        Err(_) => None,
    }
}

fn marked(start: Start, deed: Option<Deed>) -> Option<Mark>
    ensures { result ≡ said.marked start deed }
{
    match deed {
        Some(deed) => Some(Mark {
            uid: start.uid,
            time: start.time,
            deed,
        }),
        None => None,
    }
}

// What a making tells of the time that its caller claimed last.
fn making_mark(start: Option<Start>, call: &Call, answer: &Answer) -> Option<Mark>
    ensures { result ≡ said.making_mark start call.now answer.now }
{
    match (start, call) {
        (Some(start), Call::MakeNext) => marked(start, deed_in(answer)),
        _ => None,
    }
}

fn newer(mark: Option<Mark>, was: Option<Mark>) -> Option<Mark>
    ensures { result ≡ said.newer mark was }
{
    match mark {
        Some(mark) => Some(mark),
        None => was,
    }
}

impl Marks {
    // Of no entry.
    fn new(alloc: Global) -> Marks
        ensures { known.Knows result [] }
    {
        Marks {
            claims: BTreeMap::new(alloc),
            marks: BTreeSet::new(alloc),
        }
    }

    // What the worker claimed last.
    fn claimed_by(&self, number: u64) -> Option<Start>
        ensures { result ≡ known.claim_by self.now.claims number }
    {
        self.claims.get(&number).copied()
    }

    // The worker claims this, if it is anything.
    fn claim(&mut self, number: u64, start: Option<Start>) -> Result<(), Refusal>
        ensures claims { OnOk result (known.Claims number start self.old.claims self.new.claims) }
        ensures marks { self.new.marks ≡ self.old.marks }
        ensures err { IfErr result (λ e. e ≡ OutOfMemory) }
    {
        let Some(start) = start else {
            return Ok(());
        };
        match self.claims.insert(number, start) {
            Ok(_) => Ok(()),
            Err(_) => Err(Refusal::OutOfMemory),
        }
    }

    // That is told, if it is anything.
    fn tell(&mut self, mark: Option<Mark>) -> Result<(), Refusal>
        ensures marks { OnOk result (known.Tells mark self.old.marks self.new.marks) }
        ensures claims { self.new.claims ≡ self.old.claims }
        ensures err { IfErr result (λ e. e ≡ OutOfMemory) }
    {
        let Some(mark) = mark else {
            return Ok(());
        };
        match self.marks.insert(mark) {
            Ok(_) => Ok(()),
            Err(_) => Err(Refusal::OutOfMemory),
        }
    }

    // An entry more, which follows those that were read.
    fn note(&mut self, entry: &Entry) -> Result<(), Refusal>
        ensures ok { OnOk result ((h : List Told) → known.Knows self.old h →
            known.Knows self.new (entry.now ∷ h)) }
        ensures err { IfErr result (λ e. e ≡ OutOfMemory) }
    {
        let number = entry.caller().number;
        let start = start_in(entry.call(), entry.answer());
        let making = making_mark(self.claimed_by(number), entry.call(), entry.answer());
        self.tell(newer(claim_mark(&start), making))?;
        self.claim(number, start)
    }

    /// What the entries tell, of which the oldest is the first.
    pub(crate) fn read(alloc: Global, entries: &[Entry]) -> Result<Marks, Refusal>
        ensures ok { IfOk result (λ t. known.Knows t (reverse entries.now)) }
        ensures err { IfErr result (λ e. e ≡ OutOfMemory) }
    {
        let mut marks = Marks::new(alloc);
        for entry in entries {
            marks.note(entry)?;
        }
        Ok(marks)
    }

    /// Whether that was told.
    pub(crate) fn has(&self, mark: Mark) -> bool
        ensures { result ≡ known.has self.now mark }
    {
        self.marks.contains(&mark)
    }
}
