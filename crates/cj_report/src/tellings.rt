// The reasons in a history, read once from its oldest entry on.
ghost use Rattle.std.specs.Prelude.{◌≡◌, List, [], ◌∷◌, IfOk, IfErr, OnOk, option_copied};
ghost use mathlib.Core.List.{reverse};
ghost use Rattle.cj_base.specs.declared.refusal.Refusal.TheVariants.{OutOfMemory};
ghost use Rattle.cj_calls.specs.Rows.{Told};
ghost use Rattle.cj_report.specs.Reasons as said;
ghost use Rattle.cj_report.specs.Tellings as known;

use cj_calls::{Answer, Call, Entry, Reply};
use cj_table::Table;
use cj_types::{Key, Reason, Refusal, TryCopy};
use std::alloc::Global;
use std::collections::BTreeMap;

/// A set of reasons.
#[derive(Clone, Copy)]
struct ReasonSet {
    failed_create: bool,
    job_already_active: bool,
    too_many_missed_times: bool,
    unknown_time_zone: bool,
}

/// The reasons in a history, by CronJob.
#[derive(Drop)]
pub(crate) struct Tellings {
    // The key that each worker took last, by the worker's number.
    keys: BTreeMap<u64, Key>,
    // The reasons of each key.
    reasons: Table<ReasonSet>,
}

fn key_in(reply: &Reply) -> Option<&Key>
    ensures { option_copied result ≡ said.key_in reply.now }
{
    match reply {
        Reply::Key(key) => Some(key),
        _ => None,
    }
}

// The key that a Take was answered.
fn answered_key(answer: &Answer) -> Option<&Key>
    ensures { option_copied result ≡ said.answered_key answer.now }
{
    match answer {
        Ok(reply) => key_in(reply),
        Err(_) => None,
    }
}

fn reasons_in(call: &Call) -> &[Reason]
    ensures { result.now ≡ said.reasons_in call.now }
{
    match call {
        Call::Finish(_, reasons) => reasons.as_slice(),
        _ => &[],
    }
}

// The reasons in an entry: those of an accepted Finish.
pub(crate) fn reasons_told(entry: &Entry) -> &[Reason]
    ensures { result.now ≡ known.reasons_told entry.now.call entry.now.answer }
{
    match entry.answer() {
        Ok(_) => reasons_in(entry.call()),
        Err(_) => &[],
    }
}

pub(crate) fn is_told(reason: Reason, reasons: &[Reason]) -> bool
    ensures { result ≡ said.is_told reason reasons.now }
{
    reasons.iter().any(|told| told.name() == reason.name())
}

impl ReasonSet {
    // The empty set.
    fn new() -> ReasonSet
        ensures { result ≡ known.no_reason }
    {
        ReasonSet {
            failed_create: false,
            job_already_active: false,
            too_many_missed_times: false,
            unknown_time_zone: false,
        }
    }

    // The set with those of the list added.
    fn with(self, reasons: &[Reason]) -> ReasonSet
        ensures { known.Adds reasons.now self result }
    {
        ReasonSet {
            failed_create: self.failed_create || is_told(Reason::FailedCreate, reasons),
            job_already_active: self.job_already_active
                || is_told(Reason::JobAlreadyActive, reasons),
            too_many_missed_times: self.too_many_missed_times
                || is_told(Reason::TooManyMissedTimes, reasons),
            unknown_time_zone: self.unknown_time_zone || is_told(Reason::UnknownTimeZone, reasons),
        }
    }

    fn has(self, reason: Reason) -> bool
        ensures { result ≡ known.has reason self }
    {
        match reason {
            Reason::FailedCreate => self.failed_create,
            Reason::JobAlreadyActive => self.job_already_active,
            Reason::TooManyMissedTimes => self.too_many_missed_times,
            Reason::UnknownTimeZone => self.unknown_time_zone,
        }
    }
}

impl Tellings {
    /// Nothing was read yet.
    pub(crate) fn new(alloc: Global) -> Tellings
        ensures { known.Knows result [] }
    {
        Tellings {
            keys: BTreeMap::new(alloc),
            reasons: Table::new(alloc),
        }
    }

    // The reasons of the key.
    fn told(&self, key: &Key) -> ReasonSet
        ensures { result ≡ known.told self.now.reasons key.now }
    {
        match self.reasons.get(key) {
            Some(reasons) => *reasons,
            None => ReasonSet::new(),
        }
    }

    // Records that the worker took the key, if there is one.
    fn take(&mut self, alloc: Global, number: u64, key: Option<&Key>) -> Result<(), Refusal>
        ensures keys { OnOk result (known.Takes number (option_copied key.entry) self.old.keys
            self.new.keys) }
        ensures reasons { self.new.reasons ≡ self.old.reasons }
        ensures err { IfErr result (λ e. e ≡ OutOfMemory) }
    {
        let Some(key) = key else {
            return Ok(());
        };
        match self.keys.insert(number, key.try_copy(alloc)?) {
            Ok(_) => Ok(()),
            Err(_) => Err(Refusal::OutOfMemory),
        }
    }

    // Adds the reasons to the key that the worker took last.
    fn tell(&mut self, alloc: Global, number: u64, reasons: &[Reason]) -> Result<(), Refusal>
        ensures reasons { OnOk result (known.Tells (known.key_of self.old.keys number) reasons.now
            self.old.reasons self.new.reasons) }
        ensures keys { self.new.keys ≡ self.old.keys }
        ensures err { IfErr result (λ e. e ≡ OutOfMemory) }
    {
        if reasons.is_empty() {
            return Ok(());
        }
        let Some(key) = self.keys.get(&number) else {
            return Ok(());
        };
        let told = self.told(key).with(reasons);
        let key = key.try_copy(alloc)?;
        self.reasons.insert(key, told)
    }

    /// The key that the worker took last.
    pub(crate) fn held(&self, number: u64) -> Option<&Key>
        ensures { option_copied result ≡ known.key_of self.now.keys number }
    {
        self.keys.get(&number)
    }

    /// Takes in the entry that follows those that were read.
    pub(crate) fn note(&mut self, alloc: Global, entry: &Entry) -> Result<(), Refusal>
        ensures ok { OnOk result ((h : List Told) → known.Knows self.old h →
            known.Knows self.new (entry.now ∷ h)) }
        ensures err { IfErr result (λ e. e ≡ OutOfMemory) }
    {
        let number = entry.caller().number;
        self.tell(alloc, number, reasons_told(entry))?;
        self.take(alloc, number, answered_key(entry.answer()))
    }

    /// The reasons in the entries, of which the oldest is the first.
    pub(crate) fn read(alloc: Global, entries: &[Entry]) -> Result<Tellings, Refusal>
        ensures ok { IfOk result (λ t. known.Knows t (reverse entries.now)) }
        ensures err { IfErr result (λ e. e ≡ OutOfMemory) }
    {
        let mut tellings = Tellings::new(alloc);
        for entry in entries {
            tellings.note(alloc, entry)?;
        }
        Ok(tellings)
    }

    /// Whether the key has the reason: by an accepted Finish of a worker that had taken the key.
    pub(crate) fn has(&self, key: &Key, reason: Reason) -> bool
        ensures { result ≡ known.has reason (known.told self.now.reasons key.now) }
    {
        self.told(key).has(reason)
    }
}
