ghost use Rattle.std.specs.Prelude.{◌≡◌, ◌↔◌, ◌<◌, ◌≤◌, ℕ, Option, [], Some, None, IfOk, IfErr, IsTrue, OnOk, OnErr, option_copied};
ghost use Rattle.std.specs.FinMap as map;
ghost use Rattle.cj_base.specs.declared.refusal.Refusal.TheVariants.{OutOfMemory};
ghost use Rattle.cj_control.specs.declared.deed.Deed.TheVariants.{Asks, Begins, Ends, Hears, Reads, Sends, Ticks};
ghost use Rattle.cj_control.specs.declared.rows.FencedSync.{FencedSync};
ghost use Rattle.cj_control.specs.Parts.{IsExactly};
ghost use Rattle.cj_control.specs.SentFor.{IsOfNoSync, IsSentFor};
ghost use Rattle.cj_control.specs.Syncs.{Adds, GaveUp, HasRoom, IsAsked, IsFree, IsNew, IsTimely, MayAsk, Waits, greatest};

use crate::Deed;
use crate::calls::CronParts;
use crate::rows::{FencedSync, SyncRows};
use crate::sent::Request;
use cj_base::{Refusal, Shared, Text, TryCopy};
use cj_fence::{Answer, Call, Sync};
use std::alloc::Global;
use std::marker::Model;
use std::mem;

/// What a ledger has, with no word on how it came to be.
pub(crate) struct Book {
    rows: SyncRows,
    begun: u64,
    live: u64,
    workers: u64,
    next: u64,
    clock: u64,
    deeds: Vec<Deed>,
}

impl Model for Book {
    ghost use Rattle.cj_control.specs.Syncs.{LedgerView, coded_ledger};

    ghost Value = { LedgerView };

    ghost coded = { coded_ledger };

    ghost view = { λ l. record {
      syncs = record {
        rows = l.rows;
        begun = l.begun;
        live = l.live;
        workers = l.workers;
        next = l.next;
        clock = l.clock;
      };
      deeds = l.deeds.items;
    } };
}

impl Drop for Book {
    fn drop(self) {
        let Book {
            rows: _,
            begun: _,
            live: _,
            workers: _,
            next: _,
            clock: _,
            deeds: _,
        } = self;
    }
}

// Whether a call is of no moment past what the clock said last.
fn is_timely(clock: u64, call: &Call) -> bool
    ensures { IsTrue result ↔ IsTimely clock call.now }
{
    match call {
        Call::Expire(_, _, moment) => *moment <= clock,
        _ => true,
    }
}

impl Book {
    /// No sync is under way, and nothing was sent; at most `workers` may be under way at a time.
    pub fn new(alloc: Global, workers: u64) -> Book
        ensures { IsNew workers result }
    {
        Book {
            rows: SyncRows::new(alloc),
            begun: 0,
            live: 0,
            workers,
            next: 1,
            clock: 0,
            deeds: Vec::new(alloc),
        }
    }

    /// Whether there is a worker for one sync more, and a number.
    pub fn has_room(&self) -> bool
        ensures { IsTrue result ↔ HasRoom self.now.syncs }
    {
        self.live < self.workers && self.begun < u64::MAX
    }

    /// Whether there is a number for one request more.
    pub fn has_number(&self) -> bool
        ensures { IsTrue result ↔ (self.now.syncs.next < greatest) }
    {
        self.next < u64::MAX
    }

    /// Whether a request of this number was sent.
    pub fn has_sent(&self, id: u64) -> bool
        ensures { IsTrue result ↔ ((1 ≤ id) × (id < self.now.syncs.next)) }
    {
        1 <= id && id < self.next
    }

    /// Whether no sync under way is of the CronJob.
    pub fn is_free(&self, name: &Text) -> bool
        ensures { IsTrue result ↔ IsFree name.now self.now.syncs.rows }
    {
        self.rows.is_free(name)
    }

    /// A sync of the CronJob begins; its number. Where memory is wanting, all stays as it was.
    pub fn begin(&mut self, alloc: Global, name: Text) -> Result<u64, Refusal>
        requires room { HasRoom self.old.syncs }
        requires free { IsFree name self.old.syncs.rows }
        ensures ok { IfOk result (λ y. Adds (Begins y name) self.old self.new) }
        ensures err { OnErr result (self.new ≡ self.old) }
        ensures memory { IfErr result (λ e. e ≡ OutOfMemory) }
    {
        let number = self.begun;
        self.deeds.reserve(1)?;
        let row = FencedSync {
            name: name.try_copy(alloc)?,
            sync: Sync::Fresh,
            asked: None,
            id: None,
        };
        self.rows.insert(number, row)?;
        self.begun = number + 1;
        self.live += 1;
        self.deeds.push_reserved(Deed::Begins(number, name));
        Ok(number)
    }

    /// Whether a sync waits for no answer, and the protocol lets it ask this of its own CronJob, at
    /// no moment past what the clock said last.
    pub fn may_ask(&self, number: u64, call: &Call) -> bool
        ensures { IsTrue result ↔ MayAsk number call.now self.now.syncs }
    {
        let is_timely = is_timely(self.clock, call);
        self.rows.may_ask(number, call) && is_timely
    }

    /// The clock says a moment. Where memory is wanting, all stays as it was.
    pub fn tick(&mut self, moment: u64) -> Result<(), Refusal>
        ensures ok { OnOk result (Adds (Ticks moment) self.old self.new) }
        ensures err { OnErr result (self.new ≡ self.old) }
        ensures memory { IfErr result (λ e. e ≡ OutOfMemory) }
    {
        self.deeds.reserve(1)?;
        self.clock = moment;
        self.deeds.push_reserved(Deed::Ticks(moment));
        Ok(())
    }

    /// What the clock said last, in seconds since 1970; 0 before the first time.
    pub fn clock(&self) -> u64
        ensures { result ≡ self.now.syncs.clock }
    {
        self.clock
    }

    /// A sync asks what lists and watches told. Where memory is wanting, the sync is given up, or
    /// nothing changed.
    #[tactic(auto, using(crate::proofs::RowLemmas::asked_waits))]
    pub fn ask(&mut self, number: u64, call: Shared<Call>) -> Result<(), Refusal>
        requires { MayAsk number call self.old.syncs }
        ensures ok { OnOk result (Adds (Asks number call) self.old self.new) }
        ensures waits { OnOk result (Waits number None self.new.syncs.rows) }
        ensures err { OnErr result (GaveUp number self.old self.new) }
        ensures memory { IfErr result (λ e. e ≡ OutOfMemory) }
    {
        self.deeds.reserve(1)?;
        let kept = call.share()?;
        match self.rows.ask(number, kept, None) {
            Ok(()) => {
                self.deeds.push_reserved(Deed::Asks(number, call));
                Ok(())
            }
            Err(refusal) => {
                self.live = self.live.saturating_sub(1);
                self.deeds.push_reserved(Deed::Ends(number));
                Err(refusal)
            }
        }
    }

    /// A sync asks the API server by a request, which is the one of the call by these parts of a
    /// CronJob; the request's number.
    /// Where memory is wanting, the sync is given up, or nothing changed.
    pub fn send(
        &mut self,
        number: u64,
        parts: Shared<CronParts>,
        call: Shared<Call>,
        request: Request,
    ) -> Result<u64, Refusal>
        requires may { MayAsk number call self.old.syncs }
        requires says { IsSentFor call request }
        requires exact { IsExactly parts call request }
        requires number { self.old.syncs.next < greatest }
        ensures ok { IfOk result (λ id.
            Adds (Sends number id parts call request) self.old self.new) }
        ensures err { OnErr result (GaveUp number self.old self.new) }
        ensures memory { IfErr result (λ e. e ≡ OutOfMemory) }
    {
        let id = self.next;
        self.deeds.reserve(1)?;
        let kept = call.share()?;
        match self.rows.ask(number, kept, Some(id)) {
            Ok(()) => {
                self.next = id + 1;
                self.deeds
                    .push_reserved(Deed::Sends(number, id, parts, call, request));
                Ok(id)
            }
            Err(refusal) => {
                self.live = self.live.saturating_sub(1);
                self.deeds.push_reserved(Deed::Ends(number));
                Err(refusal)
            }
        }
    }

    /// A request of no sync is sent; its number. Where memory is wanting, all stays as it was.
    pub fn read(&mut self, request: Request) -> Result<u64, Refusal>
        requires says { IsOfNoSync request }
        requires number { self.old.syncs.next < greatest }
        ensures ok { IfOk result (λ id. Adds (Reads id request) self.old self.new) }
        ensures err { OnErr result (self.new ≡ self.old) }
        ensures memory { IfErr result (λ e. e ≡ OutOfMemory) }
    {
        let id = self.next;
        self.deeds.reserve(1)?;
        self.next = id + 1;
        self.deeds.push_reserved(Deed::Reads(id, request));
        Ok(id)
    }

    /// What a sync waits for the answer to.
    pub fn asked(&self, number: u64) -> Result<Shared<Call>, Refusal>
        requires { (id : Option ℕ) × Waits number id self.now.syncs.rows }
        ensures ok { IfOk result (λ c. IsAsked number c self.now.syncs.rows) }
        ensures err { IfErr result (λ e. e ≡ OutOfMemory) }
    {
        let Some(sync) = self.get(number) else {
            unreachable!()
        };
        match &sync.asked {
            Some(call) => call.share(),
            None => unreachable!(),
        }
    }

    /// A sync hears the answer to what it asked. Where memory is wanting, the sync is given up, or
    /// nothing changed.
    pub fn hear(&mut self, alloc: Global, number: u64, answer: Answer) -> Result<(), Refusal>
        requires { (id : Option ℕ) × Waits number id self.old.syncs.rows }
        ensures ok { OnOk result (Adds (Hears number answer) self.old self.new) }
        ensures err { OnErr result (GaveUp number self.old self.new) }
        ensures memory { IfErr result (λ e. e ≡ OutOfMemory) }
    {
        self.deeds.reserve(1)?;
        match self.rows.hear(alloc, number, &answer) {
            Ok(()) => {
                self.deeds.push_reserved(Deed::Hears(number, answer));
                Ok(())
            }
            Err(refusal) => {
                self.live = self.live.saturating_sub(1);
                self.deeds.push_reserved(Deed::Ends(number));
                Err(refusal)
            }
        }
    }

    /// A sync that is under way ends. Where memory is wanting, all stays as it was.
    pub fn end(&mut self, number: u64) -> Result<(), Refusal>
        requires { (sync : FencedSync) × (map.get self.old.syncs.rows number ≡ Some sync) }
        ensures ok { OnOk result (Adds (Ends number) self.old self.new) }
        ensures err { OnErr result (self.new ≡ self.old) }
        ensures memory { IfErr result (λ e. e ≡ OutOfMemory) }
    {
        self.deeds.reserve(1)?;
        self.rows.end(number);
        self.live = self.live.saturating_sub(1);
        self.deeds.push_reserved(Deed::Ends(number));
        Ok(())
    }

    /// The deeds since they were taken last, the oldest first.
    pub fn take_deeds(&mut self, alloc: Global) -> Vec<Deed>
        ensures deeds { result.items ≡ self.old.deeds }
        ensures after { self.new ≡ record self.old { deeds = [] } }
    {
        mem::replace(&mut self.deeds, Vec::new(alloc))
    }

    /// The sync of the number, if it is under way.
    pub fn get(&self, number: u64) -> Option<&FencedSync>
        ensures { option_copied result ≡ map.get self.now.syncs.rows number }
    {
        self.rows.get(number)
    }
}
