ghost use Rattle.std.specs.Prelude.{◌≡◌, ◌↔◌, ◌<◌, ◌≤◌, ℕ, Option, [], Some, None, IfOk, IfErr, IsTrue, OnOk, OnErr, option_copied};
ghost use Rattle.std.specs.FinMap as map;
ghost use Rattle.cj_base.specs.declared.refusal.Refusal.TheVariants.{OutOfMemory};
ghost use Rattle.cj_control.specs.declared.deed.Deed.TheVariants.{Asks, Begins, Ends, Hears, Reads, Sends, Ticks};
ghost use Rattle.cj_control.specs.declared.rows.FencedSync.{FencedSync};
ghost use Rattle.cj_control.specs.Parts.{IsExactly};
ghost use Rattle.cj_control.specs.SentFor.{IsOfNoSync, IsSentFor};
ghost use Rattle.cj_control.specs.Syncs.{Adds, GaveUp, HasRoom, IsAsked, IsFree, IsKept, IsNew, MayAsk, Waits, greatest};

use crate::Deed;
use crate::book::Book;
use crate::calls::CronParts;
use crate::rows::FencedSync;
use crate::sent::Request;
use cj_base::{Refusal, Shared, Text};
use cj_fence::{Answer, Call};
use std::alloc::Global;
use std::marker::Model;

/// The syncs under way, and what became of syncs since the deeds were taken last. Whatever is done
/// with a ledger, each of its syncs follows the protocol: contracts see that all its deeds, from
/// the start on, are one path.
pub struct Ledger {
    book: Book,
}

impl Model for Ledger {
    ghost use Rattle.cj_control.specs.Syncs.{IsKept, LedgerView, coded_ledger};

    ghost Value = { LedgerView };

    ghost coded = { coded_ledger };

    ghost view = { λ l. l.book };

    ghost invariant = { λ l. IsKept l.book };
}

impl Drop for Ledger {
    fn drop(self) {
        let Ledger { book } = self;
        drop(book);
    }
}

impl Ledger {
    /// No sync is under way, and nothing was sent; at most `workers` may be under way at a time.
    #[tactic(auto, using(crate::proofs::KeptLemmas::kept_new))]
    pub fn new(alloc: Global, workers: u64) -> Ledger
        ensures { IsNew workers result }
    {
        Ledger {
            book: Book::new(alloc, workers),
        }
    }

    /// Whether there is a worker for one sync more, and a number.
    pub fn has_room(&self) -> bool
        ensures { IsTrue result ↔ HasRoom self.now.syncs }
    {
        self.book.has_room()
    }

    /// Whether there is a number for one request more.
    pub fn has_number(&self) -> bool
        ensures { IsTrue result ↔ (self.now.syncs.next < greatest) }
    {
        self.book.has_number()
    }

    /// Whether a request of this number was sent.
    pub fn has_sent(&self, id: u64) -> bool
        ensures { IsTrue result ↔ ((1 ≤ id) × (id < self.now.syncs.next)) }
    {
        self.book.has_sent(id)
    }

    /// Whether no sync under way is of the CronJob.
    pub fn is_free(&self, name: &Text) -> bool
        ensures { IsTrue result ↔ IsFree name.now self.now.syncs.rows }
    {
        self.book.is_free(name)
    }

    /// A sync of the CronJob begins; its number. Where memory is wanting, all stays as it was.
    #[tactic(auto, using(crate::proofs::KeptLemmas::kept_or_same))]
    pub fn begin(&mut self, alloc: Global, name: Text) -> Result<u64, Refusal>
        requires room { HasRoom self.old.syncs }
        requires free { IsFree name self.old.syncs.rows }
        ensures ok { IfOk result (λ y. Adds (Begins y name) self.old self.new) }
        ensures err { OnErr result (self.new ≡ self.old) }
        ensures memory { IfErr result (λ e. e ≡ OutOfMemory) }
    {
        self.book.begin(alloc, name)
    }

    /// Whether a sync waits for no answer, and the protocol lets it ask this of its own CronJob, at
    /// no moment past what the clock said last.
    pub fn may_ask(&self, number: u64, call: &Call) -> bool
        ensures { IsTrue result ↔ MayAsk number call.now self.now.syncs }
    {
        self.book.may_ask(number, call)
    }

    /// The clock says a moment, in seconds since 1970. Where memory is wanting, all stays as it
    /// was.
    #[tactic(auto, using(crate::proofs::KeptLemmas::kept_on_same))]
    pub fn tick(&mut self, moment: u64) -> Result<(), Refusal>
        ensures ok { OnOk result (Adds (Ticks moment) self.old self.new) }
        ensures err { OnErr result (self.new ≡ self.old) }
        ensures memory { IfErr result (λ e. e ≡ OutOfMemory) }
    {
        self.book.tick(moment)
    }

    /// What the clock said last, in seconds since 1970; 0 before the first time.
    pub fn clock(&self) -> u64
        ensures { result ≡ self.now.syncs.clock }
    {
        self.book.clock()
    }

    /// A sync asks what lists and watches told. Where memory is wanting, the sync is given up, or
    /// nothing changed.
    #[tactic(auto, using(crate::proofs::KeptLemmas::kept_on_up))]
    pub fn ask(&mut self, number: u64, call: Shared<Call>) -> Result<(), Refusal>
        requires { MayAsk number call self.old.syncs }
        ensures ok { OnOk result (Adds (Asks number call) self.old self.new) }
        ensures waits { OnOk result (Waits number None self.new.syncs.rows) }
        ensures err { OnErr result (GaveUp number self.old self.new) }
        ensures memory { IfErr result (λ e. e ≡ OutOfMemory) }
    {
        self.book.ask(number, call)
    }

    /// A sync asks the API server by a request, which is the one of the call by these parts of a
    /// CronJob; the request's number.
    /// Where memory is wanting, the sync is given up, or nothing changed.
    #[tactic(auto, using(crate::proofs::KeptLemmas::kept_or_up))]
    pub fn send(
        &mut self,
        number: u64,
        parts: Shared<CronParts>,
        call: Shared<Call>,
        request: Request,
    ) -> Result<u64, Refusal>
        requires may { MayAsk number call self.old.syncs }
        requires says { IsSentFor call request }
        requires exact { IsExactly parts call request }
        requires number { self.old.syncs.next < greatest }
        ensures ok { IfOk result (λ id.
            Adds (Sends number id parts call request) self.old self.new) }
        ensures err { OnErr result (GaveUp number self.old self.new) }
        ensures memory { IfErr result (λ e. e ≡ OutOfMemory) }
    {
        self.book.send(number, parts, call, request)
    }

    /// A request of no sync is sent; its number. Where memory is wanting, all stays as it was.
    #[tactic(auto, using(crate::proofs::KeptLemmas::kept_or_same))]
    pub fn read(&mut self, request: Request) -> Result<u64, Refusal>
        requires says { IsOfNoSync request }
        requires number { self.old.syncs.next < greatest }
        ensures ok { IfOk result (λ id. Adds (Reads id request) self.old self.new) }
        ensures err { OnErr result (self.new ≡ self.old) }
        ensures memory { IfErr result (λ e. e ≡ OutOfMemory) }
    {
        self.book.read(request)
    }

    /// What a sync waits for the answer to.
    pub fn asked(&self, number: u64) -> Result<Shared<Call>, Refusal>
        requires { (id : Option ℕ) × Waits number id self.now.syncs.rows }
        ensures ok { IfOk result (λ c. IsAsked number c self.now.syncs.rows) }
        ensures err { IfErr result (λ e. e ≡ OutOfMemory) }
    {
        self.book.asked(number)
    }

    /// A sync hears the answer to what it asked. Where memory is wanting, the sync is given up, or
    /// nothing changed.
    #[tactic(auto, using(crate::proofs::KeptLemmas::kept_on_up))]
    pub fn hear(&mut self, alloc: Global, number: u64, answer: Answer) -> Result<(), Refusal>
        requires { (id : Option ℕ) × Waits number id self.old.syncs.rows }
        ensures ok { OnOk result (Adds (Hears number answer) self.old self.new) }
        ensures err { OnErr result (GaveUp number self.old self.new) }
        ensures memory { IfErr result (λ e. e ≡ OutOfMemory) }
    {
        self.book.hear(alloc, number, answer)
    }

    /// A sync that is under way ends. Where memory is wanting, all stays as it was.
    #[tactic(auto, using(crate::proofs::KeptLemmas::kept_on_same))]
    pub fn end(&mut self, number: u64) -> Result<(), Refusal>
        requires { (sync : FencedSync) × (map.get self.old.syncs.rows number ≡ Some sync) }
        ensures ok { OnOk result (Adds (Ends number) self.old self.new) }
        ensures err { OnErr result (self.new ≡ self.old) }
        ensures memory { IfErr result (λ e. e ≡ OutOfMemory) }
    {
        self.book.end(number)
    }

    /// The deeds since they were taken last, the oldest first.
    #[tactic(auto, using(crate::proofs::KeptLemmas::kept_taken))]
    pub fn take_deeds(&mut self, alloc: Global) -> Vec<Deed>
        ensures deeds { result.items ≡ self.old.deeds }
        ensures kept { IsKept self.old }
        ensures after { self.new ≡ record self.old { deeds = [] } }
    {
        self.book.take_deeds(alloc)
    }

    /// The sync of the number, if it is under way.
    pub fn get(&self, number: u64) -> Option<&FencedSync>
        ensures { option_copied result ≡ map.get self.now.syncs.rows number }
    {
        self.book.get(number)
    }
}
