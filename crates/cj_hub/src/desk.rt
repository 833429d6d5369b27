//! What calls go through: a hub that threads share, or a book of one's own.
ghost use Rattle.std.specs.Prelude.{◌≡◌, [], ◌∷◌, ◌++◌, Bool, true, false, Err, IsTrue, IfOk, IfErr, OnOk, OnErr, length};
ghost use Rattle.cj_base.specs.declared.refusal.Refusal.TheVariants.{OutOfMemory};
ghost use Rattle.cj_types.specs.WorldLimits.{kept};
ghost use Rattle.cj_calls.specs.Rows.{is_in_row};
ghost use Rattle.cj_world.specs.Worlds.{WorldLog, state_in};
ghost use Rattle.cj_hub.specs.Receipts.{fresh, IsReceipt};
ghost use Rattle.cj_hub.specs.Books.{BookView, FindsNothing, IsFull};
ghost use Rattle.cj_hub.specs.Runs.{FoundFull, IsDeskRefusal, IsFullHistory, IsTurnedAway, TellsFull};

use crate::book::Book;
use crate::hub::Hub;
use crate::operations;
use crate::pass::Pass;
use crate::receipt::Receipt;
use cj_calls::{Call, Role};
use cj_types::{Limits, Refusal};
use std::alloc::Global;
use std::marker::Model;
use std::sync::Wait;

/// What calls go through.
pub trait Desk {
    /// Whether contracts know the desk's history.
    ghost tells: { Bool };

    /// The history with its limits, where contracts know it.
    ghost history: { Self → WorldLog };

    /// What the desk shows where its last call was answered HistoryFull.
    ghost refused_full: { Self → Type 0 };

    /// Makes one call of the pass. Its receipt names the caller and the call, has a later place
    /// than the pass's last one, and is added to the pass; its answer is one that the call can
    /// have. A refusal leaves the pass as it was.
    ///
    /// A history that is known gains just the receipt's entry, and nothing at a refusal. Empty is
    /// answered only where the line is empty and the queue isn't shut. HistoryFull is answered only
    /// at a full history, and there to every call of a pass that isn't Estranged.
    fn call(&mut self, pass: &mut Pass, call: Call) -> Result<Receipt, Refusal>
        ensures ok { IfOk result (λ r. IsReceipt pass.old call r pass.new) }
        ensures row { IfOk result (λ r. IsTrue (is_in_row call r.entry.answer)) }
        ensures which { IfErr result (IsDeskRefusal call) }
        ensures err { OnErr result (pass.new ≡ pass.old) }
        ensures told { IsTrue tells → IfOk result
            (λ r. history self.new ≡ record (history self.old) {
              history = r.entry ∷ (history self.old).history;
            }) }
        ensures kept { IsTrue tells → OnErr result (history self.new ≡ history self.old) }
        ensures empty { IsTrue tells → result ≡ Err Refusal.Empty →
            FindsNothing (state_in (history self.old)) call }
        ensures full { TellsFull result
            (FoundFull tells (history self.new) (refused_full self.new)) }
        ensures no_room { IsTrue tells → IsFullHistory (history self.old) →
            IsTurnedAway result };
}

/// A hub that threads share, with the handle for waiting. A Take waits for a key.
#[derive_where(Clone, Copy)]
pub struct HubDesk<'a, R: Wait> {
    hub: &'a Hub,
    rt: &'a R,
    // Whether the last call was answered HistoryFull.
    full: bool,
}

impl<'a, R: Wait> HubDesk<'a, R> {
    /// Calls go through the hub.
    pub fn new(hub: &'a Hub, rt: &'a R) -> HubDesk<'a, R> {
        HubDesk {
            hub,
            rt,
            full: false,
        }
    }

    // Makes the call at the hub.
    fn ask_hub(&self, pass: &mut Pass, call: Call) -> Result<Receipt, Refusal>
        ensures ok { IfOk result (λ r. IsReceipt pass.old call r pass.new) }
        ensures row { IfOk result (λ r. IsTrue (is_in_row call r.entry.answer)) }
        ensures which { IfErr result (IsDeskRefusal call) }
        ensures err { OnErr result (pass.new ≡ pass.old) }
    {
        if let Call::Take = &call {
            self.hub.take_wait(self.rt, pass)
        } else {
            self.hub.call(self.rt, pass, call)
        }
    }
}

pub(crate) fn is_full(answer: &Result<Receipt, Refusal>) -> bool
    ensures { TellsFull answer.now (result ≡ true) }
{
    matches!(answer, Err(Refusal::HistoryFull))
}

impl<'a, R: Wait> Desk for HubDesk<'a, R> {
    ghost tells = { false };

    ghost history = { λ _. record { limits = kept 0 0; history = [] } };

    ghost refused_full = { λ d. d.full ≡ true };

    fn call(&mut self, pass: &mut Pass, call: Call) -> Result<Receipt, Refusal> {
        let result = self.ask_hub(pass, call);
        self.full = is_full(&result);
        result
    }
}

/// A book of one's own, which waits for nobody.
pub struct PlainDesk {
    book: Book,
}

impl Model for PlainDesk {
    ghost Value = { BookView };

    ghost view = { λ d. d.book };
}

impl Drop for PlainDesk {
    fn drop(self) {
        let PlainDesk { book: _ } = self;
    }
}

impl PlainDesk {
    /// A desk with an empty history, at which nobody is enrolled.
    pub fn new(alloc: Global, limits: Limits) -> Result<PlainDesk, Refusal>
        ensures ok { IfOk result (λ d. d ≡ record {
          limits = limits;
          history = [];
          roles = [];
          given_up = false;
        }) }
        ensures err { IfErr result (λ e. e ≡ OutOfMemory) }
    {
        Ok(PlainDesk {
            book: Book::new(alloc, limits)?,
        })
    }

    /// A pass of the next number, with no receipts.
    pub fn enroll(&mut self, role: Role) -> Result<Pass, Refusal>
        ensures pass { IfOk result (λ p. p ≡ fresh (length self.old.roles) role) }
        ensures book { OnOk result (self.new ≡ record self.old {
          roles = self.old.roles ++ role ∷ [];
        }) }
        ensures which { IfErr result (λ e. e ≡ OutOfMemory) }
        ensures err { OnErr result (self.new ≡ self.old) }
    {
        self.book.enroll(role)
    }

    /// The book.
    pub fn into_book(self) -> Book
        ensures { result ≡ self }
    {
        let PlainDesk { book } = self;
        book
    }
}

impl Desk for PlainDesk {
    ghost tells = { true };

    ghost history = { λ d. record { limits = d.limits; history = d.history } };

    ghost refused_full = { IsFull };

    #[tactic(auto, using(crate::proofs::Full::no_room, crate::proofs::Full::found_full))]
    fn call(&mut self, pass: &mut Pass, call: Call) -> Result<Receipt, Refusal> {
        operations::step(&mut self.book, pass, call)
    }
}
