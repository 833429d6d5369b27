ghost use Rattle.std.specs.Prelude.{◌≡◌, ◌↔◌, ◌+◌, ◌<◌, ◌^◌, ◌==◌, if◌then◌else◌, ℕ, [], ◌∷◌, ◌++◌, true, false, Some, length, All, IfOk, OnOk, OnErr, IfErr, IsTrue, IsOk, is_some, slice_get, slice_index_or, map, vec_len};
ghost use mathlib.Core.List.{reverse};
ghost use Rattle.cj_base.specs.declared.refusal.Refusal.TheVariants.{Estranged, OutOfMemory};
ghost use Rattle.cj_queue.specs.Queue.{first};
ghost use Rattle.cj_state.specs.Legal.{IsLegal};
ghost use Rattle.cj_world_laws.specs.legal.Exclusive.{Exclusive};
ghost use Rattle.cj_world_laws.specs.legal.Rest.{IsAtRest};
ghost use Rattle.cj_world_laws.specs.once.Once.{Once, Alone};
ghost use Rattle.cj_hub.specs.Receipts.{fresh, IsExact};
ghost use Rattle.cj_hub.specs.Books.{not_enrolled, state_in, Fits, IsEnrolled, IsEntered, IsFull, IsUnentered, Knows};
ghost use Rattle.cj_hub.specs.States.{IsState};

use crate::closed::{Closed, NotClosed};
use crate::enrolled::Enrolled;
use crate::exact::{is_exact, stands};
use crate::pass::Pass;
use crate::receipt::Receipt;
use crate::state::HubState;
use cj_calls::{Call, Caller, Entry, Role};
use cj_types::{Limits, Refusal, Shared, Version};
use cj_world::{Secret, World};
use std::alloc::{AllocError, Global};
use std::marker::Model;

/// A world, and who is enrolled to make calls on it.
///
/// Contracts see its limits, its history with the newest entry first, the role of each pass by its
/// number, and whether work on it was given up. Its type keeps that it counts each pass's entries.
pub struct Book {
    alloc: Global,
    limits: Limits,
    world: World,
    enrolled: Vec<Enrolled>,
    given_up: bool,
}

impl Model for Book {
    ghost use Rattle.std.specs.Prelude.{◌≡◌, map};
    ghost use Rattle.cj_hub.specs.Books.{BookView, IsCounted};

    ghost Value = { BookView };

    ghost view = { λ b. record {
      limits = b.world.limits;
      history = b.world.history;
      roles = map (λ s. s.role) b.enrolled.items;
      given_up = b.given_up;
    } };

    ghost invariant = { λ b. (b.limits ≡ b.world.limits)
        × IsCounted b.enrolled.items b.world.history };
}

// Counts one entry more of the pass with the number.
fn count_one(enrolled: &mut Vec<Enrolled>, number: usize)
    requires enrolled { number < vec_len enrolled.old }
    requires fits { (slice_index_or enrolled.old.items number not_enrolled).count + 1 < 2 ^ 64 }
    ensures roles { map (λ s. s.role) enrolled.new.items ≡ map (λ s. s.role) enrolled.old.items }
    ensures counts { (k : ℕ) → (slice_index_or enrolled.new.items k not_enrolled).count
        ≡ (slice_index_or enrolled.old.items k not_enrolled).count
        + (if number == k then 1 else 0) }
{
    enrolled[number].count += 1;
}

// Does nothing but show the checker what the world's type keeps of its history.
fn shows_promise(world: &World)
    ensures legal { IsLegal world.now.limits.window world.now.history }
    ensures exclusive { Exclusive world.now.history }
    ensures once { Once world.now.limits.window world.now.history }
    ensures alone { Alone world.now.limits.window world.now.history }
{
    world.history();
}

impl Drop for Book {
    fn drop(self) {
        let Book {
            alloc: _,
            limits: _,
            world: _,
            enrolled: _,
            given_up: _,
        } = self;
    }
}

impl Book {
    /// A book with an empty history, in which nobody is enrolled. It takes its memory from `alloc`.
    pub fn new(alloc: Global, limits: Limits) -> Result<Book, Refusal>
        ensures ok { IfOk result (λ b. b ≡ record {
          limits = limits;
          history = [];
          roles = [];
          given_up = false;
        }) }
        ensures err { IfErr result (λ e. e ≡ OutOfMemory) }
    {
        Book::keyed(alloc, limits, Secret { first: 0, last: 0 })
    }

    /// Such a book, the hashes of whose queue have a secret.
    pub fn keyed(alloc: Global, limits: Limits, secret: Secret) -> Result<Book, Refusal>
        ensures ok { IfOk result (λ b. b ≡ record {
          limits = limits;
          history = [];
          roles = [];
          given_up = false;
        }) }
        ensures err { IfErr result (λ e. e ≡ OutOfMemory) }
    {
        let world = World::keyed(alloc, limits, secret)?;
        Ok(Book {
            alloc,
            limits,
            world,
            enrolled: Vec::new(alloc),
            given_up: false,
        })
    }

    /// A pass of the next number, with no receipts.
    pub fn enroll(&mut self, role: Role) -> Result<Pass, Refusal>
        ensures pass { IfOk result (λ p. p ≡ fresh (length self.old.roles) role) }
        ensures book { OnOk result (self.new ≡ record self.old {
          roles = self.old.roles ++ role ∷ [];
        }) }
        ensures which { IfErr result (λ e. e ≡ OutOfMemory) }
        ensures err { OnErr result (self.new ≡ self.old) }
    {
        let number = self.enrolled.len() as u64;
        self.enrolled
            .push(Enrolled { role, count: 0 })
            .map_err(AllocError::from)?;
        Ok(Pass {
            number,
            role,
            receipts: Vec::new(self.alloc),
        })
    }

    // All entries, the oldest first.
    fn entries(&self) -> &[Entry]
        ensures value { result.now ≡ reverse self.now.history }
        ensures short { length self.now.history < 2 ^ 25 }
    {
        self.world.history()
    }

    fn is_enrolled(&self, pass: &Pass) -> bool
        ensures { IsTrue result ↔ IsEnrolled self.now pass.now }
    {
        match self.enrolled.get(pass.number as usize) {
            Some(enrolled) => enrolled.role == pass.role,
            None => false,
        }
    }

    /// Whether the book enrolled the pass with this role, counts its receipts, and has the last of
    /// them at its place.
    pub(crate) fn knows(&self, pass: &Pass) -> bool
        ensures { IsTrue result ↔ Knows self.now pass.now }
    {
        if !self.is_enrolled(pass) {
            return false;
        }
        if self.enrolled[pass.number as usize].count != pass.receipts.as_slice().len() as u64 {
            return false;
        }
        match pass.receipts.as_slice().last() {
            Some(last) => stands(self.entries(), last),
            None => true,
        }
    }

    /// Whether the history has as many entries as its limit.
    pub(crate) fn is_full(&self) -> bool
        ensures { IsTrue result ↔ IsFull self.now }
    {
        self.entries().len() >= self.limits.history() as usize
    }

    #[tactic(auto, using(crate::proofs::Entered::added, crate::proofs::Entered::unentered))]
    /// Makes one call of an enrolled caller, and gives the receipt of it twice where it was
    /// entered. The entry and both receipts share the call.
    pub(crate) fn enter(
        &mut self,
        caller: &Caller,
        call: Call,
    ) -> Result<(Receipt, Receipt), Refusal>
        requires enrolled { slice_get self.old.roles caller.now.number ≡ Some caller.now.role }
        requires room { length self.old.history < self.old.limits.history }
        ensures twice { IfOk result (λ r. r.0 ≡ r.1) }
        ensures entered { IfOk result (λ r. IsEntered self.old caller.now call r.0 self.new) }
        ensures which { IfErr result (IsUnentered (state_in self.old) call) }
        ensures err { OnErr result (self.new ≡ self.old) }
    {
        let place = self.entries().len() as u64 + 1;
        let shared = Shared::new(self.alloc, call)?;
        let (kept, given) = self.world.enter_shared(caller, shared)?;
        count_one(&mut self.enrolled, caller.number as usize);
        Ok((
            Receipt { place, entry: kept },
            Receipt {
                place,
                entry: given,
            },
        ))
    }

    fn fits(&self, pass: &Pass) -> bool
        ensures { IsTrue result ↔ Fits self.now pass.now }
    {
        let enrolled = self.is_enrolled(pass);
        enrolled && is_exact(self.entries(), pass.number, pass.receipts.as_slice())
    }

    fn all_fit(&self, passes: &[Pass]) -> bool
        ensures { IsTrue result ↔ All (Fits self.now) passes.now }
    {
        passes.iter().all(|pass| self.fits(pass))
    }

    /// Closes the book. It is refused exactly where a pass isn't one that the book enrolled with
    /// this role, or its receipts aren't exactly its entries, in order, each at its place; then
    /// book and passes come back.
    pub fn close(self, passes: Vec<Pass>) -> Result<Closed, NotClosed>
        ensures ok { IsOk result ↔ All (Fits self) passes.items }
        ensures history { IfOk result (λ c. (c.limits ≡ self.limits) × (c.history ≡ self.history)) }
        ensures exact { OnOk result (All (IsExact self.history) passes.items) }
        ensures legal { OnOk result (IsLegal self.limits.window self.history) }
        ensures exclusive { OnOk result (Exclusive self.history) }
        ensures once { OnOk result (Once self.limits.window self.history) }
        ensures alone { OnOk result (Alone self.limits.window self.history) }
        ensures same { IfErr result (λ e. (e.book ≡ self) × (e.passes.items ≡ passes.items)) }
        ensures refusal { IfErr result (λ e. e.refusal ≡ Estranged) }
    {
        if self.all_fit(passes.as_slice()) {
            shows_promise(&self.world);
            let Book {
                alloc: _,
                limits: _,
                world,
                enrolled: _,
                given_up: _,
            } = self;
            Ok(Closed::new(world))
        } else {
            Err(NotClosed {
                book: self,
                passes,
                refusal: Refusal::Estranged,
            })
        }
    }

    /// Whether work on the book was given up, or the history has as many entries as its limit.
    pub(crate) fn is_over(&self) -> bool {
        self.given_up || self.is_full()
    }

    /// Whether a key is in the line.
    pub(crate) fn has_next(&self) -> bool
        ensures { result ≡ is_some (first (state_in self.now).queue.row.line) }
    {
        self.world.has_next()
    }

    /// Whether no key is in the line, and nobody holds one.
    pub(crate) fn at_rest(&self) -> bool
        ensures { IsTrue result ↔ IsAtRest (state_in self.now) }
    {
        self.world.at_rest()
    }

    /// How many writes came after the version.
    pub(crate) fn writes_after(&self, seen: Version) -> u64 {
        self.world.version().get().saturating_sub(seen.get())
    }

    /// Marks that work on the book was given up.
    pub(crate) fn give_up(&mut self)
        ensures { self.new ≡ record self.old { given_up = true } }
    {
        self.given_up = true;
    }

    /// How far the work is, for one who has seen the writes up to the version.
    pub(crate) fn state(&self, seen: Version) -> HubState
        ensures { IsState self.now seen result }
    {
        if self.given_up {
            return HubState::Broken;
        }
        let stored = self.world.version() == seen;
        let fed = self.world.fed() == seen;
        if !(stored && fed) {
            return HubState::Behind;
        }
        if self.at_rest() {
            HubState::Quiet
        } else {
            HubState::Busy
        }
    }
}
