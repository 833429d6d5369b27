ghost use Rattle.std.specs.Prelude.{◌≡◌, ◌≢◌, All, IsTrue, IfOk, IfErr, OnErr};
ghost use Rattle.cj_base.specs.declared.refusal.Refusal.TheVariants.{Estranged, OutOfMemory};
ghost use Rattle.cj_calls.specs.Rows.{is_in_row};
ghost use Rattle.cj_calls.specs.declared.call.Call.TheVariants as Of;
ghost use Rattle.cj_state.specs.Legal.{IsLegal};
ghost use Rattle.cj_world_laws.specs.legal.Exclusive.{Exclusive};
ghost use Rattle.cj_world_laws.specs.once.Once.{Once, Alone};
ghost use Rattle.cj_hub.specs.Receipts.{fresh, IsExact, IsReceipt};
ghost use Rattle.cj_hub.specs.Books.{Fits};
ghost use Rattle.cj_hub.specs.Runs.{IsDeskRefusal, IsWaitRefusal};
ghost use Rattle.cj_hub.specs.States.{IsState};

use crate::book::Book;
use crate::closed::{Closed, NotClosed};
use crate::guarded::{Guarded, NOBODY, Wake, Workers};
use crate::held::HeldDesk;
use crate::pass::Pass;
use crate::receipt::Receipt;
use crate::rest::AtRest;
use crate::state::HubState;
use cj_calls::{Call, Role};
use cj_types::{Limits, Refusal, Version};
use cj_world::Secret;
use std::alloc::Global;
use std::sync::{Condvar, Mutex, MutexGuard, Wait};
use std::thread;

/// A book that threads share. Each of its calls takes the lock and may wait for it.
///
/// A contract knows of the book under the lock only what its type keeps; `operations` says what one
/// call does to it.
pub struct Hub {
    guarded: Mutex<Guarded>,
    // Signalled when a key is in the line for a waiting worker, or there will be none any more.
    keys: Condvar,
    // Signalled when those who wait for rest are to look again.
    rest: Condvar,
}

impl Drop for Hub {
    fn drop(self) {
        let Hub {
            guarded: _,
            keys: _,
            rest: _,
        } = self;
    }
}

impl Hub {
    /// A hub with an empty history. It takes its memory from `alloc`.
    pub fn new(alloc: Global, limits: Limits) -> Result<Hub, Refusal>
        ensures { IfErr result (λ e. e ≡ OutOfMemory) }
    {
        Hub::keyed(alloc, limits, Secret { first: 0, last: 0 })
    }

    /// Such a hub, the hashes of whose queue have a secret.
    pub fn keyed(alloc: Global, limits: Limits, secret: Secret) -> Result<Hub, Refusal>
        ensures { IfErr result (λ e. e ≡ OutOfMemory) }
    {
        let book = Book::keyed(alloc, limits, secret)?;
        Ok(Hub {
            guarded: Mutex::new(Guarded::new(book)),
            keys: Condvar::new(),
            rest: Condvar::new(),
        })
    }

    /// A pass with no receipts.
    pub fn enroll(&self, rt: &impl Wait, role: Role) -> Result<Pass, Refusal>
        ensures ok { IfOk result (λ p. p ≡ fresh p.number role) }
        ensures err { IfErr result (λ e. e ≡ OutOfMemory) }
    {
        self.guarded.lock(rt).enroll(role)
    }

    // Wakes workers that wait for a key.
    fn wake_workers(&self, workers: Workers) {
        match workers {
            Workers::Nobody => {}
            Workers::One => self.keys.notify_one(),
            Workers::All => self.keys.notify_all(),
        }
    }

    // Wakes those who wait for rest.
    fn wake_rest(&self, woken: bool) {
        if woken {
            self.rest.notify_all();
        }
    }

    // Wakes those whom a change concerns.
    pub(crate) fn wake(&self, wake: Wake) {
        self.wake_workers(wake.workers);
        self.wake_rest(wake.rest);
    }

    /// Makes one call of the pass. Its receipt names the caller and the call, has a later place
    /// than the pass's last one, and is added to the pass. A refusal leaves the pass as it was:
    /// Empty, to a Take alone, HistoryFull, Estranged or OutOfMemory.
    pub fn call(&self, rt: &impl Wait, pass: &mut Pass, call: Call) -> Result<Receipt, Refusal>
        ensures ok { IfOk result (λ r. IsReceipt pass.old call r pass.new) }
        ensures row { IfOk result (λ r. IsTrue (is_in_row call r.entry.answer)) }
        ensures which { IfErr result (IsDeskRefusal call) }
        ensures err { OnErr result (pass.new ≡ pass.old) }
    {
        let mut guarded = self.guarded.lock(rt);
        let result = guarded.step(pass, call);
        let wake = match &result {
            Ok(receipt) => guarded.after(receipt),
            Err(_) => NOBODY,
        };
        drop(guarded);
        self.wake(wake);
        result
    }

    /// The hub with its lock held, for calls in a row. Until the desk is dropped each call of the
    /// hub itself waits; one of the same thread waits for ever.
    pub fn hold(&self, rt: &impl Wait) -> HeldDesk<'_> {
        let mut guarded = self.guarded.lock(rt);
        guarded.informer_came();
        HeldDesk::new(self, guarded)
    }

    // The lock for a worker that takes a key. Where the informer has to look at the writes first,
    // the lock is left to it once.
    fn give_way(&self, rt: &impl Wait) -> MutexGuard<'_, Guarded> {
        let guarded = self.guarded.lock(rt);
        if !guarded.is_informer_first() {
            return guarded;
        }
        drop(guarded);
        thread::yield_now();
        self.guarded.lock(rt)
    }

    /// Makes a Take of the pass, and makes it again when it is woken while there is nothing to
    /// take.
    pub fn take_wait(&self, rt: &impl Wait, pass: &mut Pass) -> Result<Receipt, Refusal>
        ensures ok { IfOk result (λ r. IsReceipt pass.old Of.Take r pass.new) }
        ensures row { IfOk result (λ r. IsTrue (is_in_row Of.Take r.entry.answer)) }
        ensures which { IfErr result IsWaitRefusal }
        ensures err { OnErr result (pass.new ≡ pass.old) }
    {
        let mut guarded = self.give_way(rt);
        for _ in rt.forever() {
            let result = guarded.step(pass, Call::Take);
            if let Err(Refusal::Empty) = &result {
                guarded.wait_for_key();
                guarded = self.keys.wait(rt, guarded);
            } else {
                let wake = guarded.after_take(&result);
                drop(guarded);
                self.wake(wake);
                return result;
            }
        }
        unreachable!()
    }

    /// Marks that work was given up.
    pub fn give_up(&self, rt: &impl Wait) {
        let woken = self.guarded.lock(rt).give_up();
        self.wake_rest(woken);
    }

    /// How far the work is, for one who has seen the writes up to the version.
    pub fn state(&self, rt: &impl Wait, seen: Version) -> HubState {
        self.guarded.lock(rt).state(seen)
    }

    /// What shows that the hub is quiet, for one who has seen the writes up to the version, exactly
    /// where the state of the book under the lock is Quiet; else that state.
    pub fn at_rest(&self, rt: &impl Wait, seen: Version) -> Result<AtRest, HubState>
        ensures quiet { IfOk result (λ r. IsState r.book seen HubState.Quiet) }
        ensures err { IfErr result (λ s. s ≢ HubState.Quiet) }
    {
        self.guarded.lock(rt).at_rest(seen)
    }

    /// As `at_rest`, but while work goes on it waits: as long as a key is in the line or held,
    /// nobody gave up, the history has room, and there are fewer than 256 writes after the version.
    pub fn rest_wait(&self, rt: &impl Wait, seen: Version) -> Result<AtRest, HubState>
        ensures quiet { IfOk result (λ r. IsState r.book seen HubState.Quiet) }
        ensures err { IfErr result (λ s. s ≢ HubState.Quiet) }
    {
        let mut guarded = self.guarded.lock(rt);
        for _ in rt.forever() {
            if !guarded.wait_for_rest(seen) {
                return guarded.at_rest(seen);
            }
            guarded = self.rest.wait(rt, guarded);
        }
        unreachable!()
    }

    /// Closes the book, where the passes fit it: then its history is legal, no key was in two
    /// workers' hands, no scheduled time got two Jobs, what was claimed under Forbid or Replace was
    /// made alone, and the entries of each pass are exactly its receipts, in order, each at its
    /// place.
    pub fn close(self, passes: Vec<Pass>) -> Result<Closed, NotClosed>
        ensures exact { IfOk result (λ c. All (IsExact c.history) passes.items) }
        ensures legal { IfOk result (λ c. IsLegal c.limits.window c.history) }
        ensures exclusive { IfOk result (λ c. Exclusive c.history) }
        ensures once { IfOk result (λ c. Once c.limits.window c.history) }
        ensures alone { IfOk result (λ c. Alone c.limits.window c.history) }
        ensures same { IfErr result (λ e. e.passes.items ≡ passes.items) }
        ensures refused { IfErr result (λ e. (All (Fits e.book) e.passes.items → ⊥)
            × (e.refusal ≡ Estranged)) }
    {
        let Hub {
            guarded,
            keys: _,
            rest: _,
        } = self;
        guarded.into_inner().into_book().close(passes)
    }
}
