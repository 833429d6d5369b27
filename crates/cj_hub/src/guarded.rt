//! What the lock of a hub guards, and who is woken.
ghost use Rattle.std.specs.Prelude.{IsTrue, IfOk, IfErr, OnErr, ◌≡◌, ◌≢◌};
ghost use Rattle.cj_base.specs.declared.refusal.Refusal.TheVariants.{OutOfMemory};
ghost use Rattle.cj_calls.specs.Rows.{is_in_row};
ghost use Rattle.cj_hub.specs.Receipts.{fresh, IsReceipt};
ghost use Rattle.cj_hub.specs.Runs.{IsDeskRefusal};
ghost use Rattle.cj_hub.specs.States.{IsState};

use crate::book::Book;
use crate::operations;
use crate::pass::Pass;
use crate::receipt::Receipt;
use crate::rest::AtRest;
use crate::state::HubState;
use cj_calls::{Call, Role};
use cj_types::{Refusal, Version};

// After this number of writes that the informer hasn't seen it is woken.
const MANY: u64 = 256;

/// Which of the waiting workers are woken.
#[derive(Clone, Copy)]
pub(crate) enum Workers {
    Nobody,
    One,
    All,
}

/// Whom a change under the lock wakes.
#[derive(Clone, Copy)]
pub(crate) struct Wake {
    pub workers: Workers,
    // Whether the informer that waits for rest is woken.
    pub rest: bool,
}

/// Nobody is woken.
pub(crate) const NOBODY: Wake = Wake {
    workers: Workers::Nobody,
    rest: false,
};

/// A book, and who waits for what.
///
/// A worker that is about to sleep counts itself under the lock, and gives the lock up only by
/// sleeping. Whoever wakes workers takes them off the count under the same hold of the lock in
/// which his call changed the book. So the count is never less than the number that sleeps.
pub(crate) struct Guarded {
    book: Book,
    // How many workers wait for a key and haven't been woken yet, at most.
    waiting_workers: usize,
    // The earliest version seen by those who wait for rest; none once they are woken.
    earliest_version_seen: Option<Version>,
    // Whether the informer has to look at the writes before any worker takes a key. It is so from
    // when the informer is woken, or finds work to do, until it holds the lock or waits again.
    informer_first: bool,
}

impl Drop for Guarded {
    fn drop(self) {
        let Guarded {
            book: _,
            waiting_workers: _,
            earliest_version_seen: _,
            informer_first: _,
        } = self;
    }
}

// Whether the call may leave a key in the line for which no worker was woken: a new one, or one
// behind the one that was taken.
fn may_leave_a_key(call: &Call) -> bool {
    match call {
        Call::Add(_) | Call::Finish(..) | Call::Tick(_) | Call::Take => true,
        _ => false,
    }
}

// The earlier of two versions, of which one may be missing.
fn earlier(a: Option<Version>, b: Version) -> Version {
    match a {
        Some(a) if a.get() < b.get() => a,
        _ => b,
    }
}

impl Guarded {
    /// A book for which nobody waits.
    pub(crate) fn new(book: Book) -> Guarded {
        Guarded {
            book,
            waiting_workers: 0,
            earliest_version_seen: None,
            informer_first: false,
        }
    }

    /// The book alone.
    pub(crate) fn into_book(self) -> Book {
        let Guarded {
            book,
            waiting_workers: _,
            earliest_version_seen: _,
            informer_first: _,
        } = self;
        book
    }

    /// A pass with no receipts.
    pub(crate) fn enroll(&mut self, role: Role) -> Result<Pass, Refusal>
        ensures ok { IfOk result (λ p. p ≡ fresh p.number role) }
        ensures err { IfErr result (λ e. e ≡ OutOfMemory) }
    {
        self.book.enroll(role)
    }

    /// Makes one call of the pass on the book.
    pub(crate) fn step(&mut self, pass: &mut Pass, call: Call) -> Result<Receipt, Refusal>
        ensures ok { IfOk result (λ r. IsReceipt pass.old call r pass.new) }
        ensures row { IfOk result (λ r. IsTrue (is_in_row call r.entry.answer)) }
        ensures which { IfErr result (IsDeskRefusal call) }
        ensures err { OnErr result (pass.new ≡ pass.old) }
    {
        operations::step(&mut self.book, pass, call)
    }

    /// How far the work is, for one who has seen the writes up to the version.
    pub(crate) fn state(&self, seen: Version) -> HubState {
        operations::state(&self.book, seen)
    }

    /// What shows that the book is quiet, for one who has seen the writes up to the version, or how
    /// far the work is.
    pub(crate) fn at_rest(&self, seen: Version) -> Result<AtRest, HubState>
        ensures quiet { IfOk result (λ r. IsState r.book seen HubState.Quiet) }
        ensures err { IfErr result (λ s. s ≢ HubState.Quiet) }
    {
        operations::at_rest(&self.book, seen)
    }

    /// Whether a worker is to leave the lock to the informer first.
    pub(crate) fn is_informer_first(&self) -> bool {
        self.informer_first
    }

    /// The informer holds the lock: no worker has to give way any more.
    pub(crate) fn informer_came(&mut self) {
        self.informer_first = false;
    }

    /// Counts one worker more that is about to wait for a key.
    pub(crate) fn wait_for_key(&mut self) {
        self.waiting_workers = self.waiting_workers.saturating_add(1);
    }

    /// Whether one who waits for rest, and has seen the writes up to the version, may go on
    /// waiting: work goes on, a key is in the line or held, and few writes came that it hasn't
    /// seen.
    pub(crate) fn may_wait_for_rest(&self, seen: Version) -> bool {
        !self.book.is_over() && !self.book.at_rest() && self.book.writes_after(seen) < MANY
    }

    /// Whether one who has seen the writes up to the version is now to wait for rest.
    pub(crate) fn wait_for_rest(&mut self, seen: Version) -> bool {
        let waits = self.may_wait_for_rest(seen);
        self.informer_first = !waits;
        if waits {
            self.earliest_version_seen = Some(earlier(self.earliest_version_seen, seen));
        }
        waits
    }

    // One of the waiting workers is woken, where a key is in the line.
    fn wake_next(&mut self) -> Workers {
        if self.waiting_workers == 0 || !self.book.has_next() {
            return Workers::Nobody;
        }
        self.waiting_workers = self.waiting_workers.saturating_sub(1);
        Workers::One
    }

    // All waiting workers are woken at the end of the queue and at a full history; else one, where
    // a key may be left that nobody was woken for.
    fn wake_workers(&mut self, is_shut: bool, may_leave_a_key: bool) -> Workers {
        if self.waiting_workers == 0 {
            return Workers::Nobody;
        }
        if is_shut || self.book.is_full() {
            self.waiting_workers = 0;
            return Workers::All;
        }
        if may_leave_a_key {
            self.wake_next()
        } else {
            Workers::Nobody
        }
    }

    // Whether those who wait for rest are woken.
    fn wake_rest(&mut self) -> bool {
        let Some(seen) = self.earliest_version_seen else {
            return false;
        };
        if self.may_wait_for_rest(seen) {
            return false;
        }
        self.earliest_version_seen = None;
        self.informer_first = true;
        true
    }

    /// Marks that work was given up. Answers whether those who wait for rest are woken.
    pub(crate) fn give_up(&mut self) -> bool {
        operations::give_up(&mut self.book);
        self.wake_rest()
    }

    // Whom a change wakes: by whether the queue was shut, and whether a key may be left in the
    // line.
    fn wake(&mut self, is_shut: bool, may_leave_a_key: bool) -> Wake {
        let workers = self.wake_workers(is_shut, may_leave_a_key);
        let rest = self.wake_rest();
        Wake { workers, rest }
    }

    /// Whom a call wakes that was entered.
    pub(crate) fn after(&mut self, receipt: &Receipt) -> Wake {
        let call = receipt.call();
        self.wake(matches!(call, Call::Shut), may_leave_a_key(call))
    }

    /// Whom calls in a row wake, of which one may have shut the queue.
    pub(crate) fn after_calls(&mut self, is_shut: bool) -> Wake {
        self.wake(is_shut, true)
    }

    /// Whom a Take wakes that waited no longer. One that was refused may have been woken for a key
    /// that another worker can take.
    pub(crate) fn after_take(&mut self, answered: &Result<Receipt, Refusal>) -> Wake {
        match answered {
            Ok(receipt) => self.after(receipt),
            Err(_) => {
                let workers = self.wake_next();
                Wake {
                    workers,
                    rest: false,
                }
            }
        }
    }
}
