use cj_queue::Secret;
use std::sync::atomic::{AtomicU64, Ordering};

/// How far a run is, for another thread to read meanwhile, and the secret of the hashes of its
/// queues. No clause speaks of them.
#[derive(Drop)]
pub struct Meter {
    secret: Secret,
    over: AtomicU64,
    all: AtomicU64,
}

impl Meter {
    /// A meter of no run yet, with a secret that everybody knows.
    pub fn new() -> Meter {
        Meter::keyed(Secret { first: 0, last: 0 })
    }

    /// A meter of no run yet.
    pub fn keyed(secret: Secret) -> Meter {
        Meter {
            secret,
            over: AtomicU64::new(0),
            all: AtomicU64::new(0),
        }
    }

    /// The secret.
    pub fn secret(&self) -> Secret {
        self.secret
    }

    /// Records that a run of `all` instants begins.
    pub(crate) fn begin(&self, all: u64) {
        self.all.store(all, Ordering::SeqCst);
    }

    /// Records that another instant is over.
    pub(crate) fn advance(&self) {
        self.over.fetch_add(1, Ordering::SeqCst);
    }

    /// How many instants are over.
    pub fn over(&self) -> u64 {
        self.over.load(Ordering::SeqCst)
    }

    /// How many instants the run has, 0 before it begins.
    pub fn all(&self) -> u64 {
        self.all.load(Ordering::SeqCst)
    }
}
