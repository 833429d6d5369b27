// A gate that lets one key's sync wait for another's.
use cj_types::Key;
use cj_worker::{Gate, Point, Turn};
use std::sync::atomic::{AtomicBool, Ordering};
use std::thread;

/// Holds the sync of `a` at Listed until the Job of `b` is made, or for a million polls.
#[derive(Drop)]
pub struct TwoKeys {
    made: AtomicBool,
    gave_up: AtomicBool,
}

impl TwoKeys {
    /// A gate at which no Job is made yet.
    pub fn new() -> TwoKeys {
        TwoKeys {
            made: AtomicBool::new(false),
            gave_up: AtomicBool::new(false),
        }
    }

    /// Whether the polls ran out.
    pub fn has_given_up(&self) -> bool {
        self.gave_up.load(Ordering::SeqCst)
    }

    fn wait(&self) {
        for _ in 0..1_000_000u32 {
            if self.made.load(Ordering::SeqCst) {
                return;
            }
            thread::yield_now();
        }
        self.gave_up.store(true, Ordering::SeqCst);
    }
}

impl Gate for TwoKeys {
    ghost may_stop = { λ _ _ _. ⊥ };

    fn at(&self, point: Point, key: &Key) -> Turn {
        if point == Point::Listed && key.name() == "a" {
            self.wait();
        }
        if point == Point::Made && key.name() == "b" {
            self.made.store(true, Ordering::SeqCst);
        }
        Turn::Go
    }
}
