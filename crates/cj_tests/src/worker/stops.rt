// A gate that stops one key's sync for good, and tells how far another key has come.
use cj_types::Key;
use cj_worker::{Gate, Point, Turn};
use std::sync::atomic::{AtomicBool, AtomicU64, Ordering};
use std::thread;

/// Stops the sync of `a` at one point, and counts the Jobs of `b`.
#[derive(Drop)]
pub struct StopsAt {
    point: Point,
    stopped: AtomicBool,
    made: AtomicU64,
}

impl StopsAt {
    pub fn new(point: Point) -> StopsAt {
        StopsAt {
            point,
            stopped: AtomicBool::new(false),
            made: AtomicU64::new(0),
        }
    }

    /// Waits until `a` is stopped and so many Jobs of `b` are made, or for a million polls. Answers
    /// whether it came to that.
    pub fn waits_for(&self, made: u64) -> bool {
        for _ in 0..1_000_000u32 {
            if self.stopped.load(Ordering::SeqCst) && self.made.load(Ordering::SeqCst) >= made {
                return true;
            }
            thread::yield_now();
        }
        false
    }
}

impl Gate for StopsAt {
    ghost may_stop = { λ _ _ _. Unit {0} };

    fn at(&self, point: Point, key: &Key) -> Turn {
        if key.name() == "b" && point == Point::Made {
            self.made.fetch_add(1, Ordering::SeqCst);
        }
        if key.name() == "a" && point == self.point {
            self.stopped.store(true, Ordering::SeqCst);
            Turn::Stop
        } else {
            Turn::Go
        }
    }
}
