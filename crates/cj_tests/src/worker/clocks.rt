// Clocks of the tests: one that stands still, and one that is moved on.
use cj_types::{Millis, Seconds};
use cj_worker::{Clock, Reading};
use std::process::Abort;
use std::sync::atomic::{AtomicBool, Ordering};

fn reading(rt: &impl Abort, seconds: u64) -> Reading {
    let seconds = Seconds::new(seconds).expect(rt, "a moment");
    let millis = Millis::from(seconds);
    Reading { seconds, millis }
}

/// It shows one moment.
#[derive(Clone, Copy)]
pub struct Still {
    at: Reading,
}

/// A clock that shows so many seconds after 1970.
pub fn clock_at(rt: &impl Abort, seconds: u64) -> Still {
    let at = reading(rt, seconds);
    Still { at }
}

impl Clock for Still {
    ghost gives = { λ c r. Unit {0} };

    fn now(&self) -> Reading {
        self.at
    }
}

/// It shows one moment, and another once it is moved on.
#[derive(Drop)]
pub struct Moving {
    first: Reading,
    second: Reading,
    has_moved: AtomicBool,
}

/// A clock that shows the first of the two moments, in seconds after 1970.
pub fn clock_between(rt: &impl Abort, first: u64, second: u64) -> Moving {
    Moving {
        first: reading(rt, first),
        second: reading(rt, second),
        has_moved: AtomicBool::new(false),
    }
}

impl Moving {
    pub fn move_on(&self) {
        self.has_moved.store(true, Ordering::SeqCst);
    }
}

impl Clock for Moving {
    ghost gives = { λ c r. Unit {0} };

    fn now(&self) -> Reading {
        if self.has_moved.load(Ordering::SeqCst) {
            self.second
        } else {
            self.first
        }
    }
}
