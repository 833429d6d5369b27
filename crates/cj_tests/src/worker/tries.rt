// A gate at which others go on: an informer, and a worker that tries to take.
use crate::hub::answers::called;
use crate::worker::fixtures::made;
use cj_calls::Call;
use cj_hub::{Hub, Pass};
use cj_types::{Key, TryCopy};
use cj_worker::{Gate, Point, Turn};
use std::alloc::Global;
use std::process::Abort;
use std::sync::atomic::{AtomicU64, Ordering};
use std::sync::{Mutex, Wait};

/// When the time is claimed, the informer makes each of the calls, which is accepted, and after
/// each the other worker tries to take. It is counted how often that found nothing.
#[derive(Drop)]
pub struct Tries<'a, R: Wait + Abort> {
    pub rt: &'a R,
    pub alloc: Global,
    pub hub: &'a Hub,
    pub informer: &'a Mutex<Pass>,
    pub other: &'a Mutex<Pass>,
    pub calls: &'a [Call],
    pub empty: &'a AtomicU64,
}

impl<'a, R: Wait + Abort> Tries<'a, R> {
    fn try_to_take(&self) {
        let mut other = self.other.lock(self.rt);
        if called(self.rt, self.hub, &mut other, Call::Take) == "Empty" {
            self.empty.fetch_add(1, Ordering::SeqCst);
        }
    }

    fn go_on(&self) {
        let mut informer = self.informer.lock(self.rt);
        for call in self.calls {
            let call = call.try_copy(self.alloc).expect(self.rt, "memory");
            made(self.rt, self.hub, &mut informer, call);
            self.try_to_take();
        }
    }
}

impl<'a, R: Wait + Abort> Gate for Tries<'a, R> {
    ghost may_stop = { λ _ _ _. ⊥ };

    fn at(&self, point: Point, _key: &Key) -> Turn {
        if point == Point::Claimed {
            self.go_on();
        }
        Turn::Go
    }
}
