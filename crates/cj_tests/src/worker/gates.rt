// A gate that disturbs a sync.
use crate::worker::fixtures::made;
use cj_calls::Call;
use cj_hub::{Hub, Pass};
use cj_types::{Key, TryCopy};
use cj_worker::{Gate, Point, Turn};
use std::alloc::Global;
use std::process::Abort;
use std::sync::{Mutex, Wait};

/// Makes calls of another pass when a sync is at the point. They are accepted.
#[derive(Drop)]
pub struct Disturbs<'a, R: Wait + Abort> {
    pub rt: &'a R,
    pub alloc: Global,
    pub hub: &'a Hub,
    pub other: &'a Mutex<Pass>,
    pub calls: &'a [Call],
    pub point: Point,
}

impl<'a, R: Wait + Abort> Disturbs<'a, R> {
    fn disturb(&self) {
        let mut other = self.other.lock(self.rt);
        for call in self.calls {
            let call = call.try_copy(self.alloc).expect(self.rt, "memory");
            made(self.rt, self.hub, &mut other, call);
        }
    }
}

impl<'a, R: Wait + Abort> Gate for Disturbs<'a, R> {
    ghost may_stop = { λ _ _ _. ⊥ };

    fn at(&self, point: Point, _key: &Key) -> Turn {
        if point == self.point {
            self.disturb();
        }
        Turn::Go
    }
}
