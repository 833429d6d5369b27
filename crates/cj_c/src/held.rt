// A timetable that a caller keeps.
ghost use Rattle.std.specs.Prelude.{◌≡◌, IfSome, IsSome, true, false, ◌↔◌};
ghost use Rattle.cj_c.specs.declared.timetable.Timetable.{Timetable};
ghost use Rattle.cj_c.specs.Held.{held_owns, timetable_coded};

use crate::parts::Parts;
use crate::timetable::Timetable;
use std::alloc::Global;
use std::marker::Model;

/// A timetable on the heap, or none, as a caller keeps it.
#[repr(C)]
#[derive(Drop)]
pub struct Held {
    at: *mut u8,
    alloc: Global,
    pub full: bool,
    pub ghost timetable: { Timetable } by { timetable_coded },
}

impl Model for Held {
    ghost also_owns = { λ h. held_owns h.full h.alloc h.at h.timetable };
}

impl Held {
    // What keeps nothing.
    fn empty(alloc: Global) -> Held
        ensures { result.full ≡ false }
    {
        let at: *mut u8 = std::ptr::null_mut();
        let full = false;
        Held { at, alloc, full }
    }

    // What keeps these parts.
    fn of_parts(parts: Parts<Timetable, Global>) -> Held
        ensures { (result.full ≡ true) × (result.timetable ≡ parts.value) }
    {
        let Parts { ptr, alloc } = parts;
        let at = ptr as *mut u8;
        let full = true;
        Held { at, alloc, full }
    }

    // The parts that are kept.
    fn into_parts(self) -> Parts<Timetable, Global>
        requires { self.full ≡ true }
        ensures { result.value ≡ self.timetable }
    {
        let Held { at, alloc, full: _ } = self;
        let ptr = at as *mut Timetable;
        Parts { ptr, alloc }
    }

    // Whether it keeps anything, and itself.
    fn told(self) -> (bool, Held)
        ensures { (result.0 ≡ self.full) × (result.1 ≡ self) }
    {
        let Held { at, alloc, full } = self;
        let held = Held { at, alloc, full };
        (full, held)
    }

    /// What keeps this timetable.
    pub fn of(timetable: Box<Timetable, Global>) -> Held
        ensures full { result.full ≡ true }
        ensures value { result.timetable ≡ timetable.value }
    {
        Held::of_parts(Parts::of(timetable))
    }

    /// What is kept, if anything is.
    pub fn into_box(self) -> Option<Box<Timetable, Global>>
        ensures some { IsSome result ↔ (self.full ≡ true) }
        ensures value { IfSome result (λ b. b.value ≡ self.timetable) }
    {
        let (full, held) = self.told();
        if full {
            Some(held.into_parts().into_box())
        } else {
            None
        }
    }

    /// What was kept, of which none is left.
    pub fn take(&mut self, alloc: Global) -> Option<Box<Timetable, Global>>
        ensures left { self.new.full ≡ false }
        ensures some { IsSome result ↔ (self.old.full ≡ true) }
        ensures value { IfSome result (λ b. b.value ≡ self.old.timetable) }
    {
        std::mem::replace(self, Held::empty(alloc)).into_box()
    }

    /// Keeps this timetable. What was kept before is given up.
    pub fn put(&mut self, timetable: Box<Timetable, Global>)
        ensures full { self.new.full ≡ true }
        ensures value { self.new.timetable ≡ timetable.value }
    {
        drop(std::mem::replace(self, Held::of(timetable)).into_box());
    }
}
