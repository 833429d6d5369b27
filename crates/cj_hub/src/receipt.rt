ghost use Rattle.std.specs.Prelude.{◌≡◌, IsTrue};
ghost use Rattle.cj_calls.specs.Rows.{is_in_row};

use cj_calls::{Answer, Call, Caller, Entry};
use cj_types::{Refusal, Same, TryCopy};
use std::alloc::Global;

/// An entry of a history with its place; the first entry has place 1. It shares the entry with the
/// history.
pub struct Receipt {
    pub(crate) place: u64,
    pub(crate) entry: Entry,
}

impl Drop for Receipt {
    fn drop(self) {
        let Receipt { place: _, entry: _ } = self;
    }
}

impl Receipt {
    /// The place of the entry in the history.
    pub fn place(&self) -> u64
        ensures { result ≡ self.now.place }
    {
        self.place
    }

    /// Who made the call.
    pub fn caller(&self) -> Caller
        ensures { result ≡ self.now.entry.caller }
    {
        self.entry.caller()
    }

    /// The call.
    pub fn call(&self) -> &Call
        ensures value { result.now ≡ self.now.entry.call }
        ensures row { IsTrue (is_in_row self.now.entry.call self.now.entry.answer) }
    {
        self.entry.call()
    }

    /// Does nothing but show the checker that the answer is one that the call can have, which the
    /// entry's type keeps.
    pub(crate) fn shows_row(&self)
        ensures { IsTrue (is_in_row self.now.entry.call self.now.entry.answer) }
    {
        self.call();
    }

    /// What the call was answered.
    pub fn answer(&self) -> &Answer
        ensures { result.now ≡ self.now.entry.answer }
    {
        self.entry.answer()
    }
}

impl TryCopy for Receipt {
    fn try_copy(&self, alloc: Global) -> Result<Receipt, Refusal> {
        Ok(Receipt {
            place: self.place,
            entry: self.entry.try_copy(alloc)?,
        })
    }
}

impl Same for Receipt {
    fn same(&self, other: &Receipt) -> bool {
        let entry = self.entry.same(&other.entry);
        entry && self.place == other.place
    }
}
