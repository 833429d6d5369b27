ghost use Rattle.std.specs.Prelude.{◌≡◌, IsTrue};
ghost use Rattle.cj_calls.specs.Rows.{is_in_row};

use crate::{Answer, Call, Caller};
use cj_base::both;
use cj_types::{Refusal, Shared, TryCopy};
use std::alloc::Global;
use std::marker::Model;

/// A call that was made, with its answer. Copies share both.
///
/// Its type keeps that the answer is one that this call can have: a reply of its kind, one of its
/// refusals, or `NotPermitted`. A call that found the queue empty, or no memory, has no entry.
pub struct Entry {
    caller: Caller,
    call: Shared<Call>,
    answer: Shared<Answer>,
}

impl Model for Entry {
    ghost use Rattle.std.specs.Prelude.{IsTrue};
    ghost use Rattle.cj_calls.specs.Rows.{Told, is_in_row};

    ghost Value = { Told };

    ghost view = { λ e. record { caller = e.caller; call = e.call; answer = e.answer } };

    ghost invariant = { λ e. IsTrue (is_in_row e.call e.answer) };
}

impl Drop for Entry {
    fn drop(self) {
        let Entry {
            caller: _,
            call: _,
            answer: _,
        } = self;
    }
}

impl Entry {
    /// The entry of a call and its answer.
    pub fn new(caller: Caller, call: Shared<Call>, answer: Shared<Answer>) -> Entry
        requires { IsTrue (is_in_row call answer) }
        ensures { result ≡ record { caller = caller; call = call; answer = answer } }
    {
        Entry {
            caller,
            call,
            answer,
        }
    }

    /// Who made the call.
    pub fn caller(&self) -> Caller
        ensures { result ≡ self.now.caller }
    {
        self.caller
    }

    /// The call.
    pub fn call(&self) -> &Call
        ensures value { result.now ≡ self.now.call }
        ensures row { IsTrue (is_in_row self.now.call self.now.answer) }
    {
        self.call.get()
    }

    /// The answer of the call.
    pub fn answer(&self) -> &Answer
        ensures { result.now ≡ self.now.answer }
    {
        self.answer.get()
    }
}

impl TryCopy for Entry {
    fn try_copy(&self, alloc: Global) -> Result<Entry, Refusal> {
        let (call, answer) = both(self.call.try_copy(alloc), self.answer.try_copy(alloc))?;
        Ok(Entry {
            caller: self.caller,
            call,
            answer,
        })
    }
}
