ghost use Rattle.std.specs.Prelude.{◌≡◌, IfOk, IfErr};
ghost use Rattle.cj_base.specs.declared.refusal.Refusal.TheVariants.{OutOfMemory};

use crate::Answer;
use crate::reply::copy_answer;
use cj_base::both;
use cj_types::{Heap, Refusal, Shared, TryCopy};
use std::alloc::Global;
use std::marker::Model;

/// The copies of an answer: for the caller, for the history, and for two receipts.
#[derive(Drop)]
pub struct Parts {
    pub answer: Answer,
    pub entered: Shared<Answer>,
    pub first: Shared<Answer>,
    pub second: Shared<Answer>,
}

/// An answer with its copies, which are made before the change of the state, so that nothing after
/// the change takes memory. Contracts see the answer.
///
/// It is on the heap: callers drop one box, and not the parts of each reply.
pub struct Answered {
    parts: Heap<Parts>,
}

impl Model for Answered {
    ghost use Rattle.std.specs.Prelude.{◌≡◌, Result};
    ghost use Rattle.cj_base.specs.declared.refusal.Refusal.{Refusal};
    ghost use Rattle.cj_calls.specs.declared.reply.Reply.{Reply};

    ghost Value = { Result Reply Refusal };

    ghost view = { λ a. a.parts.answer };

    ghost invariant = { λ a. (a.parts.entered ≡ a.parts.answer) × (a.parts.first ≡ a.parts.answer)
        × (a.parts.second ≡ a.parts.answer) };
}

impl Drop for Answered {
    fn drop(self) {
        let Answered { parts: _ } = self;
    }
}

// Three holders of one copy of an answer: for the history, and for two receipts.
type Copies = (Shared<Answer>, Shared<Answer>, Shared<Answer>);

fn copies(alloc: Global, answer: &Answer) -> Result<Copies, Refusal>
    ensures ok { IfOk result (λ c. (c.0 ≡ answer.now) × (c.1 ≡ answer.now) × (c.2 ≡ answer.now)) }
    ensures err { IfErr result (λ e. e ≡ OutOfMemory) }
{
    let entered = Shared::new(alloc, copy_answer(alloc, answer)?)?;
    let (first, second) = both(entered.try_copy(alloc), entered.try_copy(alloc))?;
    Ok((entered, first, second))
}

impl Answered {
    /// The answer with its copies.
    pub fn new(alloc: Global, answer: Answer) -> Result<Answered, Refusal>
        ensures ok { IfOk result (λ a. a ≡ answer) }
        ensures err { IfErr result (λ e. e ≡ OutOfMemory) }
    {
        let copies = copies(alloc, &answer);
        let (copies, answer) = both(copies, Ok(answer))?;
        let (entered, first, second) = copies;
        let parts = Parts {
            answer,
            entered,
            first,
            second,
        };
        let parts = Heap::new(alloc, parts)?;
        Ok(Answered { parts })
    }

    /// The copies of the answer.
    pub fn parts(self) -> Parts
        ensures answer { result.answer ≡ self }
        ensures entered { result.entered ≡ self }
        ensures first { result.first ≡ self }
        ensures second { result.second ≡ self }
    {
        let Answered { parts } = self;
        parts.into_inner()
    }
}
