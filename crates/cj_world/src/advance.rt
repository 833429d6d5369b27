ghost use Rattle.std.specs.Prelude.{◌≡◌, ◌<◌, ◌∷◌, Ok, Err, IfOk, IfErr, OnErr, vec_len, vec_capacity};
ghost use mathlib.Core.List.{reverse};
ghost use Rattle.cj_store.specs.Content.{HasRoom};
ghost use Rattle.cj_base.specs.declared.refusal.Refusal.TheVariants.{OutOfMemory};
ghost use Rattle.cj_state.specs.Sound.{IsSound};
ghost use Rattle.cj_world_laws.specs.legal.Answers.{is_empty};
ghost use Rattle.cj_world.specs.Worlds.{Advanced, receipts_of};

use crate::step::step;
use cj_base::both;
use cj_calls::{Answer, Call, Caller, Entry};
use cj_state::State;
use cj_types::{Refusal, Shared};
use std::alloc::Global;

/// What a call answered, and its entry twice, where it was entered.
#[derive(Drop)]
pub struct Made {
    pub answer: Answer,
    pub receipts: Option<(Entry, Entry)>,
}

// The call once more for each of two receipts.
fn twice(call: &Shared<Call>) -> Result<(Shared<Call>, Shared<Call>), Refusal>
    ensures ok { IfOk result (λ c. (c.0 ≡ call.now) × (c.1 ≡ call.now)) }
    ensures err { IfErr result (λ e. e ≡ OutOfMemory) }
{
    both(call.share(), call.share())
}

fn is_empty(answer: &Answer) -> bool
    ensures { result ≡ is_empty answer.now }
{
    matches!(answer, Err(Refusal::Empty))
}

// Adds the entry.
fn push(entries: &mut Vec<Entry>, entry: Entry)
    requires { vec_len entries.old < vec_capacity entries.old }
    ensures { reverse entries.new.items ≡ entry ∷ reverse entries.old.items }
{
    entries.push_reserved(entry);
}

/// Makes the call on the state, and adds its entry, which shares the call, where its answer is one
/// that is entered. Where there is no memory all is as it was.
#[tactic(auto, using(crate::proofs::Keeps::row_given, crate::proofs::Keeps::advanced_entered, crate::proofs::Keeps::receipts_entered, crate::proofs::Keeps::receipts_empty))]
pub(crate) fn advance(
    alloc: Global,
    state: &mut State,
    entries: &mut Vec<Entry>,
    caller: &Caller,
    call: Shared<Call>,
) -> Result<Made, Refusal>
    requires room { HasRoom state.old.store }
    requires sound { IsSound state.old }
    requires place { vec_len entries.old < vec_capacity entries.old }
    ensures made { IfOk result (λ m. Advanced state.old (reverse entries.old.items) caller.now
        call m.answer state.new (reverse entries.new.items)) }
    ensures receipts { IfOk result (λ m. m.receipts ≡ receipts_of caller.now call m.answer) }
    ensures err { OnErr result ((state.new ≡ state.old) × (entries.new ≡ entries.old)) }
    ensures memory { IfErr result (λ e. e ≡ OutOfMemory) }
{
    let (first, second) = twice(&call)?;
    let parts = step(alloc, state, caller, &call)?.parts();
    if is_empty(&parts.answer) {
        return Ok(Made {
            answer: parts.answer,
            receipts: None,
        });
    }
    push(entries, Entry::new(*caller, call, parts.entered));
    let first = Entry::new(*caller, first, parts.first);
    let second = Entry::new(*caller, second, parts.second);
    Ok(Made {
        answer: parts.answer,
        receipts: Some((first, second)),
    })
}
