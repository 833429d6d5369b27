//! What the calls of a hub do to the book under its lock.
ghost use Rattle.std.specs.Prelude.{◌≡◌, ◌≢◌, ◌↔◌, true, Err, IsTrue, IfOk, IfErr, OnErr};
ghost use Rattle.cj_base.specs.declared.refusal.Refusal.TheVariants.{Estranged, HistoryFull};
ghost use Rattle.cj_calls.specs.Rows.{is_in_row};
ghost use Rattle.cj_hub.specs.Receipts.{Follows};
ghost use Rattle.cj_hub.specs.Books.{state_in, IsFull, IsHubRefusal, IsStep, Knows};
ghost use Rattle.cj_hub.specs.States.{IsState};

use crate::book::Book;
use crate::pass::Pass;
use crate::receipt::Receipt;
use crate::rest::{AtRest, rest_of};
use crate::state::HubState;
use cj_calls::Call;
use cj_types::{Refusal, Version};

/// Makes one call of the pass on the book.
///
/// It is refused with Estranged exactly where the book doesn't know the pass, next with HistoryFull
/// exactly at a full history; with Empty at most for a Take where the line is empty and the queue
/// isn't shut; and else at most for want of memory. Each refusal leaves book and pass as they were.
/// Otherwise the call is the next entry, with the answer that the history gives, and the pass gets
/// the receipt too.
#[tactic(auto, using(crate::proofs::Placed::follows))]
pub fn step(book: &mut Book, pass: &mut Pass, call: Call) -> Result<Receipt, Refusal>
    ensures estranged { (result ≡ Err Estranged) ↔ (Knows book.old pass.old → ⊥) }
    ensures full { (result ≡ Err HistoryFull) ↔ (Knows book.old pass.old × IsFull book.old) }
    ensures which { IfErr result (IsHubRefusal (state_in book.old) call) }
    ensures ok { IfOk result (λ r. IsStep book.old pass.old call r book.new pass.new) }
    ensures later { IfOk result (λ r. Follows pass.old.receipts r.place) }
    ensures row { IfOk result (λ r. IsTrue (is_in_row call r.entry.answer)) }
    ensures err { OnErr result ((book.new ≡ book.old) × (pass.new ≡ pass.old)) }
{
    if !book.knows(pass) {
        return Err(Refusal::Estranged);
    }
    if book.is_full() {
        return Err(Refusal::HistoryFull);
    }
    pass.receipts.reserve(1)?;
    let (kept, given) = book.enter(&pass.caller(), call)?;
    pass.receipts.push_reserved(kept);
    given.shows_row();
    Ok(given)
}

/// Marks that work on the book was given up. Nothing is entered.
pub fn give_up(book: &mut Book)
    ensures { book.new ≡ record book.old { given_up = true } }
{
    book.give_up();
}

/// How far the work is, for one who has seen the writes up to the version: the first of Broken,
/// Behind, Quiet and Busy that holds. Nothing is entered.
pub fn state(book: &Book, seen: Version) -> HubState
    ensures { IsState book.now seen result }
{
    book.state(seen)
}

/// What shows that the book is quiet, for one who has seen the writes up to the version, exactly
/// where its state is Quiet; else its state. Nothing is entered.
pub fn at_rest(book: &Book, seen: Version) -> Result<AtRest, HubState>
    ensures ok { IfOk result (λ r. r ≡ record { book = book.now; seen = seen }) }
    ensures quiet { IfOk result (λ r. IsState book.now seen HubState.Quiet) }
    ensures err { IfErr result (λ s. (s ≢ HubState.Quiet) × IsState book.now seen s) }
{
    rest_of(book, seen)
}
