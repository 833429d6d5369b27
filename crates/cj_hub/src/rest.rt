//! What shows that a hub was quiet.
ghost use Rattle.std.specs.Prelude.{◌≡◌, ◌≢◌, IfErr, IfOk};
ghost use Rattle.cj_hub.specs.States.{IsState};

use crate::book::Book;
use crate::state::HubState;
use cj_types::Version;
use std::marker::Model;
use std::snapshot::Snapshot;

/// Shows that a book was quiet when it was asked: nobody had given up, the version seen was that of
/// the last write, the listings knew of every write, no key was in the line, and none was held.
///
/// Contracts see the book as it was, and the version. The hub alone makes it.
#[derive(Drop)]
pub struct AtRest {
    book: Snapshot<Book>,
    seen: Version,
}

impl Model for AtRest {
    ghost use Rattle.cj_hub.specs.States.{IsState, Rest};
    ghost use Rattle.cj_hub.specs.declared.state.HubState.TheVariants.{Quiet};

    ghost Value = { Rest };

    ghost view = { λ r. record { book = r.book.value; seen = r.seen } };

    ghost invariant = { λ r. IsState r.book.value r.seen Quiet };
}

/// How far the work is, for one who has seen the writes up to the version; where it is Quiet, what
/// shows that.
pub(crate) fn rest_of(book: &Book, seen: Version) -> Result<AtRest, HubState>
    ensures ok { IfOk result (λ r. r ≡ record { book = book.now; seen = seen }) }
    ensures err { IfErr result (λ s. (s ≢ HubState.Quiet) × IsState book.now seen s) }
{
    match book.state(seen) {
        HubState::Quiet => Ok(AtRest {
            book: Snapshot::of(book),
            seen,
        }),
        state => Err(state),
    }
}
