ghost use Rattle.std.specs.Prelude.{IfErr, IfOk};
ghost use Rattle.cj_yaml.specs.Places.{IsPlaceIn};

use crate::chars::{byte, part};
use crate::fault::{Fault, FaultKind, Stop};
use crate::place::Place;
use crate::quoted::quoted_text;
use crate::scalar::plain_key;
use std::alloc::Global;

/// A step from a value to one in it: the member of an object, or the item of an array.
#[derive(Clone, Copy)]
pub enum Step<'a> {
    Key(&'a str),
    Item(usize),
}

// Where a value begins, where its key stands, and which spot is the first behind those of the
// values in it. An item of a list has an empty key.
#[derive(Clone, Copy, Drop)]
pub(crate) struct Spot {
    pub at: usize,
    pub key_at: usize,
    pub key_end: usize,
    pub next: usize,
}

/// Where the values of a document stand in the text that it was read from.
#[derive(Drop)]
pub struct Places {
    // (in the order of reading, each value before those in it)
    pub(crate) spots: Vec<Spot>,
}

// The text of a key that was read.
fn key_text(alloc: Global, text: &[u8], spot: &Spot) -> Result<String, Stop> {
    let first = byte(text, spot.key_at);
    if first == b'"' || first == b'\'' {
        return quoted_text(alloc, text, spot.key_at, spot.key_end.saturating_sub(1));
    }
    let bytes = Vec::from_slice(alloc, part(text, spot.key_at, spot.key_end))?;
    match String::from_utf8(bytes) {
        Ok(plain) => plain_key(alloc, plain, spot.key_at),
        Err(_) => Err(Stop::new(FaultKind::NotUtf8, spot.key_at)),
    }
}

impl Places {
    // The spot of the value of a key or number in the value of a spot.
    fn child(
        &self,
        alloc: Global,
        text: &[u8],
        parent: usize,
        step: &Step<'_>,
    ) -> Result<Option<usize>, Stop> {
        let end = match self.spots.get(parent) {
            Some(spot) => spot.next,
            None => 0,
        };
        let mut number = parent.saturating_add(1);
        let mut count = 0usize;
        for _ in number..end {
            let Some(spot) = self.spots.get(number) else {
                break;
            };
            if number >= end {
                break;
            }
            if is_step(alloc, text, spot, count, step)? {
                return Ok(Some(number));
            }
            number = spot.next;
            count = count.saturating_add(1);
        }
        Ok(None)
    }

    /// The place of the value that the steps lead to, or of the deepest value on the way that is
    /// there. The text is that which the document was read from.
    pub fn nearest(&self, alloc: Global, text: &[u8], path: &[Step<'_>]) -> Result<Place, Fault>
        ensures place { IfOk result (λ p. IsPlaceIn text.now p) }
        ensures fault { IfErr result (λ f. IsPlaceIn text.now f.place) }
    {
        let mut number = 0usize;
        for step in path {
            match self.child(alloc, text, number, step) {
                Ok(Some(found)) => number = found,
                Ok(None) => break,
                Err(stop) => {
                    return Err(Fault {
                        kind: stop.kind,
                        place: Place::of(text, stop.at),
                    });
                }
            }
        }
        let at = match self.spots.get(number) {
            Some(spot) => spot.at,
            None => 0,
        };
        Ok(Place::of(text, at))
    }
}

// Whether a spot is what a step leads to; it is that of the value of this number in its parent.
fn is_step(
    alloc: Global,
    text: &[u8],
    spot: &Spot,
    count: usize,
    step: &Step<'_>,
) -> Result<bool, Stop> {
    match step {
        Step::Item(number) => Ok(*number == count && spot.key_at == spot.key_end),
        Step::Key(name) => if spot.key_at == spot.key_end {
            Ok(false)
        } else {
            let key = key_text(alloc, text, spot)?;
            Ok(key.as_str() == *name)
        },
    }
}
