// Closings, by what they tell.
use cj_hub::{Closed, NotClosed, Receipt};
use std::mem;

/// How many entries the history of a closed book has, and how many of the receipts stand in it.
pub type Counts = [usize; 2];

fn count_in(closed: &Closed, receipts: &[Receipt]) -> usize {
    let mut count = 0usize;
    for receipt in receipts {
        if closed.has(receipt) {
            count = count.saturating_add(1);
        }
    }
    count
}

/// The same where the book was closed, else nothing.
pub fn counts(closing: Result<Closed, NotClosed>, receipts: &[Receipt]) -> Counts {
    let counts = match &closing {
        Ok(closed) => [closed.history().len(), count_in(closed, receipts)],
        Err(_) => [0; 2],
    };
    mem::forget(closing);
    counts
}
