//! Whether receipts are entries of a history.
ghost use Rattle.std.specs.Prelude.{◌≡◌, ◌↔◌, IsTrue};
ghost use Rattle.cj_hub.specs.Receipts.{StandsAmong, receipt_of};
ghost use Rattle.cj_hub.specs.Walks.{placed_from};

use crate::receipt::Receipt;
use cj_calls::Entry;
use cj_types::Same;

/// Whether the receipt's entry is at its place among these, the oldest first.
pub(crate) fn stands(entries: &[Entry], receipt: &Receipt) -> bool
    ensures { IsTrue result ↔ StandsAmong entries.now receipt.now }
{
    if receipt.place == 0 {
        return false;
    }
    match entries.get((receipt.place - 1) as usize) {
        Some(entry) => entry.same(&receipt.entry),
        None => false,
    }
}

fn is_of(receipt: &Receipt, place: u64, entry: &Entry) -> bool
    ensures { IsTrue result ↔ (receipt.now ≡ receipt_of place entry.now) }
{
    let same = receipt.entry.same(entry);
    same && receipt.place == place
}

/// Whether the receipts are exactly the entries with the number among these, the oldest first, each
/// at its place.
pub(crate) fn is_exact(entries: &[Entry], number: u64, receipts: &[Receipt]) -> bool
    ensures { IsTrue result ↔ (receipts.now ≡ placed_from number 1 entries.now) }
{
    let mut rest = receipts;
    let mut place = 1u64;
    for entry in entries {
        if entry.caller().number == number {
            let Some((receipt, others)) = rest.split_first() else {
                return false;
            };
            if !is_of(receipt, place, entry) {
                return false;
            }
            rest = others;
        }
        place += 1;
    }
    rest.is_empty()
}
