//! The calls of one runner.
ghost use Rattle.std.specs.Prelude.{◌≡◌, IsTrue, OnOk, OnErr};
ghost use Rattle.cj_hub.specs.Runs.{extended};
ghost use Rattle.cj_runner.specs.Dues.{end_call};
ghost use Rattle.cj_runner.specs.Ends.{Keeps, entries_of};
ghost use Rattle.cj_runner.specs.Shares.{HasEnded, Makes};

use crate::running::Running;
use cj_hub::{Desk, Pass, Receipt};
use cj_types::{Refusal, Seconds};
use std::alloc::Global;

/// Why a runner stopped.
#[derive(Clone, Copy, Debug, PartialEq, Eq)]
pub(crate) enum Stop {
    HistoryFull,
    Estranged,
    /// No memory, or no thread.
    OutOfMemory,
}

/// The receipts that a runner got, in order, and why it stopped, if it did.
#[derive(Drop)]
pub(crate) struct Ends {
    pub(crate) receipts: Vec<Receipt>,
    pub(crate) stop: Option<Stop>,
}

// Ends one Job, and puts its receipt after the others.
fn end_one<D: Desk>(
    desk: &mut D,
    pass: &mut Pass,
    one: Running,
    now: Seconds,
    receipts: &mut Vec<Receipt>,
) -> Result<(), Stop>
    ensures ok { OnOk result (Makes D.tells (D.history desk.old) (D.history desk.new) pass.old
        pass.new (end_call now one) receipts.old.items receipts.new.items) }
    ensures same { OnErr result ((pass.new ≡ pass.old)
        × (receipts.new.items ≡ receipts.old.items)) }
    ensures kept { IsTrue D.tells → OnErr result (D.history desk.new ≡ D.history desk.old) }
{
    if receipts.reserve(1).is_err() {
        return Err(Stop::OutOfMemory);
    }
    match desk.call(pass, one.end_call(now)) {
        Ok(receipt) => {
            receipts.push_reserved(receipt);
            Ok(())
        }
        Err(Refusal::HistoryFull) => Err(Stop::HistoryFull),
        Err(Refusal::Estranged) => Err(Stop::Estranged),
        Err(Refusal::OutOfMemory) => Err(Stop::OutOfMemory),
        Err(_) => unreachable!(),
    }
}

/// Ends those that are due, in order, up to the first call that isn't entered.
pub(crate) fn end_share<D: Desk>(
    desk: &mut D,
    alloc: Global,
    pass: &mut Pass,
    running: Vec<Running>,
    now: Seconds,
) -> Ends
    ensures keeps { Keeps pass.old pass.new result.receipts.items }
    ensures told { IsTrue D.tells → D.history desk.new
        ≡ extended (D.history desk.old) (entries_of result.receipts.items) }
    ensures ended { HasEnded now running.items result }
{
    let mut receipts = Vec::new(alloc);
    for one in running {
        if one.is_due(now) {
            match end_one(desk, pass, one, now, &mut receipts) {
                Ok(()) => {}
                Err(stop) => {
                    let stop = Some(stop);
                    return Ends { receipts, stop };
                }
            }
        }
    }
    let stop = None;
    Ends { receipts, stop }
}
