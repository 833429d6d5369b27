//! What the runners hand back, put together.
ghost use Rattle.std.specs.Prelude.{◌≡◌, [], IfOk, None};
ghost use Rattle.std.specs.Option.{option_or};
ghost use Rattle.cj_runner.specs.Shares.{IsGathered, TakesUp};

use crate::ending::{Ends, Stop};
use crate::threads::ShareEnd;
use cj_hub::{Pass, Receipt};
use std::alloc::{AllocError, Global};

/// The passes and the receipts that came back, and why not all ends were made, if not.
#[derive(Drop)]
pub(crate) struct Gathered {
    pub(crate) passes: Vec<Pass>,
    pub(crate) receipts: Vec<Receipt>,
    pub(crate) stop: Option<Stop>,
}

impl Gathered {
    /// Nothing yet, with room for these numbers of passes and receipts.
    pub(crate) fn new(alloc: Global, passes: usize, receipts: usize) -> Result<Gathered, AllocError>
        ensures { IfOk result (λ g. (g.passes.items ≡ []) × (g.receipts.items ≡ [])) }
    {
        let passes = Vec::with_capacity(alloc, passes)?;
        let receipts = Vec::with_capacity(alloc, receipts)?;
        let stop = None;
        Ok(Gathered {
            passes,
            receipts,
            stop,
        })
    }

    /// Keeps the reason, where there is none yet.
    pub(crate) fn stop_by(&mut self, stop: Option<Stop>)
        ensures { self.new ≡ record self.old { stop = option_or self.old.stop stop } }
    {
        if self.stop.is_none() {
            self.stop = stop;
        }
    }

    // Adds what one share handed back. Its pass is lost where its thread couldn't be started.
    fn take_up(&mut self, end: Option<ShareEnd>)
        ensures { TakesUp self.old end self.new }
    {
        let Some(ShareEnd { pass, ends }) = end else {
            self.stop_by(Some(Stop::OutOfMemory));
            return;
        };
        if self.passes.push(pass).is_err() {
            self.stop_by(Some(Stop::OutOfMemory));
            return;
        }
        let Ends { receipts, stop } = ends;
        let mut receipts = receipts;
        if self.receipts.append(&mut receipts).is_err() {
            self.stop_by(Some(Stop::OutOfMemory));
        }
        self.stop_by(stop);
    }
}

/// Puts together what the shares handed back, in order.
pub(crate) fn gather(room: Gathered, ends: Vec<Option<ShareEnd>>) -> Gathered
    requires passes { room.passes.items ≡ [] }
    requires receipts { room.receipts.items ≡ [] }
    ensures { IsGathered ends.items result }
{
    let mut gathered = room;
    for end in ends {
        gathered.take_up(end);
    }
    gathered
}
