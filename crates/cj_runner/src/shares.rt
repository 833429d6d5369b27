//! The list, split into a share for each pass.
ghost use Rattle.std.specs.Prelude.{IfOk};
ghost use Rattle.cj_runner.specs.Shares.{AreShares};

use crate::running::Running;
use cj_hub::Pass;
use std::alloc::{AllocError, Global};

/// A pass with its share of the list.
#[derive(Drop)]
pub(crate) struct Share {
    pub(crate) pass: Pass,
    pub(crate) running: Vec<Running>,
}

// One share of at most `most` Jobs for each pass, in the list's order. What is left of the list
// comes beside them.
fn share_out(
    alloc: Global,
    passes: Vec<Pass>,
    running: Vec<Running>,
    most: usize,
) -> Result<(Vec<Share>, Vec<Running>), AllocError>
    ensures { IfOk result (λ r. AreShares passes.items running.items r.0.items r.1.items) }
{
    let mut shares = Vec::with_capacity(alloc, passes.len())?;
    let mut left = running;
    for pass in passes {
        let count = most.min(left.len());
        let rest = left.split_off(count)?;
        let running = left;
        shares.push(Share { pass, running })?;
        left = rest;
    }
    Ok((shares, left))
}

/// The list in shares of one size, one for each pass. Something is left only where there is no
/// pass.
pub(crate) fn shares_of(
    alloc: Global,
    passes: Vec<Pass>,
    running: Vec<Running>,
) -> Result<(Vec<Share>, Vec<Running>), AllocError>
    ensures { IfOk result (λ r. AreShares passes.items running.items r.0.items r.1.items) }
{
    let most = running.len().div_ceil(passes.len().max(1));
    share_out(alloc, passes, running, most)
}
