//! One thread for each share.
ghost use Rattle.std.specs.Prelude.{IfOk};
ghost use Rattle.std.specs.List.{AllZip};
ghost use Rattle.cj_runner.specs.Shares.{Came, HasCome};

use crate::ending::{Ends, end_share};
use crate::shares::Share;
use cj_hub::{Hub, HubDesk, Pass};
use cj_types::Seconds;
use std::alloc::{AllocError, Global};
use std::snapshot::Snapshot;
use std::sync::Wait;
use std::thread;
use std::thread::{Promise, Threads};

/// A pass as its thread hands it back, with what came of its share.
#[derive(Drop)]
pub(crate) struct ShareEnd {
    pub(crate) pass: Pass,
    pub(crate) ends: Ends,
}

// What the thread of a share hands back.
#[derive(Drop)]
struct CameFrom {
    share: Snapshot<Share>,
    now: Seconds,
}

impl Promise<ShareEnd> for CameFrom {
    ghost kept_by = { λ p e. Came p.now p.share.value e };
}

// The ends of one share through the hub.
fn end_here(rt: &impl Wait, alloc: Global, hub: &Hub, share: Share, now: Seconds) -> ShareEnd
    ensures { Came now share result }
{
    let Share { pass, running } = share;
    let mut pass = pass;
    let mut desk = HubDesk::new(hub, rt);
    let ends = end_share(&mut desk, alloc, &mut pass, running, now);
    ShareEnd { pass, ends }
}

/// Ends what is due, each share in a thread of its own. None stands for a share whose thread can't
/// be started.
pub(crate) fn run_shares<R: Threads + Wait + Sync>(
    rt: &R,
    alloc: Global,
    hub: &Hub,
    shares: Vec<Share>,
    now: Seconds,
) -> Result<Vec<Option<ShareEnd>>, AllocError>
    ensures { IfOk result (λ v. AllZip (HasCome now) shares.items v.items) }
{
    thread::scope(
        thread::scope_env(),
        rt,
        |scope| -> Result<Vec<Option<ShareEnd>>, AllocError>
            ensures { IfOk result (λ v. AllZip (HasCome now) shares.items v.items) }
        {
            let count = shares.len();
            let mut started = Vec::with_capacity(alloc, count)?;
            let mut ends = Vec::with_capacity(alloc, count)?;
            for share in shares {
                let promise = CameFrom {
                    share: Snapshot::of(&share),
                    now,
                };
                let child = scope.spawn_with(promise, move || end_here(rt, alloc, hub, share, now));
                started.push(child.ok())?;
            }
            for child in started {
                match child {
                    Some(child) => ends.push(Some(child.join(rt)))?,
                    None => ends.push(None)?,
                }
            }
            Ok(ends)
        },
    )
}
