// How often a CronJob starts in a window, and when.
ghost use Rattle.std.specs.Prelude.{◌≡◌, IfOk, IfSome, option_copied, option_map};
ghost use Rattle.cj_zone.specs.Table.{zones_of};
ghost use Rattle.cj_inspect.specs.Sums.{IsSum, IsSumOf};

use cj_cluster::ClusterCron;
use cj_types::{Refusal, Seconds, Shared};
use cj_upcoming::{Start, Window, upcoming};
use cj_zone::ZoneTable;
use std::alloc::Global;
use std::slice;

/// How often a CronJob starts in a window, and when.
#[derive(Clone, Copy, Debug)]
pub(crate) struct Sum {
    /// How many starts it has.
    pub count: usize,
    /// The first of them.
    pub first: Option<Seconds>,
    /// The last of them.
    pub last: Option<Seconds>,
    /// How many seconds each is after the one before, where that is the same for all.
    pub every: Option<u64>,
}

fn time_of(start: Option<&Start>) -> Option<Seconds>
    ensures { result ≡ option_map (λ s. s.time) (option_copied start.entry) }
{
    match start {
        Some(start) => Some(start.time),
        None => None,
    }
}

// How many seconds each start is after the one before, where that is the same for all.
fn every(starts: &[Start]) -> Option<u64> {
    let [first, second, rest @ ..] = starts else {
        return None;
    };
    let step = second.time.get().saturating_sub(first.time.get());
    let mut at = second.time.get();
    for start in rest {
        if start.time.get().saturating_sub(at) != step {
            return None;
        }
        at = start.time.get();
    }
    Some(step)
}

// Those starts summed up.
fn summed(starts: &[Start]) -> Sum
    ensures { IsSumOf starts.now result }
{
    Sum {
        count: starts.len(),
        first: time_of(starts.first()),
        last: time_of(starts.last()),
        every: every(starts),
    }
}

/// How often a CronJob starts in a window, and when.
pub(crate) fn sum_of(
    alloc: Global,
    zones: &ZoneTable,
    window: &Window,
    cron: &Shared<ClusterCron>,
) -> Result<Sum, Refusal>
    ensures { IfOk result (IsSum (zones_of zones.now) window.now cron.now) }
{
    match upcoming(alloc, zones, window, slice::from_ref(cron), usize::MAX) {
        Ok(starts) => Ok(summed(starts.as_slice())),
        Err(_) => Err(Refusal::OutOfMemory),
    }
}
