// The lines of a window.
ghost use Rattle.std.specs.Prelude.{◌≡◌, ◌++◌, IfOk, IfErr, string_bytes};
ghost use Rattle.cj_base.specs.declared.refusal.Refusal.TheVariants.{OutOfMemory};
ghost use Rattle.cj_zone.specs.Table.{zones_of};
ghost use Rattle.cj_upcoming.specs.Report.{IsTextOf};

use crate::lines::{peaks_text, starts_text};
use crate::standings::standings_text;
use crate::start::Start;
use crate::window::Window;
use crate::zone_changes::zone_changes_text;
use cj_cluster::ClusterCron;
use cj_types::{Refusal, Shared};
use cj_zone::ZoneTable;
use std::alloc::{AllocError, Global};

fn joined(
    alloc: Global,
    started: &str,
    standings: &str,
    changes: &str,
    fullest: &str,
) -> Result<String, AllocError>
    ensures { IfOk result (λ s. string_bytes s
        ≡ started.now ++ (standings.now ++ (changes.now ++ fullest.now))) }
{
    format!(in alloc; "{started}{standings}{changes}{fullest}")
}

/// The lines of a window with these starts, of CronJobs: one for each minute in which something
/// starts, for each CronJob that starts nothing, for each instant at which the clock of a zone that
/// one of them names is put, and for each of the fullest minutes, at most `peaks`.
pub fn window_lines(
    alloc: Global,
    zones: &ZoneTable,
    window: &Window,
    crons: &[Shared<ClusterCron>],
    starts: &[Start],
    peaks: usize,
) -> Result<String, Refusal>
    ensures ok { IfOk result (λ s. IsTextOf (zones_of zones.now) window.now crons.now peaks
        starts.now (string_bytes s)) }
    ensures memory { IfErr result (λ e. e ≡ OutOfMemory) }
{
    let started = starts_text(alloc, crons, starts)?;
    let standings = standings_text(alloc, zones, window.from(), crons)?;
    let changes = zone_changes_text(alloc, zones, window, crons)?;
    let fullest = peaks_text(alloc, crons, starts, peaks)?;
    let text = joined(
        alloc,
        started.as_str(),
        standings.as_str(),
        changes.as_str(),
        fullest.as_str(),
    )?;
    Ok(text)
}
