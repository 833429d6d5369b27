// All that is said to people of a run.
ghost use Rattle.std.specs.Prelude.{◌≡◌, IfOk, IfErr, string_bytes};
ghost use Rattle.cj_base.specs.declared.refusal.Refusal.TheVariants.{OutOfMemory};
ghost use Rattle.std.specs.FinMap as map;
ghost use mathlib.Core.List.{reverse};
ghost use Rattle.cj_world.specs.Worlds.{state_in};
ghost use Rattle.cj_program.specs.remarks.Remarks.{HasNights, IsAskedRemark, IsRemark, remark_words};
ghost use Rattle.cj_program.specs.remarks.Standings as said;
ghost use Rattle.cj_program.specs.remarks.Standings.{AreGapsOf};
ghost use Rattle.cj_program.specs.remarks.Suspended.{suspended_lines};

use crate::remarks::gaps::gap_text;
use crate::remarks::idle::idle_text;
use crate::remarks::order::sort;
use crate::remarks::refused::refused_text;
use crate::remarks::standings::{last_instant, standings};
use crate::remarks::suspended::suspended_text;
use cj_calls::Entry;
use cj_history::{Gap, Standing, all_gaps_of};
use cj_hub::Closed;
use cj_inspect::{Look, nights_text};
use cj_io::Failure;
use cj_script::Span;
use cj_types::Refusal;
use cj_zone::ZoneTable;
use std::alloc::Global;

// What is said of the CronJobs that are there at the end.
fn end_text(alloc: Global, closed: &Closed) -> Result<String, Refusal>
    ensures { IfOk result (λ s. string_bytes s
        ≡ suspended_lines (map.values (state_in closed.now).store.crons)) }
{
    let (crons, _) = closed.objects()?;
    suspended_text(alloc, crons.as_slice())
}

/// The entries of a closed history, the oldest first.
pub(crate) fn entries_of(closed: &Closed) -> &[Entry]
    ensures history { reverse result.now ≡ closed.now.history }
    ensures entries { result.now ≡ reverse closed.now.history }
{
    closed.history()
}

// What is said of a history with these gaps, which are in order.
fn text_of(
    alloc: Global,
    most: u64,
    span: &Span,
    closed: &Closed,
    gaps: &[Gap],
) -> Result<String, Refusal>
    ensures { IfOk result (λ s. string_bytes s ≡ remark_words most span.now closed.now gaps.now) }
{
    let entries = entries_of(closed);
    let mut text = refused_text(alloc, span, entries)?;
    let idle = idle_text(alloc, span, entries, gaps)?;
    text.push_str(idle.as_str())?;
    let told = gap_text(alloc, most, gaps)?;
    text.push_str(told.as_str())?;
    let end = end_text(alloc, closed)?;
    text.push_str(end.as_str())?;
    Ok(text)
}

// The CronJobs that stand in the end and aren't suspended, with their zones.
fn standing_in(alloc: Global, zones: &ZoneTable, closed: &Closed) -> Result<Vec<Standing>, Refusal>
    ensures ok { IfOk result (λ v. v.items
        ≡ said.standings zones.now (map.values (state_in closed.now).store.crons)) }
    ensures err { IfErr result (λ e. e ≡ OutOfMemory) }
{
    let (crons, _) = closed.objects()?;
    standings(alloc, zones, crons.as_slice())
}

/// The gaps of a closed history of a run under this clock, and with these zones, and what is late
/// in the end.
pub(crate) fn gaps_in(
    alloc: Global,
    span: &Span,
    zones: &ZoneTable,
    closed: &Closed,
) -> Result<Vec<Gap>, Refusal>
    ensures ok { IfOk result (λ gs. AreGapsOf span.now zones.now closed.now gs.items) }
    ensures err { IfErr result (λ e. e ≡ OutOfMemory) }
{
    let standing = standing_in(alloc, zones, closed)?;
    let at = last_instant(span);
    all_gaps_of(alloc, entries_of(closed), standing.as_slice(), at)
}

// The text, with the local times behind it that a clock skips, or shows twice, while the run's
// clock goes on, and that a CronJob's schedule names.
fn with_nights(
    alloc: Global,
    span: &Span,
    zones: &ZoneTable,
    closed: &Closed,
    mut text: String,
) -> Result<String, Refusal>
    ensures { IfOk result (λ s. HasNights span.now zones.now closed.now (string_bytes text)
        (string_bytes s)) }
{
    let (crons, _) = closed.objects()?;
    let look = Look::Within(span.start(), last_instant(span));
    let nights = nights_text(alloc, zones, &look, crons.as_slice())?;
    text.push_str(nights.as_str())?;
    Ok(text)
}

// What is said of a closed history.
fn remark(
    alloc: Global,
    most: u64,
    span: &Span,
    zones: &ZoneTable,
    closed: &Closed,
) -> Result<String, Refusal>
    ensures { IfOk result (λ s. IsRemark most span.now zones.now closed.now (string_bytes s)) }
{
    let mut gaps = gaps_in(alloc, span, zones, closed)?;
    sort(&mut gaps)?;
    let text = text_of(alloc, most, span, closed, gaps.as_slice())?;
    with_nights(alloc, span, zones, closed, text)
}

/// What is said to people of a run under this clock, and with these zones, where they ask for it.
/// At most `most` gaps of one CronJob and one cause get a line each, and more get one line
/// together.
pub(crate) fn asked_remark(
    alloc: Global,
    explain: bool,
    most: u64,
    span: &Span,
    zones: &ZoneTable,
    closed: &Closed,
) -> Result<String, Failure>
    ensures { IfOk result (λ s. IsAskedRemark explain most span.now zones.now closed.now
        (string_bytes s)) }
{
    if explain {
        Ok(remark(alloc, most, span, zones, closed)?)
    } else {
        Ok(String::new(alloc))
    }
}
