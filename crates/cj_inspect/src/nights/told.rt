// How it is told to people.
ghost use Rattle.std.specs.Prelude.{◌≡◌, IfErr, IfOk, map, string_bytes};
ghost use Rattle.cj_base.specs.declared.refusal.Refusal.TheVariants.{OutOfMemory};
ghost use Rattle.cj_zone.specs.Table.{zones_of};
ghost use Rattle.cj_answers.specs.Outcome.{outcome_of};
ghost use Rattle.cj_inspect.specs.Nights.{IsNightText, TellsNights, is_silent};

use crate::nights::gather::{Nights, nights_among, nights_of};
use crate::nights::groups::{Night, Parts, parts_of};
use crate::nights::look::Look;
use cj_answers::Answer;
use cj_cluster::ClusterCron;
use cj_types::{CronJob, Key, Refusal, Shared};
use cj_zone::ZoneTable;
use std::alloc::{AllocError, Global};

// The most CronJobs that a line names.
const MOST_NAMES: usize = 10;

// What stands before the name of a CronJob at a place, of so many that are named.
fn link(place: usize, count: usize, is_cut: bool) -> &'static str {
    if place == 0 {
        ""
    } else if place.saturating_add(1) == count && !is_cut {
        " and "
    } else {
        ", "
    }
}

fn push_name(text: &mut String, key: &Key) -> Result<(), AllocError> {
    text.push_str(key.namespace())?;
    text.push_str("/")?;
    text.push_str(key.name())
}

// The names of the first CronJobs, and how many more there are.
fn names_text(alloc: Global, crons: &[Key]) -> Result<String, AllocError> {
    let count = crons.len();
    let is_cut = count > MOST_NAMES;
    let mut text = String::new(alloc);
    for (place, key) in crons.iter().take(MOST_NAMES).enumerate() {
        text.push_str(link(place, count, is_cut))?;
        push_name(&mut text, key)?;
    }
    if is_cut {
        let more = count.saturating_sub(MOST_NAMES);
        let words = format!(in alloc; " and {more} more")?;
        text.push_str(words.as_str())?;
    }
    Ok(text)
}

// The schedules of so many.
fn of_schedules(count: usize) -> (&'static str, &'static str) {
    if count == 1 {
        ("the schedule of ", " names, ")
    } else {
        ("the schedules of ", " name, ")
    }
}

fn parts_text(alloc: Global, night: &Night, parts: &Parts<'_>) -> Result<String, AllocError> {
    let names = names_text(alloc, night.crons.as_slice())?;
    let (zone, names) = (night.zone.as_str(), names.as_str());
    let (of, name) = of_schedules(night.crons.as_slice().len());
    let Parts {
        named,
        fate,
        from,
        to,
        time,
    } = *parts;
    format!(in alloc;
        "{zone}: {named}, which {of}{names}{name}{fate}: the clock goes from {from} to {to} at {time}\n"
    )
}

fn night_text(alloc: Global, night: &Night) -> Result<String, AllocError> {
    match parts_of(night.line.as_str()) {
        Some(parts) => parts_text(alloc, night, &parts),
        None => Ok(String::new(alloc)),
    }
}

// A line for each.
fn all_text(alloc: Global, nights: &[Night]) -> Result<String, AllocError> {
    let mut text = String::new(alloc);
    for night in nights {
        let line = night_text(alloc, night)?;
        text.push_str(line.as_str())?;
    }
    Ok(text)
}

fn is_silent(text: &str) -> bool
    ensures { result ≡ is_silent text.now }
{
    text.is_empty()
}

// These lines if they are as empty as the others, else the others.
fn either(text: String, raw: String) -> String
    ensures { is_silent (string_bytes result) ≡ is_silent (string_bytes raw) }
{
    let (is_told, is_due) = (is_silent(text.as_str()), is_silent(raw.as_str()));
    if is_told == is_due { text } else { raw }
}

fn told(alloc: Global, found: Nights) -> Result<String, Refusal>
    ensures ok { IfOk result (λ s. is_silent (string_bytes s)
        ≡ is_silent (string_bytes found.raw)) }
    ensures err { IfErr result (λ e. e ≡ OutOfMemory) }
{
    let text = all_text(alloc, found.nights.as_slice())?;
    let Nights { raw, nights: _ } = found;
    Ok(either(text, raw))
}

/// A line for each local time that a clock skips, or shows twice, and that schedules of these
/// CronJobs name, in the order of time: which CronJobs they are, at most ten by name, and from
/// where to where the clock goes.
///
/// # Errors
///
/// `OutOfMemory`.
pub fn nights_text(
    alloc: Global,
    zones: &ZoneTable,
    look: &Look,
    crons: &[Shared<CronJob>],
) -> Result<String, Refusal>
    ensures ok { IfOk result (λ s. IsNightText (zones_of zones.now) look.now crons.now
        (string_bytes s)) }
    ensures err { IfErr result (λ e. e ≡ OutOfMemory) }
{
    let found = nights_among(alloc, zones, look, crons)?;
    told(alloc, found)
}

// The same of a cluster's.
fn cluster_text(
    alloc: Global,
    zones: &ZoneTable,
    look: &Look,
    crons: &[Shared<ClusterCron>],
) -> Result<String, Refusal>
    ensures ok { IfOk result (λ s. IsNightText (zones_of zones.now) look.now
        (map (λ c. c.cron) crons.now) (string_bytes s)) }
    ensures err { IfErr result (λ e. e ≡ OutOfMemory) }
{
    let found = nights_of(alloc, zones, look, crons)?;
    told(alloc, found)
}

/// An answer, with that behind what it says, where people ask for it.
pub(crate) fn with_nights(
    alloc: Global,
    explain: bool,
    zones: &ZoneTable,
    look: &Look,
    crons: &[Shared<ClusterCron>],
    answer: Answer,
) -> Result<Answer, Refusal>
    ensures ok { IfOk result (λ a. TellsNights explain (zones_of zones.now) look.now
        (map (λ c. c.cron) crons.now) (outcome_of answer) (outcome_of a)) }
    ensures err { IfErr result (λ e. e ≡ OutOfMemory) }
{
    if explain {
        let words = cluster_text(alloc, zones, look, crons)?;
        Ok(answer.explained(true, words.as_str())?)
    } else {
        Ok(answer)
    }
}
